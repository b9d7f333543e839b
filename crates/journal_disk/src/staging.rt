ghost use Rattle.std.specs.Prelude.{◌≡◌, ◌<◌, ◌≤◌, ◌+◌, ◌++◌, ◌∷◌, List, ℕ, length, OnOk};
ghost use Rattle.journal_disk.specs.Disk.{Only, Stays, RisesAtErr};
ghost use Rattle.journal_disk.specs.Log.{Each, IsClosedBehind, IsGated, IsWhole};

use crate::Disk;
use cell_value::Failed;

/// Writes a piece with its length behind the closed gate at place `end`, and a closed gate behind
/// it, and syncs.
pub fn stage<D: Disk>(disk: &mut D, end: u64, piece: &[u8]) -> Result<(), Failed>
    requires { end < length (D.seen disk.old) }
    ensures grows { length (D.seen disk.old) ≤ length (D.seen disk.new) }
    ensures room { OnOk result (end + 9 + length piece.now < length (D.seen disk.new)) }
    ensures images { (front : List ℕ) → length front ≡ end → Each (D.may_leave disk.old) (IsClosedBehind front)
        → Stays D.moment D.left_since D.may_leave disk.old disk.new (IsClosedBehind front) }
    ensures staged { OnOk result ((front : List ℕ) → length front ≡ end
        → Each (D.may_leave disk.old) (IsClosedBehind front)
        → (behind : List ℕ) × IsWhole piece.now behind × Each (D.may_leave disk.new) (IsGated front behind)) }
    ensures cause { RisesAtErr (D.faults disk.old) (D.faults disk.new) result }
{
    disk.write(end + 1, &(piece.len() as u64).to_be_bytes())?;
    disk.write(end + 9, piece)?;
    disk.write(end + 9 + piece.len() as u64, &[0])?;
    disk.sync()
}
