ghost use Rattle.std.specs.Prelude.{◌≡◌, ◌<◌, ◌≤◌, ◌++◌, ◌∷◌, List, ℕ, length, OnOk};
ghost use Rattle.journal_disk.specs.Disk.{Only, Stays, RisesAtErr};
ghost use Rattle.journal_disk.specs.Log.{Each, IsGated};

use crate::Disk;
use cell_value::Failed;

/// Writes a gate's byte at place `end`, and syncs.
pub fn write_gate<D: Disk>(disk: &mut D, end: u64, gate: u8) -> Result<(), Failed>
    requires { end < length (D.seen disk.old) }
    ensures grows { length (D.seen disk.old) ≤ length (D.seen disk.new) }
    ensures images { (front behind : List ℕ) → length front ≡ end → Each (D.may_leave disk.old) (IsGated front behind)
        → Stays D.moment D.left_since D.may_leave disk.old disk.new (IsGated front behind) }
    ensures settled { OnOk result ((front behind : List ℕ) → length front ≡ end
        → Each (D.may_leave disk.old) (IsGated front behind)
        → Only (front ++ gate ∷ behind) (D.may_leave disk.new)) }
    ensures cause { RisesAtErr (D.faults disk.old) (D.faults disk.new) result }
{
    disk.write(end, &[gate])?;
    disk.sync()
}
