ghost use Rattle.std.specs.Prelude.{◌≡◌, ◌<◌, ◌≤◌, ℕ, List, [], ◌∷◌, false, None, length, OnOk, IfOk};
ghost use Rattle.journal_disk.specs.Disk.{Only, Stays, RisesAtErr};
ghost use Rattle.journal_disk.specs.Records.{HasPieces};
ghost use Rattle.journal_disk.specs.Log.{Each, Keeps, IsShort, HasThese, MayHaveThese};

use crate::Disk;
use crate::gate::write_gate;
use crate::scan::{Ending, find_ending, read_exact};
use cell_value::Failed;

/// Settles a disk, and sees to it that a closed gate stands behind the records.
pub fn prepare<D: Disk>(disk: &mut D) -> Result<Ending, Failed>
    ensures kept { IfOk result (λ ending. (pieces : List (List ℕ)) × HasPieces (D.seen disk.old) pieces
        × Keeps (D.may_leave disk.new) ending.place ending.held false pieces None) }
    ensures any_moment { (pieces : List (List ℕ)) → HasPieces (D.seen disk.old) pieces
        → Stays D.moment D.left_since D.may_leave disk.old disk.new (MayHaveThese (D.may_leave disk.old) pieces) }
    ensures gated { IfOk result (λ ending. ending.place < length (D.seen disk.new)) }
    ensures small { IfOk result (λ ending. ending.held ≤ ending.place) }
    ensures cause { RisesAtErr (D.faults disk.old) (D.faults disk.new) result }
{
    disk.sync()?;
    let size = disk.size()?;
    if size == 0 {
        write_first(disk)?;
        return Ok(Ending { place: 0, held: 0 });
    }
    close_end(disk, size)
}

// Writes the closed gate of an empty image.
fn write_first<D: Disk>(disk: &mut D) -> Result<(), Failed>
    requires { length (D.seen disk.old) ≡ 0 }
    ensures images { Each (D.may_leave disk.old) IsShort
        → Stays D.moment D.left_since D.may_leave disk.old disk.new IsShort }
    ensures closed { OnOk result (Only (0 ∷ []) (D.may_leave disk.new)) }
    ensures some { OnOk result (0 < length (D.seen disk.new)) }
    ensures cause { RisesAtErr (D.faults disk.old) (D.faults disk.new) result }
{
    disk.write(0, &[0])?;
    disk.sync()
}

// Writes a gate shut that stands open behind the records with no record.
fn close_end<D: Disk>(disk: &mut D, size: u64) -> Result<Ending, Failed>
    requires size { size ≡ length (D.seen disk.old) }
    requires some { 0 < size }
    ensures kept { IfOk result (λ ending. Only (D.seen disk.old) (D.may_leave disk.old) → (pieces : List (List ℕ))
        × HasPieces (D.seen disk.old) pieces
        × Keeps (D.may_leave disk.new) ending.place ending.held false pieces None) }
    ensures any_moment { (pieces : List (List ℕ)) → HasPieces (D.seen disk.old) pieces
        → Only (D.seen disk.old) (D.may_leave disk.old)
        → Stays D.moment D.left_since D.may_leave disk.old disk.new (HasThese pieces) }
    ensures gated { IfOk result (λ ending. ending.place < length (D.seen disk.new)) }
    ensures small { IfOk result (λ ending. ending.held ≤ ending.place) }
    ensures cause { RisesAtErr (D.faults disk.old) (D.faults disk.new) result }
{
    let ending = find_ending(disk, size)?;
    let mut gate = [0; 1];
    read_exact(disk, ending.place, &mut gate)?;
    if gate[0] == 1 {
        write_gate(disk, ending.place, 0)?;
    }
    Ok(ending)
}
