//! Laws of changes of a spreadsheet: each function does nothing of its own, and its contract is the law.

ghost use Rattle.world_model.specs.ChangingLaws.{ChangesApart, ChangesInTurn, UpdatesAreChanges, LineChangesAreChanges};

use crate::laws::{changes_follow, stands_for_apart, stands_for_some};
use grid_range::move_keeps_lines;

/// The same changes of a spreadsheet make one spreadsheet of it.
pub fn changes_apart()
    ensures { ChangesApart }
{
    stands_for_some();
    stands_for_apart();
}

/// Changes can be made one after another, and what always holds of a spreadsheet holds afterwards.
pub fn changes_in_turn()
    ensures { ChangesInTurn }
{
    stands_for_some();
}

/// An update of many cells is a change of the spreadsheet.
pub fn updates_are_changes()
    ensures { UpdatesAreChanges }
{}

/// A change of the lines of a sheet by places is a change of the spreadsheet.
pub fn line_changes_are_changes()
    ensures { LineChangesAreChanges }
{
    changes_follow();
    move_keeps_lines();
}
