//! Laws of cells that keep what they hold: each function does nothing of its own, and its contract is the law.

ghost use Rattle.kept_cells.specs.Protected.{ProtectedCellsKeep};
ghost use Rattle.kept_cells.specs.Untouched.{UntouchedCellsKeep};

use world_model::{changes_apart, changes_in_turn, denials_by_name, left_cells_stay};

/// What a request, a write, a clear or an append makes leaves what was entered into each cell that it doesn't touch.
pub fn untouched_cells_keep()
    ensures { UntouchedCellsKeep }
{
    changes_apart();
    changes_in_turn();
    left_cells_stay();
}

/// What a request, a write, a clear or an append of a user makes leaves what was entered into each cell that is
/// protected from him (Sheets API v4 reference, ProtectedRange).
pub fn protected_cells_keep()
    ensures { ProtectedCellsKeep }
{
    denials_by_name();
    left_cells_stay();
    untouched_cells_keep();
}
