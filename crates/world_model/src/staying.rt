//! The law of cells that changes leave: the function does nothing, and its contract is the law.

ghost use Rattle.world_model.specs.Leaving.{LeftCellsStay};

/// A cell that changes of the spreadsheet leave keeps what was entered into it.
pub fn left_cells_stay()
    ensures { LeftCellsStay }
{}
