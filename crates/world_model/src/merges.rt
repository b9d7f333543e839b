//! The law of the merges of a sheet: the function does nothing, and its contract is the law.

ghost use Rattle.world_model.specs.MergeLaws.{MergesAreSet};

/// Merges that a sheet gets are those of the lines at their places, and the spreadsheet stays sound.
pub fn merges_are_set()
    ensures { MergesAreSet }
{}
