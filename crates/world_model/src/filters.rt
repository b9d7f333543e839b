//! Laws of the basic filter of a sheet: each function does nothing, and its contract is the law.

ghost use Rattle.world_model.specs.FilterLaws.{CriteriaFollowColumns, FilterIsSet};

/// A filter that a sheet gets is that of the lines at its places, and the spreadsheet stays sound.
pub fn filter_is_set()
    ensures { FilterIsSet }
{}

/// A criterion of a filter follows as a location on its column does.
pub fn criteria_follow_columns()
    ensures { CriteriaFollowColumns }
{}
