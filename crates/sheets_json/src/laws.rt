//! Laws of what is read and written: each function does nothing, and its contract is the law.

ghost use Rattle.sheets_json.specs.Laws.{AreasAreReadAgain, NamedRangesAreReadAgain, LocationsAreReadAgain, ItemsAreReadAgain, ProtectionsAreReadAgain, FiltersAreReadAgain};

/// An area is written as a JSON value that is read as the same area.
pub fn areas_are_read_again()
    ensures { AreasAreReadAgain }
{}

/// A named range is written as a JSON value that is read as what would be asked for it.
pub fn named_ranges_are_read_again()
    ensures { NamedRangesAreReadAgain }
{}

/// A location is written as a JSON value that is read as the same location.
pub fn locations_are_read_again()
    ensures { LocationsAreReadAgain }
{}

/// An item of metadata is written as a JSON value that is read as what would be asked for it.
pub fn items_are_read_again()
    ensures { ItemsAreReadAgain }
{}

/// A protected range is written as a JSON value that is read as what would be asked for it.
pub fn protections_are_read_again()
    ensures { ProtectionsAreReadAgain }
{}

/// A filter is written as a JSON value that is read as the same filter.
pub fn filters_are_read_again()
    ensures { FiltersAreReadAgain }
{}
