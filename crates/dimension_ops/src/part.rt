use basic_filter::Filter;
use cell_value::Text;
use merge_ranges::Merges;

/// A part of a sheet that it gets anew (Sheets API v4 reference, SheetProperties, and `merges` and `basicFilter`
/// of Sheet).
#[derive(Debug, Drop)]
pub(crate) enum Part {
    /// The title.
    Title(Text),
    /// Whether it is hidden.
    Hidden(bool),
    /// The merged cells.
    Merges(Merges),
    /// The basic filter, or none.
    BasicFilter(Option<Filter>),
}
