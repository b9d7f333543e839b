//! Tests of an area beside a merge, whose bands have both ends.

ghost use Rattle.std.specs.Prelude.{◌≡◌, ◌↔◌, IsTrue};
ghost use Rattle.grid_range.specs.Area.{first_cell};
ghost use Rattle.merge_ranges.specs.Merges.{HasEnds, HasManyCells, HasManyLines};
ghost use Rattle.merge_ranges.specs.Tests.{has_all, has_cell_of, has_some, past_line, holds_all, cuts, has_many_lines, has_many_cells, line_count};

use grid_range::{Area, Band};

/// The first cell, by which merges are ordered.
pub(crate) fn first_cell(area: &Area) -> (u32, u32)
    ensures { result ≡ first_cell area.now }
{
    (area.rows.first_line(), area.cols.first_line())
}

/// The line past the band's last one.
pub(crate) fn past_line(band: Band) -> u32
    ensures { result ≡ past_line band }
{
    band.end_line(0)
}

/// Whether the band has all lines from `first` to `past - 1`.
fn has_all(band: Band, first: u32, past: u32) -> bool
    ensures { result ≡ has_all band first past }
{
    match band {
        Band::Whole => true,
        Band::From(start) => start <= first,
        Band::Span(start, end) => start <= first && past <= end,
    }
}

/// Whether the band has one of the lines from `first` to `past - 1`.
fn has_some(band: Band, first: u32, past: u32) -> bool
    ensures { result ≡ has_some band first past }
{
    match band {
        Band::Whole => true,
        Band::From(start) => start < past,
        Band::Span(start, end) => start < end && start < past && first < end,
    }
}

/// Whether the area holds each cell of the merge.
pub(crate) fn holds_all(area: &Area, merge: &Area) -> bool
    ensures { result ≡ holds_all area.now merge.now }
{
    has_all(area.rows, merge.rows.first_line(), past_line(merge.rows))
        && has_all(area.cols, merge.cols.first_line(), past_line(merge.cols))
}

/// Whether the area has a cell of the merge.
pub(crate) fn has_cell_of(area: &Area, merge: &Area) -> bool
    ensures { result ≡ has_cell_of area.now merge.now }
{
    has_some(area.rows, merge.rows.first_line(), past_line(merge.rows))
        && has_some(area.cols, merge.cols.first_line(), past_line(merge.cols))
}

/// Whether the area has a cell of the merge, and not all of them.
pub(crate) fn cuts(area: &Area, merge: &Area) -> bool
    ensures { result ≡ cuts area.now merge.now }
{
    has_cell_of(area, merge) && !holds_all(area, merge)
}

/// Whether an area whose bands have both ends has more than one cell, so that it can be merged.
pub fn has_many_cells(area: &Area) -> bool
    ensures test { result ≡ has_many_cells area.now }
    ensures many { IsTrue result ↔ HasManyCells area.now }
{
    has_many_lines(area.rows) || has_many_lines(area.cols)
}

/// Whether a band with both ends has more than one line.
pub fn has_many_lines(band: Band) -> bool
    ensures test { result ≡ has_many_lines band }
    ensures many { IsTrue result ↔ HasManyLines band }
{
    match band {
        Band::Whole | Band::From(_) => false,
        Band::Span(start, end) => start < end && end - start > 1,
    }
}

/// How many lines a band with both ends has.
pub fn line_count(band: Band) -> u32
    requires { HasEnds band }
    ensures { result ≡ line_count band }
{
    past_line(band) - band.first_line()
}
