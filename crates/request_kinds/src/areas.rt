ghost use Rattle.std.specs.Prelude.{◌≡◌, Some, IfOk};
ghost use Rattle.grid_range.specs.Area.{AreaWithin};
ghost use Rattle.values_api.specs.Ranges.{IsThere};
ghost use Rattle.request_kinds.specs.Rows.{area_or_broken, cut_or_broken, is_reversed};

use dimension_ops::{Book, Rule, Sheet};
use grid_range::{Area, Band};

/// The area, cut at the grid of its sheet (Sheets API v4 reference, GridRange).
///
/// # Errors
///
/// [`Rule::NoSheet`] where no sheet has its id, [`Rule::BadRange`] where a start isn't below its end,
/// [`Rule::OutsideGrid`] where its first row or its first column isn't there.
pub fn area_on(book: &Book, area: &Area) -> Result<Area, Rule>
    ensures found { result ≡ area_or_broken book.now.sheets area.now }
    ensures there { IfOk result (IsThere book.now.sheets) }
{
    match book.sheet(area.sheet) {
        Some(sheet) => cut(sheet, area),
        None => Err(Rule::NoSheet),
    }
}

/// The area, cut at the grid of the sheet that has its id.
fn cut(sheet: &Sheet, area: &Area) -> Result<Area, Rule>
    ensures found { result ≡ cut_or_broken (Some sheet.now) area.now }
    ensures sheet { IfOk result (λ cut. cut.sheet ≡ area.now.sheet) }
    ensures within { IfOk result (λ cut. AreaWithin cut sheet.now.table.rows sheet.now.table.cols) }
{
    if is_reversed(area.rows) || is_reversed(area.cols) {
        return Err(Rule::BadRange);
    }
    match area.clip(sheet.rows(), sheet.cols()) {
        Some(clipped) => Ok(clipped),
        None => Err(Rule::OutsideGrid),
    }
}

/// Whether the band has a start that isn't below its end.
pub(crate) fn is_reversed(band: Band) -> bool
    ensures { result ≡ is_reversed band }
{
    match band {
        Band::Span(start, end) => end <= start,
        Band::Whole | Band::From(_) => false,
    }
}
