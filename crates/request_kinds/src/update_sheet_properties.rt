ghost use Rattle.std.specs.Prelude.{◌≡◌};
ghost use Rattle.dimension_ops.specs.Rules.{IsUnlessNoMemory};
ghost use Rattle.values_api.specs.Denials.{IsDenial};
ghost use Rattle.request_kinds.specs.Telling.{IsDoneTo};
ghost use Rattle.request_kinds.specs.UpdateSheetProperties.{LinesCut, lines_behind, sheet_properties_updated};

use crate::dimensions::whole_sheet;
use cell_value::SheetProperties;
use dimension_ops::{Book, RuleOr, set_properties};
use grid_range::{Area, Axis, Band};
use sheets_json::Reply;
use values_api::areas_denial;

/// Sets the properties of a sheet.
pub(crate) fn update_sheet_properties(
    book: &mut Book,
    sheet: u32,
    properties: &SheetProperties,
) -> Result<Reply, RuleOr>
    ensures { IsUnlessNoMemory (IsDoneTo (λ told. told ≡ sheet_properties_updated sheet properties.now book.old.sheets)
        book.old book.new) result }
{
    match set_properties(book, sheet, properties) {
        Ok(()) => Ok(Reply::Empty),
        Err(fault) => Err(fault),
    }
}

/// The least id of a protected range that denies the user a cell of a line that goes with such properties; None where
/// none does.
pub(crate) fn cut_denial(
    book: &Book,
    user: &str,
    sheet: u32,
    properties: &SheetProperties,
) -> Option<u32>
    ensures { IsDenial user.now book.now (LinesCut sheet properties.now book.now.sheets) result }
{
    let rows = lines_behind(sheet, Axis::Rows, properties.rows);
    let cols = lines_behind(sheet, Axis::Columns, properties.cols);
    areas_denial(book, user, &[rows, cols])
}

/// The lines of the sheet from the given number of them on; where none is given, no lines.
fn lines_behind(sheet: u32, axis: Axis, count: Option<u32>) -> Area
    ensures { result ≡ lines_behind sheet axis count }
{
    let lines = match count {
        Some(count) => Band::From(count),
        None => Band::Span(0, 0),
    };
    match axis {
        Axis::Rows => Area {
            rows: lines,
            ..whole_sheet(sheet)
        },
        Axis::Columns => Area {
            cols: lines,
            ..whole_sheet(sheet)
        },
    }
}
