ghost use Rattle.std.specs.Prelude.{◌≡◌, IfOk, IsSomeAnd};
ghost use Rattle.world_model.specs.Sound.{place_sheet_with};
ghost use Rattle.values_api.specs.Ranges.{IsThere, area_text};

use a1_notation::write_a1;
use cell_value::{NoMemory, Text};
use dimension_ops::Book;
use grid_range::Area;
use std::alloc::Global;

/// An area as text in A1 notation with both ends: the title of its sheet, and its first and its last
/// cell, or the only one (Sheets API v4 guide, A1 notation).
///
/// # Errors
///
/// [`NoMemory`] where memory runs out.
pub fn range_text(alloc: Global, book: &Book, area: &Area) -> Result<Text, NoMemory>
    requires { IsThere book.now.sheets area.now }
    ensures { IfOk result (λ text. IsSomeAnd (place_sheet_with area.now.sheet book.now.sheets)
        (λ sheet. text ≡ area_text sheet area.now)) }
{
    book.stays_sound();
    match book.sheet(area.sheet) {
        Some(sheet) => {
            let rows = area.rows.ends(sheet.rows());
            let cols = area.cols.ends(sheet.cols());
            write_a1(alloc, sheet.title().as_str(), rows, cols)
        }
        None => Ok(Text::of(String::new(alloc))),
    }
}
