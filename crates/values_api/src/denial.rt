ghost use Rattle.std.specs.Prelude.{◌≡◌, IfOk, IsSomeAnd};
ghost use Rattle.world_model.specs.Sound.{place_sheet_with};
ghost use Rattle.values_api.specs.Denials.{AreaCells, CellsOfAll, FilledCells, IsDenial, RestCells, WriteCells, lesser};
ghost use Rattle.values_api.specs.Ranges.{IsThere};

use crate::given::Given;
use crate::rest::rest_of;
use crate::uncovered::uncovered_cells;
use crate::writing::ends;
use cell_value::{Block, NoMemory};
use dimension_ops::Book;
use grid_range::Area;
use std::alloc::Global;

/// The least id of a protected range that denies the user a cell of the area (Sheets API v4 reference,
/// ProtectedRange); None where none does, and where the sheet isn't there. It takes no memory.
pub fn area_denial(book: &Book, user: &str, area: &Area) -> Option<u32>
    ensures { IsDenial user.now book.now (AreaCells book.now.sheets area.now) result }
{
    let sheet = book.sheet(area.sheet)?;
    let owner = book.owner().as_str();
    book.protections()
        .first_denial(user, owner, area, sheet.rows(), sheet.cols())
}

/// The same of the cells of several areas.
pub fn areas_denial(book: &Book, user: &str, areas: &[Area]) -> Option<u32>
    ensures { IsDenial user.now book.now (CellsOfAll book.now.sheets areas.now) result }
{
    let mut least = None;
    for area in areas {
        least = lesser(least, area_denial(book, user, area));
    }
    least
}

/// The lesser of two ids, of which none may be there.
fn lesser(one: Option<u32>, other: Option<u32>) -> Option<u32>
    ensures { result ≡ lesser one other }
{
    match one {
        Some(id) => match other {
            Some(next) => Some(id.min(next)),
            None => Some(id),
        },
        None => other,
    }
}

/// The least id of a protected range that denies the user a cell that a write of the values to the area would write
/// or empty; None where none does.
///
/// # Errors
///
/// [`NoMemory`] where memory runs out.
pub fn write_denial(
    alloc: Global,
    book: &Book,
    user: &str,
    area: &Area,
    one_cell: bool,
    block: &Block,
) -> Result<Option<u32>, NoMemory>
    requires { IsThere book.now.sheets area.now }
    ensures { IfOk result (IsDenial user.now book.now (WriteCells book.now.sheets one_cell area.now block.now)) }
{
    book.stays_sound();
    let (end_row, end_col) = ends(book, area, one_cell);
    let given = Given {
        alloc,
        area,
        block,
        end_row,
        end_col,
    };
    if area_denial(book, user, &given.reached()).is_none() {
        return Ok(None);
    }
    let cells = uncovered_cells(&given, book)?;
    let owner = book.owner().as_str();
    Ok(
        book.protections()
            .first_denial_listed(user, owner, area.sheet, cells.as_slice()),
    )
}

/// The least id of a protected range that denies the user a cell of the area to which the values would be written, or
/// which they don't reach and which would be emptied; None where none does. Where no cell of the area is denied it
/// isn't looked at the values.
///
/// # Errors
///
/// [`NoMemory`] where memory runs out.
pub fn fill_denial(
    alloc: Global,
    book: &Book,
    user: &str,
    area: &Area,
    block: &Block,
) -> Result<Option<u32>, NoMemory>
    requires { IsThere book.now.sheets area.now }
    ensures { IfOk result (IsDenial user.now book.now (FilledCells book.now.sheets area.now block.now)) }
{
    if area_denial(book, user, area).is_none() {
        return Ok(None);
    }
    let written = write_denial(alloc, book, user, area, false, block)?;
    let rest = rest_denial(alloc, book, user, area, block)?;
    Ok(lesser(written, rest))
}

/// The same of the cells of the area that the values don't reach alone.
fn rest_denial(
    alloc: Global,
    book: &Book,
    user: &str,
    area: &Area,
    block: &Block,
) -> Result<Option<u32>, NoMemory>
    requires { IsThere book.now.sheets area.now }
    ensures { IfOk result (IsDenial user.now book.now (RestCells book.now.sheets area.now block.now)) }
{
    match book.sheet(area.sheet) {
        Some(sheet) => {
            let areas = rest_of(alloc, sheet, area, block)?;
            Ok(areas_denial(book, user, &areas))
        }
        None => Ok(None),
    }
}
