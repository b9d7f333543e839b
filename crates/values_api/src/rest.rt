ghost use Rattle.std.specs.Prelude.{◌≡◌, IfOk, OnOk};
ghost use Rattle.grid_range.specs.Area.{AreaWithin};
ghost use Rattle.grid_range.specs.declared.band.Band.TheVariants.{Span};
ghost use Rattle.values_api.specs.Denials.{AreRestOf};
ghost use Rattle.values_api.specs.Ranges.{IsThere};
ghost use Rattle.values_api.specs.Rest.{area_along, is_reached, rest_cleared};
ghost use Rattle.values_api.specs.Updates.{AreUpdated};

use cell_value::{Block, Items, NoMemory};
use dimension_ops::{Book, Sheet};
use grid_range::{Area, Band};
use std::alloc::Global;
use world_model::{updates_are_writes, updates_follow};

/// Empties the cells of an area that values from its first cell on don't reach, whatever protected ranges deny.
///
/// # Errors
///
/// [`NoMemory`] where memory runs out; the spreadsheet is to be given up then.
pub fn empty_rest(book: &mut Book, area: &Area, block: &Block) -> Result<(), NoMemory>
    requires { IsThere book.old.sheets area.now }
    ensures cleared { OnOk result (AreUpdated area.now.sheet (rest_cleared area.now block.now) book.old book.new) }
    ensures there { OnOk result (IsThere book.new.sheets area.now) }
{
    updates_are_writes();
    updates_follow();
    book.stays_sound();
    let places = book.places(area)?;
    for place in places.as_slice() {
        if !is_reached(area, block, place.0, place.1) {
            book.put(area.sheet, place.0, place.1, None)?;
        }
    }
    book.stays_sound();
    Ok(())
}

/// Whether a line of the values is as long as up to that place of the area.
fn is_reached(area: &Area, block: &Block, row: u32, col: u32) -> bool
    ensures { result ≡ is_reached area.now block.now row col }
{
    let row = row.saturating_sub(area.rows.first_line()) as usize;
    let col = col.saturating_sub(area.cols.first_line()) as usize;
    let (line, place) = if block.columns_first {
        (col, row)
    } else {
        (row, col)
    };
    match block.values.as_slice().get(line) {
        Some(inputs) => place < inputs.as_slice().len(),
        None => false,
    }
}

/// The cells of the area, which is within the sheet, that values from its first cell on don't reach, as areas: of each
/// line of values the places behind it, and the lines behind all.
pub(crate) fn rest_of(
    alloc: Global,
    sheet: &Sheet,
    area: &Area,
    block: &Block,
) -> Result<Vec<Area>, NoMemory>
    requires { AreaWithin area.now sheet.now.table.rows sheet.now.table.cols }
    ensures { IfOk result (λ areas. AreRestOf sheet.now area.now block.now areas.items) }
{
    let rows = (area.rows.first_line(), area.rows.end_line(sheet.rows()));
    let cols = (area.cols.first_line(), area.cols.end_line(sheet.cols()));
    let (lines, places) = if block.columns_first {
        (cols, rows)
    } else {
        (rows, cols)
    };
    let values = block.values.as_slice();
    let mut rest = Vec::new(alloc);
    let count = values.len().min((lines.1 - lines.0) as usize);
    for line in 0..count {
        let length = values[line].as_slice().len();
        if length < (places.1 - places.0) as usize {
            let at = lines.0 + line as u32;
            let behind = (places.0 + length as u32, places.1);
            rest.push(rest_area(area.sheet, block, (at, at + 1), behind))?;
        }
    }
    let behind = (lines.0 + count as u32, lines.1);
    rest.push(rest_area(area.sheet, block, behind, places))?;
    Ok(rest)
}

/// Those lines of the sheet, rows or columns as the block lists them, and those places of them.
fn rest_area(sheet: u32, block: &Block, lines: (u32, u32), places: (u32, u32)) -> Area
    ensures { result ≡ area_along block.now.columns_first sheet (Span lines.0 lines.1) (Span places.0 places.1) }
{
    let lines = Band::Span(lines.0, lines.1);
    let places = Band::Span(places.0, places.1);
    if block.columns_first {
        Area {
            sheet,
            rows: places,
            cols: lines,
        }
    } else {
        Area {
            sheet,
            rows: lines,
            cols: places,
        }
    }
}
