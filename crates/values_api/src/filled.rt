ghost use Rattle.std.specs.Prelude.{ℕ, ◌<◌, ◌≤◌, IfNone, IfOk, IfSome};
ghost use Rattle.cell_store.specs.Table.{HasItemsInside};
ghost use Rattle.values_api.specs.Rows.{IsLastRow, IsRowBehind};
ghost use Rattle.values_api.specs.Tables.{IsStored};

use cell_value::NoMemory;
use dimension_ops::Sheet;
use grid_range::{Area, Band};

/// The row behind the last one of the sheet that holds a cell, counted from 0; the first row where nothing is
/// stored. Rows are looked at from the last one on, one by one, and all that are left at once where they
/// hold few cells beside those that were passed.
///
/// # Errors
///
/// [`NoMemory`] where memory runs out.
pub fn row_behind(sheet: &Sheet) -> Result<u32, NoMemory>
    requires { HasItemsInside sheet.now.table }
    ensures { IfOk result (IsRowBehind sheet.now.table) }
{
    let rows = sheet.rows();
    let mut row = rows;
    while row > 0 {
        let first = start(sheet.filled(), rows, row);
        if let Some(last) = last_row(sheet, first, row)? {
            return Ok(last + 1);
        }
        row = first;
    }
    Ok(row)
}

/// The first of the rows before `row` that are listed next: all of them where the sheet has at most 16 times
/// as many cells as rows were passed, or else the last of them.
fn start(filled: u64, rows: u32, row: u32) -> u32
    requires some { 0 < row }
    requires there { row ≤ rows }
    ensures { result < row }
{
    if filled <= 16 * u64::from(rows - row) {
        0
    } else {
        row - 1
    }
}

/// The last of the rows from `first` to `end - 1` that holds a cell.
fn last_row(sheet: &Sheet, first: u32, end: u32) -> Result<Option<u32>, NoMemory>
    requires { first < end }
    ensures held { IfOk result (λ last. IfSome last (IsLastRow sheet.now.table end)) }
    ensures none { IfOk result (λ last. IfNone last
        ((r c : ℕ) → IsStored sheet.now.table r c → r < end → r < first)) }
{
    let area = Area {
        sheet: sheet.id(),
        rows: Band::Span(first, end),
        cols: Band::Whole,
    };
    let held = sheet.places(&area)?;
    match held.as_slice().last() {
        Some(place) => Ok(Some(place.0)),
        None => Ok(None),
    }
}
