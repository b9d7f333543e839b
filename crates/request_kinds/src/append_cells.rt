ghost use Rattle.std.specs.Prelude.{◌≡◌, ◌<◌, ◌≤◌, IsSomeAnd};
ghost use Rattle.std.specs.Option.{IsSome};
ghost use Rattle.world_model.specs.Sound.{place_sheet_with};
ghost use Rattle.dimension_ops.specs.Rules.{IsUnlessNoMemory};
ghost use Rattle.values_api.specs.Blocks.{rows_needed};
ghost use Rattle.request_kinds.specs.AppendCells.{AreRowsAdded, AreWrittenFrom, IsAppendCells, from_row, rows_missing};
ghost use Rattle.request_kinds.specs.Telling.{IsDoneTo};

use cell_value::Block;
use dimension_ops::{Book, Limit, Rule, RuleOr, append_lines};
use grid_range::{Area, Axis, Band};
use sheets_json::Reply;
use std::alloc::Global;
use values_api::{put_values, row_behind, rows_needed, write_denial};
use world_model::{MOST_ROWS, changes_in_turn, updates_are_changes};

/// Writes rows behind the last row of the sheet that holds a cell, once those that are missing there are added.
pub(crate) fn append_cells(
    alloc: Global,
    book: &mut Book,
    user: &str,
    sheet: u32,
    rows: &Block,
) -> Result<Reply, RuleOr>
    ensures { IsUnlessNoMemory (IsDoneTo (IsAppendCells user.now sheet rows.now book.old) book.old book.new) result }
{
    changes_in_turn();
    book.stays_sound();
    let Some(found) = book.sheet(sheet) else {
        return Err(RuleOr::Rule(Rule::NoSheet));
    };
    if rows_needed(rows) == 0 {
        return Ok(Reply::Empty);
    }
    let row = row_behind(found)?;
    write_from(alloc, book, user, sheet, row, rows)
}

/// Writes rows from the row of the sheet on, once those that are missing there are added.
fn write_from(
    alloc: Global,
    book: &mut Book,
    user: &str,
    sheet: u32,
    row: u32,
    rows: &Block,
) -> Result<Reply, RuleOr>
    requires there { IsSomeAnd (place_sheet_with sheet book.old.sheets) (λ found. row ≤ found.table.rows) }
    requires some { 0 < rows_needed rows.now }
    ensures { IsSomeAnd (place_sheet_with sheet book.old.sheets) (λ found. IsUnlessNoMemory
        (IsDoneTo (AreWrittenFrom user.now sheet row rows.now book.old found) book.old book.new) result) }
{
    changes_in_turn();
    updates_are_changes();
    book.stays_sound();
    let missing = rows_missing(book, sheet, row, rows);
    add_rows(book, sheet, missing)?;
    let area = from_row(sheet, row);
    let denied = write_denial(alloc, book, user, &area, true, rows)?;
    put_values(alloc, book, &area, true, rows)?;
    match denied {
        None => Ok(Reply::Empty),
        Some(id) => Err(RuleOr::Rule(Rule::Protected(id))),
    }
}

/// How many of the rows, from the row of the sheet on, are behind its last one.
fn rows_missing(book: &Book, sheet: u32, row: u32, rows: &Block) -> usize
    requires { IsSomeAnd (place_sheet_with sheet book.now.sheets) (λ found. row ≤ found.table.rows) }
    ensures { IsSomeAnd (place_sheet_with sheet book.now.sheets) (λ found. result ≡ rows_missing row rows.now found) }
{
    match book.sheet(sheet) {
        Some(found) => rows_needed(rows).saturating_sub((found.rows() - row) as usize),
        None => 0,
    }
}

/// Adds so many rows behind the last one of the sheet, which may be none.
fn add_rows(book: &mut Book, sheet: u32, count: usize) -> Result<(), RuleOr>
    requires { IsSome (place_sheet_with sheet book.old.sheets) }
    ensures { IsSomeAnd (place_sheet_with sheet book.old.sheets)
        (λ found. IsUnlessNoMemory (AreRowsAdded sheet count found book.old book.new) result) }
{
    changes_in_turn();
    if count == 0 {
        return Ok(());
    }
    if count > MOST_ROWS as usize {
        return Err(RuleOr::Rule(Rule::PastLimit(Limit::Rows)));
    }
    match append_lines(book, sheet, Axis::Rows, count as u32) {
        Ok(()) => Ok(()),
        Err(fault) => Err(fault),
    }
}

/// The sheet from the first column of the row on.
fn from_row(sheet: u32, row: u32) -> Area
    ensures { result ≡ from_row sheet row }
{
    Area {
        sheet,
        rows: Band::From(row),
        cols: Band::From(0),
    }
}
