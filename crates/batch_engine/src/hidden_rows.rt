//! Which rows of a sheet its basic filter hides.

ghost use Rattle.std.specs.Prelude.{◌≡◌, ◌<◌, ◌≤◌, ◌+◌, ℕ, true, false, length, get_or, IfOk, OnOk, Some, if◌then◌else◌, ◌==◌};
ghost use Rattle.std.specs.List.{All, AllZip};
ghost use Rattle.cell_calc.specs.Calculated.{IsTableOf};
ghost use Rattle.world_model.specs.Sound.{IsFilterOf, IsSheetSound};
ghost use Rattle.values_api.specs.Sheets.{stored_in};
ghost use Rattle.batch_engine.specs.HiddenRows.{AreRowsTold, IsAskedValue, IsHiddenBy, row_told};

use basic_filter::{Criterion, Filter};
use cell_calc::Table;
use cell_value::{Items, NoMemory, Value};
use dimension_ops::{Book, Sheet};
use row_filter::RowFilter;
use sheets_json::DimensionProperties;
use std::alloc::Global;
use values_api::value_in;

/// What is told of the rows of the sheet, up to the last one that its filter hides. The table may come to know the
/// values of the formulas that are asked for.
pub(crate) fn rows_told(
    alloc: Global,
    book: &Book,
    table: &mut Table,
    sheet: &Sheet,
) -> Result<Items<DimensionProperties>, NoMemory>
    requires sound { IsSheetSound book.now.sheets sheet.now }
    requires table { IsTableOf (stored_in book.now) table.old }
    ensures rows { IfOk result (AreRowsTold book.now sheet.now sheet.now.filter) }
    ensures table { OnOk result (IsTableOf (stored_in book.now) table.new) }
{
    match sheet.filter() {
        Some(filter) => rows_filtered(alloc, book, table, sheet, filter),
        None => Ok(Items::of(Vec::new(alloc))),
    }
}

/// The same for a sheet with that filter.
fn rows_filtered(
    alloc: Global,
    book: &Book,
    table: &mut Table,
    sheet: &Sheet,
    filter: &Filter,
) -> Result<Items<DimensionProperties>, NoMemory>
    requires sound { IsSheetSound book.now.sheets sheet.now }
    requires of { IsFilterOf sheet.now filter.now }
    requires table { IsTableOf (stored_in book.now) table.old }
    ensures rows { IfOk result (AreRowsTold book.now sheet.now (Some filter.now)) }
    ensures table { OnOk result (IsTableOf (stored_in book.now) table.new) }
{
    let ready = RowFilter::of(alloc, filter)?;
    let first = filter.area.rows.first_line();
    let start = first + 1;
    let end = filter.area.rows.end_line(sheet.rows());
    let mut rows = Vec::new(alloc);
    for row in start..end {
        if is_hidden(alloc, book, table, sheet.id(), row, &ready)? {
            hide(&mut rows, row)?;
        }
    }
    Ok(Items::of(rows))
}

/// Whether the criteria of the filter hide the row, by the values of its cells in their columns.
fn is_hidden(
    alloc: Global,
    book: &Book,
    table: &mut Table,
    sheet: u32,
    row: u32,
    filter: &RowFilter,
) -> Result<bool, NoMemory>
    requires row { row < 4294967295 }
    requires columns { All (λ criterion. criterion.column < 4294967295) filter.now }
    requires table { IsTableOf (stored_in book.now) table.old }
    ensures hidden { IfOk result (IsHiddenBy book.now sheet row filter.now) }
    ensures table { OnOk result (IsTableOf (stored_in book.now) table.new) }
{
    let values = asked_values(alloc, book, table, sheet, row, filter.criteria())?;
    filter.hides(alloc, &values)
}

/// The values of the row's cells in the columns of the criteria, one for each.
fn asked_values(
    alloc: Global,
    book: &Book,
    table: &mut Table,
    sheet: u32,
    row: u32,
    criteria: &[Criterion],
) -> Result<Items<Value>, NoMemory>
    requires row { row < 4294967295 }
    requires columns { All (λ criterion. criterion.column < 4294967295) criteria.now }
    requires table { IsTableOf (stored_in book.now) table.old }
    ensures values { IfOk result (AllZip (IsAskedValue book.now sheet row) criteria.now) }
    ensures table { OnOk result (IsTableOf (stored_in book.now) table.new) }
{
    let mut values = Vec::new(alloc);
    for at in 0..criteria.len() {
        values.push(value_in(alloc, book, table, sheet, row, criteria[at].column)?)?;
    }
    Ok(Items::of(values))
}

/// Tells that the row is hidden; rows before it of which nothing is told aren't.
fn hide(rows: &mut Vec<DimensionProperties>, row: u32) -> Result<(), NoMemory>
    requires { length rows.old.items ≤ row }
    ensures told { OnOk result ((other : ℕ) → get_or rows.new.items other (row_told false)
        ≡ (if other == row then row_told true else get_or rows.old.items other (row_told false))) }
    ensures count { OnOk result (length rows.new.items ≡ row + 1) }
{
    for _ in rows.len()..row as usize {
        rows.push(DimensionProperties {
            hidden_by_filter: false,
        })?;
    }
    rows.push(DimensionProperties {
        hidden_by_filter: true,
    })?;
    Ok(())
}
