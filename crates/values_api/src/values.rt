ghost use Rattle.std.specs.Prelude.{◌≡◌, ◌<◌, IfOk, OnOk};
ghost use Rattle.std.specs.Option.{option_copied};
ghost use Rattle.cell_calc.specs.Calculated.{IsTableOf, IsValueIn};
ghost use Rattle.cell_calc.specs.Contents.{IsStoredFormula};
ghost use Rattle.values_api.specs.Sheets.{stored_in};
ghost use Rattle.values_api.specs.Values.{plain_value, value_alone};

use crate::sheets::BookCells;
use cell_calc::{Table, calculate_more, stored_values};
use cell_value::{Duplicate, NoMemory, Value};
use dimension_ops::Book;
use grid_range::{Area, Band};
use ref_rewrite::Content;
use std::alloc::Global;

/// The value of a cell (Sheets API v4 reference, CellData, `effectiveValue`): what is stored there, and of a formula
/// what is calculated; Blank where nothing is stored, and where the sheet isn't there. What the table knows isn't
/// calculated again. Lines are counted from 0.
///
/// # Errors
///
/// [`NoMemory`] where memory runs out; the table is to be given up then.
pub fn value_in(
    alloc: Global,
    book: &Book,
    table: &mut Table,
    sheet: u32,
    row: u32,
    column: u32,
) -> Result<Value, NoMemory>
    requires row { row < 4294967295 }
    requires column { column < 4294967295 }
    requires table { IsTableOf (stored_in book.now) table.old }
    ensures value { IfOk result (IsValueIn (stored_in book.now)
        (record { sheet = sheet; row = row; column = column })) }
    ensures table { OnOk result (IsTableOf (stored_in book.now) table.new) }
{
    stored_values();
    match value_alone(book.content(sheet, row, column))? {
        Some(value) => Ok(value),
        None => formula_value(alloc, book, table, sheet, row, column),
    }
}

/// The value of what is stored, or of nothing; None of a formula.
fn value_alone(found: Option<&Content>) -> Result<Option<Value>, NoMemory>
    ensures { IfOk result (λ value. value ≡ value_alone (option_copied found.entry)) }
{
    match found {
        Some(content) => stored_value(content),
        None => Ok(Some(Value::Blank)),
    }
}

/// The value of what is stored; None of a formula.
fn stored_value(content: &Content) -> Result<Option<Value>, NoMemory>
    ensures { IfOk result (λ value. value ≡ plain_value content.now) }
{
    match content {
        Content::Number(number) => Ok(Some(Value::Number(*number))),
        Content::Text(text) => Ok(Some(Value::Text(text.duplicate()?))),
        Content::Truth(truth) => Ok(Some(Value::Truth(*truth))),
        Content::Formula(_) => Ok(None),
    }
}

/// The value of a cell in which a formula is stored.
fn formula_value(
    alloc: Global,
    book: &Book,
    table: &mut Table,
    sheet: u32,
    row: u32,
    column: u32,
) -> Result<Value, NoMemory>
    requires row { row < 4294967295 }
    requires column { column < 4294967295 }
    requires table { IsTableOf (stored_in book.now) table.old }
    requires formula { IsStoredFormula
        ((stored_in book.now).content (record { sheet = sheet; row = row; column = column })) }
    ensures value { IfOk result (IsValueIn (stored_in book.now)
        (record { sheet = sheet; row = row; column = column })) }
    ensures table { OnOk result (IsTableOf (stored_in book.now) table.new) }
{
    let cell = Area {
        sheet,
        rows: Band::Span(row, row + 1),
        cols: Band::Span(column, column + 1),
    };
    calculate_more(alloc, &BookCells::of(book), table, &cell)?;
    table.value(sheet, row, column).duplicate()
}
