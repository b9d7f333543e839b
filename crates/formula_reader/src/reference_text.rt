ghost use Rattle.std.specs.Prelude.{◌≡◌, ◌<◌, ◌+◌, IfOk, string_bytes};
ghost use Rattle.std.specs.Fmt.{decimal};
ghost use Rattle.a1_notation.specs.Column.{column_letters};
ghost use Rattle.formula_reader.specs.Corner.{dollar, marked_text};
ghost use Rattle.formula_reader.specs.ReferenceText.{first_row, last_row, first_column, last_column, reference_text, HasForm, AreRowLines, AreColumnLines};

use a1_notation::{NAMED_COLUMNS, NUMBERED_ROWS, column_text};
use cell_value::NoMemory;
use grid_range::Band;
use ref_rewrite::Marks;
use std::alloc::Global;

/// The text of a reference: its first corner and its last with `:` between them, or its only cell, and
/// a `$` before each coordinate that is marked.
pub(crate) fn reference_text(
    alloc: Global,
    rows: Band,
    cols: Band,
    marks: Marks,
) -> Result<String, NoMemory>
    requires { HasForm rows cols }
    ensures { IfOk result (λ text. string_bytes text ≡ reference_text rows cols marks) }
{
    let column = first_column(alloc, cols, marks.col1)?;
    let row = first_row(alloc, rows, marks.row1)?;
    if rows.has_one_line() && cols.has_one_line() {
        return Ok(format!(in alloc; "{column}{row}")?);
    }
    let last_column = last_column(alloc, cols, marks.col2)?;
    let last_row = last_row(alloc, rows, marks.row2)?;
    Ok(format!(in alloc; "{column}{row}:{last_column}{last_row}")?)
}

/// The first corner's row, where it is written.
fn first_row(alloc: Global, rows: Band, mark: bool) -> Result<String, NoMemory>
    requires { AreRowLines rows }
    ensures { IfOk result (λ text. string_bytes text ≡ first_row rows mark) }
{
    match rows {
        Band::Whole => Ok(String::new(alloc)),
        Band::From(start) => row_name(alloc, start, mark),
        Band::Span(start, _) => row_name(alloc, start, mark),
    }
}

/// The last corner's row, where it is written.
fn last_row(alloc: Global, rows: Band, mark: bool) -> Result<String, NoMemory>
    requires { AreRowLines rows }
    ensures { IfOk result (λ text. string_bytes text ≡ last_row rows mark) }
{
    match rows {
        Band::Whole | Band::From(_) => Ok(String::new(alloc)),
        Band::Span(_, end) => row_name(alloc, end - 1, mark),
    }
}

/// The first corner's column, where it is written.
fn first_column(alloc: Global, cols: Band, mark: bool) -> Result<String, NoMemory>
    requires { AreColumnLines cols }
    ensures { IfOk result (λ text. string_bytes text ≡ first_column cols mark) }
{
    match cols {
        Band::Whole => Ok(String::new(alloc)),
        Band::From(start) => column_name(alloc, start, mark),
        Band::Span(start, _) => column_name(alloc, start, mark),
    }
}

/// The last corner's column, where it is written.
fn last_column(alloc: Global, cols: Band, mark: bool) -> Result<String, NoMemory>
    requires { AreColumnLines cols }
    ensures { IfOk result (λ text. string_bytes text ≡ last_column cols mark) }
{
    match cols {
        Band::Whole | Band::From(_) => Ok(String::new(alloc)),
        Band::Span(_, end) => column_name(alloc, end - 1, mark),
    }
}

/// A row's number, counted from 1, with a `$` before it if it is marked.
fn row_name(alloc: Global, row: u32, mark: bool) -> Result<String, NoMemory>
    requires { row < NUMBERED_ROWS }
    ensures { IfOk result (λ text. string_bytes text ≡ marked_text mark (decimal (row + 1))) }
{
    let dollar = dollar(mark);
    Ok(format!(in alloc; "{dollar}{}", row + 1)?)
}

/// A column's letters, with a `$` before them if it is marked.
fn column_name(alloc: Global, column: u32, mark: bool) -> Result<String, NoMemory>
    requires { column < NAMED_COLUMNS }
    ensures { IfOk result (λ text. string_bytes text ≡ marked_text mark (column_letters column)) }
{
    let dollar = dollar(mark);
    let letters = column_text(alloc, column)?;
    Ok(format!(in alloc; "{dollar}{}", letters.as_str())?)
}

/// What stands before a coordinate.
fn dollar(mark: bool) -> &'static str
    ensures { result.now ≡ dollar mark }
{
    if mark { "$" } else { "" }
}
