//! The values of formulas that read one another: cycles, cells that lead to one, and long chains.

use crate::common::{check, opening};
use cell_calc::{Table, calculate, calculate_for};
use cell_value::{
    Block, Duplicate, Input, Items, Kind, NoMemory, SheetProperties, Text, Value, show,
};
use dimension_ops::{Book, RuleOr, World};
use grid_range::{Area, Band};
use std::alloc::Global;
use values_api::{BookCells, resolve, write_values};

/// Formulas in the cells from A1 on, and what each of them shows.
type Column = &'static [(&'static str, &'static str)];

static COLUMNS: [Column; 22] = [
    // A cycle of one cell, and of two.
    &[("=A1", "#REF!")],
    &[("=SUM(A:A)", "#REF!"), ("=1", "1")],
    &[("=A2", "#REF!"), ("=A1", "#REF!")],
    &[
        ("=A2+1", "#DIV/0!"),
        ("=1/0", "#DIV/0!"),
        ("=A1&A3", "#REF!"),
    ],
    // Cells that lead to one.
    &[
        ("=A2+1", "#REF!"),
        ("=A3", "#REF!"),
        ("=A2", "#REF!"),
        ("=A1", "#REF!"),
    ],
    // No function hides one.
    &[
        ("=A1", "#REF!"),
        ("=IFERROR(A1,0)", "#REF!"),
        ("=ISERROR(A1)", "#REF!"),
        ("=COUNTA(A1:A3)", "#REF!"),
    ],
    &[("=IFERROR(A2,0)", "#REF!"), ("=IFERROR(A1,0)", "#REF!")],
    // It may lead through what isn't taken, or isn't looked at.
    &[("=IF(TRUE,1,A1)", "#REF!")],
    &[("=IF(FALSE,A2,1)", "#REF!"), ("=IFERROR(1,A1)", "#REF!")],
    &[("=ROWS(A1)", "#REF!")],
    &[("=NOPE(A1)", "#REF!")],
    &[("=ABS(1,A1)", "#REF!")],
    &[("=IF(TRUE,1,A2)", "#REF!"), ("=A2", "#REF!")],
    // What a cycle reads isn't on it.
    &[("=A1+A2", "#REF!"), ("=A3", "7"), ("=7", "7")],
    // Several ways to a cell are no cycle.
    &[("=A2+A2*A2", "12"), ("=3", "3")],
    &[("=A2+A3", "14"), ("=A4", "7"), ("=A4", "7"), ("=7", "7")],
    &[
        ("=SUM(A2:A4)", "6"),
        ("=SUM(A3:A4)", "3"),
        ("=A4+1", "2"),
        ("=1", "1"),
    ],
    // Errors of other causes are none.
    &[("=IFERROR(A2,5)", "5"), ("=1/0", "#DIV/0!")],
    &[("=#REF!", "#REF!"), ("=IFERROR(A1,5)", "5")],
    &[("=IFERROR(A2,5)", "5"), ("=A2000", "#REF!")],
    // A formula without a tree reads nothing.
    &[("=A2", "#ERROR!"), ("=A1+", "#ERROR!")],
    &[("=IFERROR(A2,5)", "5"), ("=SUM (A1)", "#ERROR!")],
];

#[test]
fn walks_without_an_end_are_no_values(rt: HostRuntime) {
    for column in &COLUMNS {
        check(&rt, column, is_calculated(rt.alloc(), *column));
    }
}

/// Whether the formulas show that, where all of them are asked for, and where each is, the last one first.
fn is_calculated(alloc: Global, column: Column) -> bool {
    match opening(alloc) {
        Some(mut book) => is_calculated_in(alloc, &mut book, column),
        None => false,
    }
}

/// The same in an empty sheet, to which they are written.
fn is_calculated_in(alloc: Global, book: &mut Book, column: Column) -> bool {
    is_written(alloc, book, column)
        && is_shown(alloc, whole(alloc, book), column)
        && is_shown(alloc, backwards(alloc, book, length(column)), column)
}

/// Writes the formulas from A1 down. False where a rule is broken, or memory runs out.
fn is_written(alloc: Global, book: &mut Book, column: Column) -> bool {
    match inputs(alloc, column) {
        Ok(inputs) => write_down(alloc, book, "A1", inputs).is_ok(),
        Err(_) => false,
    }
}

fn inputs(alloc: Global, column: Column) -> Result<Vec<Input>, NoMemory> {
    let mut inputs = Vec::new(alloc);
    for cell in column {
        inputs.push(formula(alloc, cell.0)?)?;
    }
    Ok(inputs)
}

fn formula(alloc: Global, text: &str) -> Result<Input, NoMemory> {
    Ok(Input::FormulaText(Text::of(String::from_str(alloc, text)?)))
}

/// Writes from a cell down.
fn write_down(
    alloc: Global,
    book: &mut Book,
    cell: &str,
    inputs: Vec<Input>,
) -> Result<(), RuleOr> {
    let block = block_of(alloc, inputs)?;
    let (start, one_cell) = resolve(alloc, book, cell)?;
    write_values(alloc, book, "owner", &start, one_cell, &block)?;
    Ok(())
}

fn block_of(alloc: Global, inputs: Vec<Input>) -> Result<Block, NoMemory> {
    let mut columns = Vec::new(alloc);
    columns.push(Items::of(inputs))?;
    Ok(Block {
        columns_first: true,
        values: Items::of(columns),
    })
}

/// The values of all formulas.
fn whole(alloc: Global, book: &Book) -> Result<Table, NoMemory> {
    calculate(alloc, &BookCells::of(book))
}

/// How many formulas there are.
fn length(column: Column) -> u32 {
    u32::try_from(column.len()).unwrap_or(u32::MAX)
}

/// The values of so many formulas from A1 down, of which the last is asked for first.
fn backwards(alloc: Global, book: &Book, count: u32) -> Result<Table, NoMemory> {
    let mut areas = Vec::new(alloc);
    for later in 0..count {
        areas.push(cell_in(count - 1 - later))?;
    }
    calculate_for(alloc, &BookCells::of(book), areas.as_slice())
}

/// The cell of the first column in a row, which is counted from 0.
fn cell_in(row: u32) -> Area {
    Area {
        sheet: 0,
        rows: Band::Span(row, row.saturating_add(1)),
        cols: Band::Span(0, 1),
    }
}

/// Whether the formulas from A1 down show that.
fn is_shown(alloc: Global, table: Result<Table, NoMemory>, column: Column) -> bool {
    match table {
        Ok(table) => are_shown(alloc, &table, column),
        Err(_) => false,
    }
}

fn are_shown(alloc: Global, table: &Table, column: Column) -> bool {
    let mut row = 0u32;
    for cell in column {
        if !shows(alloc, table.value(0, row, 0), cell.1) {
            return false;
        }
        row = row.saturating_add(1);
    }
    true
}

fn shows(alloc: Global, value: &Value, wanted: &str) -> bool {
    match show(alloc, value) {
        Ok(shown) => shown.as_str() == wanted,
        Err(_) => false,
    }
}

/// Cells of two sheets, their formulas, and what these show.
static ACROSS: [(&str, &str, &str); 6] = [
    ("Sheet1!A1", "=Sheet2!A1+1", "5"),
    ("Sheet2!A1", "=Sheet1!A2", "4"),
    ("Sheet1!A2", "=4", "4"),
    // A cycle over both sheets, and a cell that leads to it.
    ("Sheet1!B1", "=Sheet2!B1", "#REF!"),
    ("Sheet2!B1", "=Sheet1!B1", "#REF!"),
    ("Sheet2!B2", "=IFERROR(Sheet1!B1,0)", "#REF!"),
];

#[test]
fn walks_go_from_sheet_to_sheet(rt: HostRuntime) {
    check(&rt, &ACROSS, is_calculated_across(rt.alloc()));
}

/// Whether the formulas of both sheets show that.
fn is_calculated_across(alloc: Global) -> bool {
    made(alloc, 2, 2).is_ok_and(|mut book| is_calculated_over(alloc, &mut book))
}

/// The same in a spreadsheet of two empty sheets, to which they are written.
fn is_calculated_over(alloc: Global, book: &mut Book) -> bool {
    write_across(alloc, book).is_ok() && is_shown_across(alloc, book, whole(alloc, book))
}

/// Writes these formulas.
fn write_across(alloc: Global, book: &mut Book) -> Result<(), RuleOr> {
    for cell in &ACROSS {
        write_down(alloc, book, cell.0, alone(alloc, cell.1)?)?;
    }
    Ok(())
}

/// One formula.
fn alone(alloc: Global, text: &str) -> Result<Vec<Input>, NoMemory> {
    let mut inputs = Vec::new(alloc);
    inputs.push(formula(alloc, text)?)?;
    Ok(inputs)
}

fn is_shown_across(alloc: Global, book: &Book, table: Result<Table, NoMemory>) -> bool {
    match table {
        Ok(table) => are_shown_across(alloc, book, &table),
        Err(_) => false,
    }
}

fn are_shown_across(alloc: Global, book: &Book, table: &Table) -> bool {
    for cell in &ACROSS {
        if !shows_at(alloc, book, table, cell.0, cell.2) {
            return false;
        }
    }
    true
}

/// Whether the table tells of a cell what shows so.
fn shows_at(alloc: Global, book: &Book, table: &Table, cell: &str, wanted: &str) -> bool {
    match resolve(alloc, book, cell) {
        Ok((area, _)) => {
            let (row, column) = (area.rows.first_line(), area.cols.first_line());
            shows(alloc, table.value(area.sheet, row, column), wanted)
        }
        Err(_) => false,
    }
}

/// How many formulas a long column has.
const LONG: u32 = 20_000;

/// What the formulas of a long column read, each of which adds one to it.
#[derive(Clone, Copy, Debug)]
enum Reads {
    /// The one above; the first of them reads an empty cell.
    Above,
    /// The one below; the last of them reads an empty cell.
    Below,
    /// The one below; the last of them reads the first.
    Round,
    /// The one below; the last of them reads itself.
    Itself,
}

#[test]
fn long_chains_have_values_and_long_cycles_none(rt: HostRuntime) {
    for reads in [Reads::Above, Reads::Below, Reads::Round, Reads::Itself] {
        check(&rt, &reads, is_chain_calculated(rt.alloc(), reads));
    }
}

/// Whether a long column has its values, where all of them are asked for, and where each is, the last one first.
fn is_chain_calculated(alloc: Global, reads: Reads) -> bool {
    made(alloc, 1, LONG).is_ok_and(|mut book| is_chain_calculated_in(alloc, &mut book, reads))
}

/// The same in an empty sheet, to which it is written.
fn is_chain_calculated_in(alloc: Global, book: &mut Book, reads: Reads) -> bool {
    write_long(alloc, book, reads).is_ok()
        && has_values(whole(alloc, book), reads)
        && has_values(backwards(alloc, book, LONG), reads)
}

/// Writes a long column.
fn write_long(alloc: Global, book: &mut Book, reads: Reads) -> Result<(), RuleOr> {
    write_down(alloc, book, "A1", chain(alloc, reads)?)
}

/// A spreadsheet of so many sheets with as many rows each and two columns, with nothing in it.
fn made(alloc: Global, sheets: u32, rows: u32) -> Result<Book, RuleOr> {
    let mut world = World::opening(alloc)?;
    made_in(alloc, &mut world, sheets, rows)
}

/// The same, made in the world.
fn made_in(alloc: Global, world: &mut World, sheets: u32, rows: u32) -> Result<Book, RuleOr> {
    let id = world.add_book("owner", "Calculated", &asked(alloc, sheets, rows)?)?;
    match world.find(id.as_str()) {
        Some(book) => Ok(book.duplicate()?),
        None => Err(RuleOr::NoMemory),
    }
}

/// So many sheets of as many rows each and two columns, as they are asked for.
fn asked(alloc: Global, sheets: u32, rows: u32) -> Result<Items<SheetProperties>, NoMemory> {
    let mut asked = Vec::new(alloc);
    for _ in 0..sheets {
        asked.push(SheetProperties {
            id: None,
            title: None,
            index: None,
            hidden: None,
            rows: Some(rows),
            cols: Some(2),
        })?;
    }
    Ok(Items::of(asked))
}

/// The formulas of a long column.
fn chain(alloc: Global, reads: Reads) -> Result<Vec<Input>, NoMemory> {
    let mut inputs = Vec::new(alloc);
    for row in 0..LONG {
        let (column, read) = read_in(reads, row);
        inputs.push(Input::FormulaText(one_more(alloc, column, read)?))?;
    }
    Ok(inputs)
}

/// The column that the formula in a row reads, and the row; both rows are counted from 0.
fn read_in(reads: Reads, row: u32) -> (&'static str, u32) {
    match reads {
        Reads::Above if row > 0 => ("A", row - 1),
        Reads::Below | Reads::Round | Reads::Itself if row < LONG - 1 => ("A", row + 1),
        Reads::Above | Reads::Below => ("B", 0),
        Reads::Round => ("A", 0),
        Reads::Itself => ("A", row),
    }
}

/// A formula that adds one to a cell, whose row is counted from 0.
fn one_more(alloc: Global, column: &str, row: u32) -> Result<Text, NoMemory> {
    let number = row.saturating_add(1);
    Ok(Text::of(format!(in alloc; "={column}{number}+1")?))
}

/// Whether each formula of a long column has its value.
fn has_values(table: Result<Table, NoMemory>, reads: Reads) -> bool {
    match table {
        Ok(table) => are_values(&table, reads),
        Err(_) => false,
    }
}

fn are_values(table: &Table, reads: Reads) -> bool {
    for row in 0..LONG {
        if !is_value(table.value(0, row, 0), value_in(reads, row)) {
            return false;
        }
    }
    true
}

/// The number in a row of a long column, which is counted from 0; None where walks from there have no end.
fn value_in(reads: Reads, row: u32) -> Option<u32> {
    match reads {
        Reads::Above => Some(row.saturating_add(1)),
        Reads::Below => Some(LONG.saturating_sub(row)),
        Reads::Round | Reads::Itself => None,
    }
}

/// Whether the value is that number, or `#REF!` where there is none.
fn is_value(value: &Value, wanted: Option<u32>) -> bool {
    match value {
        Value::Number(number) => matches!(wanted, Some(wanted) if i64::from(wanted) == *number),
        Value::Error(Kind::Ref) => wanted.is_none(),
        _ => false,
    }
}
