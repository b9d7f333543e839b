ghost use Rattle.std.specs.Prelude.{◌≡◌, ◌+◌, Some, ◌<◌, ◌≤◌, IfOk, IfSome, OnOk, length, get_or, max, if◌then◌else◌, ◌==◌};
ghost use Rattle.ref_rewrite.specs.declared.cell_content.Content.TheVariants as content;
ghost use Rattle.formula_reader.specs.Printed.{ArePrintable};
ghost use Rattle.cell_calc.specs.Calculated.{IsTableOf};
ghost use Rattle.cell_calc.specs.Marks.{values_of};
ghost use Rattle.world_model.specs.Sound.{IsContentWithin, IsSound, place_sheet_with};
ghost use Rattle.values_api.specs.Ranges.{IsThere};
ghost use Rattle.values_api.specs.Sheets.{formula_sheets, stored_in};
ghost use Rattle.values_api.specs.Shown.{IsAreaShown, TellsShown, number_shown, truth_shown, value_shown, value_by, cell_shown, line_shown, lines_shown, height, width, cell_of};
ghost use Rattle.values_api.specs.Reading.{IsReadOfSheet, AreEnds, cell_read, lines_read, length_read, value_told};

use crate::cut::cut_empty_end;
use crate::sheets::BookCells;
use cell_calc::{Table, calculate_more, stored_values};
use cell_value::{Cell, Duplicate, Items, NoMemory, Render, Text, Value, show};
use dimension_ops::{Book, Sheet};
use formula_reader::print_formula;
use grid_range::Area;
use ref_rewrite::{Content, Formula};
use std::alloc::Global;

/// What a read shows (Sheets API v4 reference, ValueRange).
#[derive(Debug, Drop)]
pub struct Shown {
    /// The area that was read.
    pub area: Area,
    /// Whether the inner lists are columns rather than rows.
    pub columns_first: bool,
    /// What the cells show, line by line; empty cells at the end of a line, and empty lines at the end,
    /// are left out.
    pub values: Items<Items<Cell>>,
}

/// Comes to know the values that a read of the area shows, for [`read_values`]: none where formulas are shown by their
/// texts. What the table knows isn't calculated again.
///
/// # Errors
///
/// [`NoMemory`] where memory runs out; the table is to be given up then.
pub fn calculate_shown(
    alloc: Global,
    book: &Book,
    table: &mut Table,
    area: &Area,
    render: Render,
) -> Result<(), NoMemory>
    requires { IsTableOf (stored_in book.now) table.old }
    ensures table { OnOk result (IsTableOf (stored_in book.now) table.new) }
    ensures told { OnOk result (TellsShown render book.now area.now (values_of table.new)) }
{
    match render {
        Render::Formula => Ok(()),
        Render::Formatted | Render::Unformatted => {
            calculate_more(alloc, &BookCells::of(book), table, area)
        }
    }
}

/// What the cells of an area show, by rows or by columns (Sheets API v4 reference, spreadsheets.values.get); the table
/// tells the values of its formulas, unless these are shown by their texts.
///
/// # Errors
///
/// [`NoMemory`] where memory runs out.
pub fn read_values(
    alloc: Global,
    book: &Book,
    table: &Table,
    area: &Area,
    columns_first: bool,
    render: Render,
) -> Result<Shown, NoMemory>
    requires there { IsThere book.now.sheets area.now }
    requires told { TellsShown render book.now area.now (values_of table.now) }
    ensures area { IfOk result (λ shown. shown.area ≡ area.now) }
    ensures order { IfOk result (λ shown. shown.columns_first ≡ columns_first) }
    ensures values { IfOk result (λ shown. IfSome (place_sheet_with area.now.sheet book.now.sheets)
        (λ sheet. IsAreaShown book.now area.now columns_first render sheet shown.values)) }
{
    stored_values();
    book.stays_sound();
    let mut values = Items::of(Vec::new(alloc));
    if let Some(sheet) = book.sheet(area.sheet) {
        let reading = Reading {
            alloc,
            names: BookCells::of(book),
            sheet,
            table,
            area,
            columns_first,
            render,
        };
        values = reading.lines()?;
    }
    Ok(Shown {
        area: *area,
        columns_first,
        values,
    })
}

/// A read of an area of a sheet.
#[derive(Drop)]
struct Reading<'a> {
    alloc: Global,
    names: BookCells<'a>,
    sheet: &'a Sheet,
    table: &'a Table,
    area: &'a Area,
    columns_first: bool,
    render: Render,
}

impl<'a> Reading<'a> {
    /// The area line by line. Of the cells behind the last stored one of each line none is looked at.
    fn lines(&self) -> Result<Items<Items<Cell>>, NoMemory>
        requires { IsReadOfSheet self.now }
        ensures { IfOk result
            (λ lines. lines ≡ lines_shown (cell_read self.now) (lines_read self.now) (length_read self.now)) }
    {
        let ends = self.ends()?;
        let mut lines = Vec::new(self.alloc);
        for line in 0..ends.len() {
            lines.push(self.line(line as u32, ends[line])?)?;
        }
        cut_empty_end(&mut lines);
        Ok(Items::of(lines))
    }

    /// So many cells of a line, without the empty ones at the end.
    fn line(&self, line: u32, end: u32) -> Result<Items<Cell>, NoMemory>
        requires reading { IsReadOfSheet self.now }
        requires there { line < lines_read self.now }
        requires long { end ≤ length_read self.now }
        ensures { IfOk result (λ cells. cells ≡ line_shown (cell_read self.now line) end) }
    {
        let mut cells = Vec::new(self.alloc);
        for place in 0..end {
            cells.push(self.cell(line, place)?)?;
        }
        cut_empty_end(&mut cells);
        Ok(Items::of(cells))
    }

    /// For each line up to the last that has a stored cell the place behind the last such.
    fn ends(&self) -> Result<Vec<u32>, NoMemory>
        requires { IsReadOfSheet self.now }
        ensures { IfOk result (λ ends. AreEnds self.now ends.items) }
    {
        let places = self.sheet.places(self.area)?;
        let mut ends = Vec::new(self.alloc);
        for place in places.as_slice() {
            let row = place.0 - self.area.rows.first_line();
            let col = place.1 - self.area.cols.first_line();
            if self.columns_first {
                reach(&mut ends, col, row)?;
            } else {
                reach(&mut ends, row, col)?;
            }
        }
        Ok(ends)
    }

    /// What the cell at the place of a line shows.
    fn cell(&self, line: u32, place: u32) -> Result<Cell, NoMemory>
        requires reading { IsReadOfSheet self.now }
        requires line { line < lines_read self.now }
        requires place { place < length_read self.now }
        ensures { IfOk result (λ cell. cell ≡ cell_read self.now line place) }
    {
        if self.columns_first {
            self.cell_of(place, line)
        } else {
            self.cell_of(line, place)
        }
    }

    /// What the cell shows that is so many rows below the first one of the area, and so many columns
    /// behind it.
    fn cell_of(&self, row: u32, col: u32) -> Result<Cell, NoMemory>
        requires reading { IsReadOfSheet self.now }
        requires row { row < height self.now.area.now self.now.sheet.now }
        requires col { col < width self.now.area.now self.now.sheet.now }
        ensures { IfOk result (λ cell. cell
            ≡ cell_of (formula_sheets self.now.names.book.now.sheets) self.now.render self.now.area.now
            self.now.sheet.now
            (value_told self.now.area.now self.now.sheet.now (values_of self.now.table.now)) row col) }
    {
        let top = self.area.rows.first_line();
        let left = self.area.cols.first_line();
        let (row, col) = (top + row, left + col);
        match self.sheet.content(row, col) {
            Some(content) => {
                let value = self.table.value(self.area.sheet, row, col);
                content_shown(self.alloc, &self.names, self.render, content, value)
            }
            None => Ok(Cell::Text(Text::of(String::new(self.alloc)))),
        }
    }
}

/// Lets a line end behind the place at least; lines up to it have an end then.
fn reach(ends: &mut Vec<u32>, line: u32, place: u32) -> Result<(), NoMemory>
    requires { place < 4294967295 }
    ensures ends { OnOk result ((other : Rattle.std.specs.Prelude.ℕ) → get_or ends.new.items other 0
        ≡ (if other == line then max (get_or ends.old.items other 0) (place + 1) else get_or ends.old.items other 0)) }
    ensures lines { OnOk result (length ends.new.items ≡ max (length ends.old.items) (line + 1)) }
{
    let line = line as usize;
    for _ in ends.len()..line + 1 {
        ends.push(0)?;
    }
    ends[line] = ends[line].max(place + 1);
    Ok(())
}

/// What a cell shows, by what is stored in it; a formula that has this value.
fn content_shown(
    alloc: Global,
    names: &BookCells<'_>,
    render: Render,
    content: &Content,
    value: &Value,
) -> Result<Cell, NoMemory>
    requires sound { IsSound names.now.book.now }
    requires within { IsContentWithin names.now.book.now.sheets content.now }
    ensures { IfOk result
        (λ cell. cell ≡ cell_shown (formula_sheets names.now.book.now.sheets) render (Some content.now)
        (value_by (Some content.now) value.now)) }
{
    match content {
        Content::Number(number) => number_shown(alloc, render, *number),
        Content::Text(text) => Ok(Cell::Text(text.duplicate()?)),
        Content::Truth(truth) => truth_shown(alloc, render, *truth),
        Content::Formula(formula) => formula_shown(alloc, names, render, formula, value),
    }
}

/// What a formula shows that has this value.
fn formula_shown(
    alloc: Global,
    names: &BookCells<'_>,
    render: Render,
    formula: &Formula,
    value: &Value,
) -> Result<Cell, NoMemory>
    requires { ArePrintable (formula_sheets names.now.book.now.sheets) formula.now.pieces }
    ensures { IfOk result (λ cell. cell
        ≡ cell_shown (formula_sheets names.now.book.now.sheets) render (Some (content.Formula formula.now)) value.now) }
{
    match render {
        Render::Formatted => Ok(Cell::Text(show(alloc, value)?)),
        Render::Unformatted => value_shown(alloc, value),
        Render::Formula => Ok(Cell::Text(print_formula(alloc, formula, names)?)),
    }
}

/// A value as it is listed.
fn value_shown(alloc: Global, value: &Value) -> Result<Cell, NoMemory>
    ensures { IfOk result (λ cell. cell ≡ value_shown value.now) }
{
    match value {
        Value::Number(number) => Ok(Cell::Number(*number)),
        Value::Truth(truth) => Ok(Cell::Truth(*truth)),
        Value::Text(text) => Ok(Cell::Text(text.duplicate()?)),
        Value::Blank | Value::Error(_) => Ok(Cell::Text(show(alloc, value)?)),
    }
}

/// What a number shows.
fn number_shown(alloc: Global, render: Render, number: i64) -> Result<Cell, NoMemory>
    ensures { IfOk result (λ cell. cell ≡ number_shown render number) }
{
    match render {
        Render::Formatted => Ok(Cell::Text(show(alloc, &Value::Number(number))?)),
        Render::Unformatted | Render::Formula => Ok(Cell::Number(number)),
    }
}

/// What a truth value shows.
fn truth_shown(alloc: Global, render: Render, truth: bool) -> Result<Cell, NoMemory>
    ensures { IfOk result (λ cell. cell ≡ truth_shown render truth) }
{
    match render {
        Render::Formatted => Ok(Cell::Text(show(alloc, &Value::Truth(truth))?)),
        Render::Unformatted | Render::Formula => Ok(Cell::Truth(truth)),
    }
}
