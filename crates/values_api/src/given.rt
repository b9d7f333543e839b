ghost use Rattle.std.specs.Prelude.{◌≡◌, ◌+◌, ◌-◌, ◌<◌, ◌≤◌, IfOk, IfSome, IsTrue};
ghost use Rattle.std.specs.Prelude.{Contains, map, nat_le, get_or, unwrap_or};
ghost use Rattle.std.specs.Option.{IsSome, option_copied};
ghost use Rattle.world_model.specs.Sound.{IsContentWithin, place_sheet_with};
ghost use Rattle.values_api.specs.Sheets.{formula_sheets};
ghost use Rattle.cell_value.specs.declared.entered.Input.TheVariants.{Skip};
ghost use Rattle.values_api.specs.Blocks.{longest, rows_needed, cols_needed, input_at, given_value, lines_from};
ghost use Rattle.values_api.specs.Blocks.{IsEntry, area_written, AreLines};
ghost use Rattle.values_api.specs.Given.{HasRoom, IsWithinSheet, AreGiven, ArePut, entry_of, value_listed, fits_by};
ghost use Rattle.values_api.specs.Given.{first_row, first_col, turned, axis_of, corner, room};
ghost use Rattle.values_api.specs.Given.{area_reached, cell_for, line_given, line_on};
ghost use Rattle.grid_range.specs.Band.{cut_band};
ghost use Rattle.merge_ranges.specs.Merges.{HasEnds, IsRectangle};

use crate::entry::{Entry, entry, first_of};
use cell_value::{Block, Input, Items, NoMemory};
use dimension_ops::Book;
use formula_reader::{FormulaFault, reads_once};
use grid_range::{Area, Axis, Band};
use std::alloc::Global;
use world_model::{MOST_ROWS, updates_are_writes, updates_follow};

/// Values for the cells from the first one of an area on, as far as the ends.
#[derive(Drop)]
pub(crate) struct Given<'a> {
    pub(crate) alloc: Global,
    pub(crate) area: &'a Area,
    pub(crate) block: &'a Block,
    /// The row behind the last one that may take a value.
    pub(crate) end_row: u32,
    /// The column behind the last one.
    pub(crate) end_col: u32,
}

impl<'a> Given<'a> {
    /// Whether the lines of values are rows or columns.
    pub(crate) fn axis(&self) -> Axis
        ensures { result ≡ axis_of self.now }
    {
        if self.block.columns_first {
            Axis::Columns
        } else {
            Axis::Rows
        }
    }

    /// The sheet's line in which the first line of values stands, and the first place in it.
    pub(crate) fn corner(&self) -> (usize, usize)
        ensures { result ≡ corner self.now }
    {
        let row = self.area.rows.first_line();
        let col = self.area.cols.first_line();
        self.turned(row as usize, col as usize)
    }

    /// How many lines of values there may be, and how many places in each.
    pub(crate) fn room(&self) -> (usize, usize)
        requires { HasRoom self.now }
        ensures { result ≡ room self.now }
    {
        let rows = self.end_row - self.area.rows.first_line();
        let cols = self.end_col - self.area.cols.first_line();
        self.turned(rows as usize, cols as usize)
    }

    /// The cell of the value at a place of a line.
    pub(crate) fn cell_for(&self, line: usize, place: usize) -> (u32, u32)
        requires room { HasRoom self.now }
        requires line { line < (room self.now).0 }
        requires place { place < (room self.now).1 }
        ensures { result ≡ cell_for self.now line place }
    {
        let (row, col) = self.turned(line, place);
        (
            self.area.rows.first_line() + row as u32,
            self.area.cols.first_line() + col as u32,
        )
    }

    /// Rows and columns as lines and places in them, or the other way round.
    fn turned(&self, row: usize, col: usize) -> (usize, usize)
        ensures { result ≡ turned self.now row col }
    {
        if self.block.columns_first {
            (col, row)
        } else {
            (row, col)
        }
    }

    /// Writes to those cells, or empties them; the first limit that one of the formulas passes.
    pub(crate) fn put(
        &self,
        book: &mut Book,
        cells: &[(u32, u32)],
    ) -> Result<Option<FormulaFault>, NoMemory>
        requires sheet { IsWithinSheet book.old.sheets self.now }
        requires cells { AreGiven self.now cells.now }
        ensures { IfOk result (ArePut self.now (value_listed cells.now self.now) book.old book.new) }
    {
        updates_are_writes();
        updates_follow();
        reads_once();
        book.stays_sound();
        let mut first = None;
        for cell in cells {
            let (content, limit) = self.entry(book, cell.0, cell.1)?;
            book.put(self.area.sheet, cell.0, cell.1, content)?;
            first = first_of(first, limit);
        }
        book.stays_sound();
        Ok(first)
    }

    /// What the cell is to hold, and the first limit that its formula passes.
    fn entry(&self, book: &Book, row: u32, col: u32) -> Result<Entry, NoMemory>
        requires row { first_row self.now ≤ row }
        requires col { first_col self.now ≤ col }
        requires there { IsSome (place_sheet_with self.now.area.now.sheet book.now.sheets) }
        requires given { IsSome
            (given_value (input_at self.now.block.now (row - first_row self.now) (col - first_col self.now))) }
        ensures entry { IfOk result (λ entry. IsEntry (formula_sheets book.now.sheets) self.now.area.now.sheet
            (input_at self.now.block.now (row - first_row self.now) (col - first_col self.now)) (entry_of entry)) }
        ensures within { IfOk result (λ entry. IfSome entry.0 (IsContentWithin book.now.sheets)) }
    {
        let row = row - self.area.rows.first_line();
        let col = col - self.area.cols.first_line();
        let (line, place) = self.turned(row as usize, col as usize);
        match self.input(line, place) {
            Some(input) => entry(self.alloc, book, self.area.sheet, input),
            None => Ok((None, None)),
        }
    }

    /// The value at a place of a line; None beside the values.
    fn input(&self, line: usize, place: usize) -> Option<&Input>
        ensures { unwrap_or (option_copied result) Skip ≡ get_or (line_given self.now line) place Skip }
    {
        match self.block.values.as_slice().get(line) {
            Some(inputs) => inputs.as_slice().get(place),
            None => None,
        }
    }

    /// Whether the values need no line behind the ends.
    pub(crate) fn fits(&self) -> bool
        ensures { result ≡ fits_by self.now }
    {
        let (rows, cols) = self.needed();
        is_within(self.area.rows.first_line(), rows, self.end_row)
            && is_within(self.area.cols.first_line(), cols, self.end_col)
    }

    /// The rectangle of the values, which has one cell at least.
    pub(crate) fn rectangle(&self) -> Area
        requires room { HasRoom self.now }
        requires fits { IsTrue (fits_by self.now) }
        ensures { result ≡ area_written self.now.area.now self.now.block.now }
    {
        let (rows, cols) = self.needed();
        Area {
            sheet: self.area.sheet,
            rows: lines_from(self.area.rows.first_line(), rows),
            cols: lines_from(self.area.cols.first_line(), cols),
        }
    }

    /// The rectangle of the values as far as the ends, which has one cell at least.
    pub(crate) fn reached(&self) -> Area
        requires { HasRoom self.now }
        ensures area { result ≡ area_reached self.now }
        ensures ends { IsRectangle result }
    {
        let (rows, cols) = self.needed();
        Area {
            sheet: self.area.sheet,
            rows: lines_before(self.area.rows.first_line(), rows, self.end_row),
            cols: lines_before(self.area.cols.first_line(), cols, self.end_col),
        }
    }

    /// How many rows and columns the values need.
    fn needed(&self) -> (usize, usize)
        ensures { result ≡ (rows_needed self.now.block.now, cols_needed self.now.block.now) }
    {
        let values = self.block.values.as_slice();
        self.turned(values.len(), longest(values))
    }
}

/// How many values the longest line has.
pub(crate) fn longest(lines: &[Items<Input>]) -> usize
    ensures { result ≡ longest lines.now }
{
    lines
        .iter()
        .fold(0, |most, inputs| most.max(inputs.as_slice().len()))
}

/// Whether so many lines from the first one on end at the end, or before.
fn is_within(first: u32, count: usize, end: u32) -> bool
    ensures { result ≡ nat_le (first + count) end }
{
    first <= end && count as u64 <= (end - first) as u64
}

/// So many lines from the first one on, and one at least.
fn lines_from(first: u32, count: usize) -> Band
    requires few { first + count ≤ MOST_ROWS }
    requires there { first < MOST_ROWS }
    ensures { result ≡ lines_from first count }
{
    Band::Span(first, first + (count as u32).max(1))
}

/// The same, as far as the end.
fn lines_before(first: u32, count: usize, end: u32) -> Band
    requires { first < end }
    ensures lines { result ≡ cut_band (lines_from first count) end }
    ensures ends { HasEnds result }
{
    let lines = count.max(1).min((end - first) as usize);
    Band::Span(first, first + lines as u32)
}

/// The cells' rows, or their columns, in order, each once.
pub(crate) fn lines_on(
    alloc: Global,
    axis: Axis,
    cells: &[(u32, u32)],
) -> Result<Items<u32>, NoMemory>
    ensures { IfOk result (AreLines (Contains (map (line_on axis) cells.now))) }
{
    let mut lines = Vec::new(alloc);
    for cell in cells {
        lines.push(line_on(axis, *cell))?;
    }
    lines.sort_unstable();
    lines.dedup();
    Ok(Items::of(lines))
}

/// The cell's row, or its column.
fn line_on(axis: Axis, cell: (u32, u32)) -> u32
    ensures { result ≡ line_on axis cell }
{
    match axis {
        Axis::Rows => cell.0,
        Axis::Columns => cell.1,
    }
}
