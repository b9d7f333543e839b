ghost use Rattle.std.specs.Prelude.{◌≡◌, ◌<◌, ◌≤◌, IfErr, IfOk, IfSome, IsSomeAnd, OnOk, None, Some};
ghost use Rattle.std.specs.Option.{option_map};
ghost use Rattle.world_model.specs.Sound.{IsSound, place_sheet_with};
ghost use Rattle.dimension_ops.specs.Rules.{IsUnlessNoMemory};
ghost use Rattle.values_api.specs.Blocks.{rows_needed, cols_needed};
ghost use Rattle.values_api.specs.Ranges.{IsThere};
ghost use Rattle.values_api.specs.Tables.{IsTableIn};
ghost use Rattle.values_api.specs.Appends.{IsAppend, cell_area, limit_passed, lines_added, missing, start_of, table_area};
ghost use Rattle.values_api.specs.Appending.{IsAddedOn, AreAdded, CanAdd, IsPlan, IsRoom, StartsInside};

use crate::given::longest;
use crate::table::{Rectangle, table_in};
use crate::writing::{WrittenCells, write_values};
use cell_value::Block;
use dimension_ops::{Book, Limit, Rule, RuleOr, Sheet, change_sheet};
use grid_range::{Area, Axis, Band, Change};
use std::alloc::Global;
use world_model::{MOST_COLUMNS, MOST_PLACES, MOST_ROWS, changes_in_turn, updates_are_changes};

/// The lines that an append adds to a sheet.
#[derive(Clone, Copy, Debug)]
pub struct Added {
    /// The row before which rows are inserted, or the number of rows.
    pub row: u32,
    /// How many rows.
    pub rows: usize,
    /// The number of columns, behind which columns are added.
    pub col: u32,
    /// How many columns.
    pub cols: usize,
}

/// Where the values of an append begin, behind which table, and the lines that it adds.
#[derive(Drop)]
struct Plan {
    table: Option<Rectangle>,
    start: (u32, u32),
    added: Added,
}

/// Appends values to the table that is found in an area (Sheets API v4 reference, spreadsheets.values.append): they
/// are written from the table's first column on, in the row behind its last one, or from the area's first cell on
/// where there is none. Gives the table's area, and what was written. Values count as one row at least. With
/// `insert` as many rows are inserted there first, and else the rows that are missing are added at the end of
/// the sheet; with both the columns that are missing. Which protected ranges deny the user a cell of the values is
/// taken once the lines are there, since it may be of a new one.
///
/// # Errors
///
/// [`Rule::PastLimit`] with the first limit that would be passed: [`Limit::Rows`] and [`Limit::Columns`] where
/// the sheet would have more than 1,000,000 rows or 18,278 columns, [`Limit::Cells`] where the spreadsheet would
/// have more than 10,000,000 places, and then as in [`write_values`]; [`RuleOr::NoMemory`] where memory runs
/// out. The spreadsheet is to be given up then.
pub fn append_values(
    alloc: Global,
    book: &mut Book,
    user: &str,
    area: &Area,
    insert: bool,
    block: &Block,
) -> Result<(Option<Area>, WrittenCells), RuleOr>
    requires { IsThere book.old.sheets area.now }
    ensures appended { IsSomeAnd (place_sheet_with area.now.sheet book.old.sheets)
        (λ sheet. IsUnlessNoMemory (IsAppend user.now insert area.now block.now sheet book.old book.new) result) }
    ensures table { IfOk result (λ done. IfSome done.0 (IsThere book.new.sheets)) }
    ensures there { IfOk result (λ done. IsThere book.new.sheets done.1.area) }
{
    changes_in_turn();
    updates_are_changes();
    book.stays_sound();
    let plan = plan_of(alloc, book, area, insert, block)?;
    add_lines(book, area.sheet, &plan.added)?;
    let table = table_area(area.sheet, plan.table);
    let cell = cell_area(area.sheet, plan.start);
    match write_values(alloc, book, user, &cell, true, block) {
        Ok(written) => Ok((table, written)),
        Err(fault) => Err(fault),
    }
}

/// Where the values begin, behind which table, and the lines that are added.
///
/// # Errors
///
/// The first limit that these pass; [`RuleOr::NoMemory`] where memory runs out.
fn plan_of(
    alloc: Global,
    book: &Book,
    area: &Area,
    insert: bool,
    block: &Block,
) -> Result<Plan, RuleOr>
    requires { IsThere book.now.sheets area.now }
    ensures { IsSomeAnd (place_sheet_with area.now.sheet book.now.sheets)
        (λ sheet. IsUnlessNoMemory (IsPlan insert area.now block.now sheet book.now.sheets) result) }
{
    book.stays_sound();
    let Some(sheet) = book.sheet(area.sheet) else {
        return Err(RuleOr::Rule(Rule::NoSheet));
    };
    let table = table_in(alloc, sheet, area)?;
    let start = start_of(table, area);
    let added = lines_added(insert, start, block, sheet);
    if let Some(limit) = limit_passed(&added, sheet, book) {
        return Err(RuleOr::Rule(Rule::PastLimit(limit)));
    }
    Ok(Plan {
        table,
        start,
        added,
    })
}

/// The cell where the values begin.
fn start_of(table: Option<Rectangle>, area: &Area) -> (u32, u32)
    ensures { result ≡ start_of table area.now }
{
    match table {
        Some(table) => (table.bottom, table.left),
        None => (area.rows.first_line(), area.cols.first_line()),
    }
}

/// The lines that are added for values from that cell on.
fn lines_added(insert: bool, start: (u32, u32), block: &Block, sheet: &Sheet) -> Added
    requires { StartsInside start sheet.now }
    ensures { result ≡ lines_added insert start block.now sheet.now }
{
    let (rows, cols) = needed(block);
    let rows = rows.max(1);
    let missing_rows = missing(start.0, rows, sheet.rows());
    Added {
        row: if insert { start.0 } else { sheet.rows() },
        rows: if insert { rows } else { missing_rows },
        col: sheet.cols(),
        cols: missing(start.1, cols, sheet.cols()),
    }
}

/// How many of so many lines from the first one on are behind the last one.
fn missing(first: u32, count: usize, lines: u32) -> usize
    requires { first ≤ lines }
    ensures { result ≡ missing first count lines }
{
    count.saturating_sub((lines - first) as usize)
}

/// The first limit that is passed with the lines.
fn limit_passed(added: &Added, sheet: &Sheet, book: &Book) -> Option<Limit>
    requires there { place_sheet_with sheet.now.id book.now.sheets ≡ Some sheet.now }
    ensures { result ≡ limit_passed added.now sheet.now book.now.sheets }
{
    book.stays_sound();
    let (rows, cols) = (sheet.rows(), sheet.cols());
    if added.rows > (MOST_ROWS - rows) as usize {
        return Some(Limit::Rows);
    }
    if added.cols > (MOST_COLUMNS - cols) as usize {
        return Some(Limit::Columns);
    }
    let before = u64::from(rows) * u64::from(cols);
    let after = (rows as u64 + added.rows as u64) * (cols as u64 + added.cols as u64);
    if book.grid_places() + after - before > MOST_PLACES {
        return Some(Limit::Cells);
    }
    None
}

/// Adds the lines to the sheet with the id.
fn add_lines(book: &mut Book, sheet: u32, added: &Added) -> Result<(), RuleOr>
    requires { IsSomeAnd (place_sheet_with sheet book.old.sheets)
        (λ own. CanAdd sheet added.now own book.old.sheets) }
    ensures added { OnOk result (IsSomeAnd (place_sheet_with sheet book.old.sheets)
        (λ own. AreAdded sheet added.now own book.old book.new)) }
    ensures refused { IfErr result (λ fault. fault ≡ RuleOr.NoMemory) }
{
    changes_in_turn();
    add_on(book, sheet, Axis::Rows, added.row, added.rows)?;
    add_on(book, sheet, Axis::Columns, added.col, added.cols)?;
    Ok(())
}

/// Adds so many lines on the axis, which may be none.
fn add_on(book: &mut Book, sheet: u32, axis: Axis, at: u32, count: usize) -> Result<(), RuleOr>
    requires { IsRoom sheet axis at count book.old.sheets }
    ensures added { OnOk result (IsAddedOn sheet axis at count book.old book.new) }
    ensures refused { IfErr result (λ fault. fault ≡ RuleOr.NoMemory) }
{
    changes_in_turn();
    if count == 0 {
        return Ok(());
    }
    let change = Change::Insert {
        at,
        count: count as u32,
    };
    match change_sheet(book, sheet, axis, &change) {
        Ok(()) => Ok(()),
        Err(fault) => Err(fault),
    }
}

/// How many rows values need, whatever stands in them.
pub fn rows_needed(block: &Block) -> usize
    ensures { result ≡ rows_needed block.now }
{
    needed(block).0
}

/// How many rows and columns the values need.
fn needed(block: &Block) -> (usize, usize)
    ensures { result ≡ (rows_needed block.now, cols_needed block.now) }
{
    let values = block.values.as_slice();
    if block.columns_first {
        (longest(values), values.len())
    } else {
        (values.len(), longest(values))
    }
}

/// The one cell of the sheet.
fn cell_area(sheet: u32, cell: (u32, u32)) -> Area
    requires rows { cell.0 < MOST_ROWS }
    requires cols { cell.1 < MOST_COLUMNS }
    ensures { result ≡ cell_area sheet cell }
{
    Area {
        sheet,
        rows: Band::Span(cell.0, cell.0 + 1),
        cols: Band::Span(cell.1, cell.1 + 1),
    }
}

/// The table's area, if there is a table.
fn table_area(sheet: u32, table: Option<Rectangle>) -> Option<Area>
    ensures { result ≡ option_map (table_area sheet) table }
{
    match table {
        Some(table) => Some(Area {
            sheet,
            rows: Band::Span(table.top, table.bottom),
            cols: Band::Span(table.left, table.right),
        }),
        None => None,
    }
}
