ghost use Rattle.std.specs.Prelude.{◌≡◌, IfOk, IsSomeAnd};
ghost use Rattle.world_model.specs.Sound.{place_sheet_with};
ghost use Rattle.dimension_ops.specs.Rules.{IsUnlessNoMemory};
ghost use Rattle.values_api.specs.Blocks.{IsWrite, broken_by_write, rule_of_limit, end_row, end_col};
ghost use Rattle.values_api.specs.Denials.{IsWriteBy};
ghost use Rattle.values_api.specs.Given.{HasRoom, IsWithinSheet, AreGiven, IsAnswer, IsDoneOnSheet, value_listed};
ghost use Rattle.values_api.specs.Ranges.{IsThere};

use crate::denial::write_denial;
use crate::given::{Given, lines_on};
use crate::uncovered::uncovered_cells;
use cell_value::{Block, Items};
use dimension_ops::{Book, Limit, Rule, RuleOr};
use formula_reader::FormulaFault;
use grid_range::{Area, Axis};
use std::alloc::Global;

/// How many cells of a spreadsheet can be stored.
const MOST_STORED: u64 = 1_000_000;

/// How many cells of a spreadsheet can hold a formula.
const MOST_FORMULAS: u64 = 20_000;

/// What a write did (Sheets API v4 reference, UpdateValuesResponse).
#[derive(Debug, Drop)]
pub struct WrittenCells {
    /// The rectangle of the values.
    pub area: Area,
    /// The rows with a cell that was written or emptied, in order, counted from 0.
    pub rows: Items<u32>,
    /// The columns with such a cell, in order, counted from 0.
    pub cols: Items<u32>,
    /// How many such cells there are.
    pub cells: u64,
}

/// Writes values from the first corner of an area on (Sheets API v4 reference, spreadsheets.values.update).
/// Where the area was named as one cell they may go on to the end of the sheet, and else to the area's
/// end. A cell that a merge covers is passed over, whatever its value. A formula's text is read as a formula of
/// the sheet.
///
/// # Errors
///
/// [`Rule::PastLimit`] with the first limit that would be passed: [`Limit::Filled`] where more than
/// 1,000,000 cells of the spreadsheet would be stored, [`Limit::Formulas`] where more than 20,000 formulas
/// would be, and [`Limit::Tokens`], [`Limit::References`] and [`Limit::Depth`] where a formula that would be
/// written has more than 512 tokens, 64 references and words or 32 brackets open at once;
/// [`Rule::ValuesPastRange`] where the values need a line behind the ends; [`Rule::Protected`] with the least id of a
/// protected range that denies the user a cell that is written or emptied; [`RuleOr::NoMemory`] where memory runs
/// out. The spreadsheet is to be given up then.
pub fn write_values(
    alloc: Global,
    book: &mut Book,
    user: &str,
    area: &Area,
    one_cell: bool,
    block: &Block,
) -> Result<WrittenCells, RuleOr>
    requires { IsThere book.old.sheets area.now }
    ensures written { IsSomeAnd (place_sheet_with area.now.sheet book.old.sheets) (λ sheet.
        IsUnlessNoMemory (IsWriteBy user.now one_cell area.now block.now sheet book.old book.new) result) }
    ensures there { IfOk result (λ written. IsThere book.new.sheets written.area) }
{
    let denied = write_denial(alloc, book, user, area, one_cell, block)?;
    let written = put_values(alloc, book, area, one_cell, block)?;
    match denied {
        None => Ok(written),
        Some(id) => Err(RuleOr::Rule(Rule::Protected(id))),
    }
}

/// Writes values as [`write_values`] does, whatever cells protected ranges deny.
///
/// # Errors
///
/// Those of [`write_values`] but for [`Rule::Protected`].
pub fn put_values(
    alloc: Global,
    book: &mut Book,
    area: &Area,
    one_cell: bool,
    block: &Block,
) -> Result<WrittenCells, RuleOr>
    requires { IsThere book.old.sheets area.now }
    ensures written { IsSomeAnd (place_sheet_with area.now.sheet book.old.sheets)
        (λ sheet. IsUnlessNoMemory (IsWrite one_cell area.now block.now sheet book.old book.new) result) }
    ensures there { IfOk result (λ written. IsThere book.new.sheets written.area) }
{
    book.stays_sound();
    let (end_row, end_col) = ends(book, area, one_cell);
    let given = Given {
        alloc,
        area,
        block,
        end_row,
        end_col,
    };
    write(&given, book)
}

/// The row and the column behind the last ones that values may be written to.
pub(crate) fn ends(book: &Book, area: &Area, one_cell: bool) -> (u32, u32)
    requires { IsThere book.now.sheets area.now }
    ensures { IsSomeAnd (place_sheet_with area.now.sheet book.now.sheets)
        (λ sheet. result ≡ (end_row one_cell area.now sheet, end_col one_cell area.now sheet)) }
{
    match book.sheet(area.sheet) {
        Some(sheet) => {
            if one_cell {
                (sheet.rows(), sheet.cols())
            } else {
                (
                    area.rows.end_line(sheet.rows()),
                    area.cols.end_line(sheet.cols()),
                )
            }
        }
        None => (0, 0),
    }
}

/// Writes the values as far as the ends.
fn write(given: &Given<'_>, book: &mut Book) -> Result<WrittenCells, RuleOr>
    requires room { HasRoom given.now }
    requires sheet { IsWithinSheet book.old.sheets given.now }
    ensures { IsDoneOnSheet given.now book.old book.new result }
{
    let uncovered = uncovered_cells(given, book)?;
    let cells = uncovered.as_slice();
    let limit = given.put(book, cells)?;
    answer(given, book, cells, limit)
}

/// The answer to a write, of which these cells were written or emptied, and of whose formulas one passes
/// the limit; the rule that it breaks, if any.
fn answer(
    given: &Given<'_>,
    book: &Book,
    cells: &[(u32, u32)],
    limit: Option<FormulaFault>,
) -> Result<WrittenCells, RuleOr>
    requires room { HasRoom given.now }
    requires cells { AreGiven given.now cells.now }
    ensures { IsUnlessNoMemory (IsAnswer given.now (value_listed cells.now given.now) limit book.now) result }
{
    if let Some(rule) = broken(limit, given.fits(), book) {
        return Err(RuleOr::Rule(rule));
    }
    Ok(WrittenCells {
        area: given.rectangle(),
        rows: lines_on(given.alloc, Axis::Rows, cells)?,
        cols: lines_on(given.alloc, Axis::Columns, cells)?,
        cells: cells.len() as u64,
    })
}

/// The rule that a write breaks after which the spreadsheet is such.
fn broken(limit: Option<FormulaFault>, fits: bool, book: &Book) -> Option<Rule>
    ensures { result ≡ broken_by_write limit fits book.now }
{
    if book.filled() > MOST_STORED {
        return Some(Rule::PastLimit(Limit::Filled));
    }
    if book.formulas() > MOST_FORMULAS {
        return Some(Rule::PastLimit(Limit::Formulas));
    }
    match limit {
        Some(limit) => Some(rule_of_limit(limit)),
        None if fits => None,
        None => Some(Rule::ValuesPastRange),
    }
}

/// The rule that a formula breaks which passes the limit.
fn rule_of_limit(limit: FormulaFault) -> Rule
    ensures { result ≡ rule_of_limit limit }
{
    Rule::PastLimit(match limit {
        FormulaFault::Tokens => Limit::Tokens,
        FormulaFault::References => Limit::References,
        FormulaFault::Depth | FormulaFault::NoMemory => Limit::Depth,
    })
}
