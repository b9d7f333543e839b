ghost use Rattle.std.specs.Prelude.{◌≡◌, ◌↔◌, ℕ, ◌+◌, ◌<◌, ◌≤◌, false, IsTrue, All};
ghost use Rattle.std.specs.List.Sorted.{IsPermutation, IsNonDecreasingBy};
ghost use Rattle.protection.specs.Denial.{HasCell, IsOutside};
ghost use Rattle.protection.specs.Sweep.{IsFreeColumn, IsFreeCell, HasNoFreeBelow, first_col};

use crate::orders::row_key;
use grid_range::Area;

/// Whether a cell in these rows and columns is in none of the ranges, which are given in two orders. If
/// one is, then one of the first row is, or one right below a range.
///
/// Where ranges don't overlap, those right below one begin in the row below it: they stand together in
/// the first order. Else the second order is gone over once for the lower end of a range.
pub(crate) fn has_free_cell(
    by_row: &[Area],
    by_col: &[Area],
    sheet: u32,
    rows: (u32, u32),
    cols: (u32, u32),
) -> bool
    requires order { IsNonDecreasingBy first_col by_col.now }
    requires same { IsPermutation by_col.now by_row.now }
    ensures { IsTrue result ↔ IsFreeCell sheet rows cols by_col.now }
{
    if rows.1 <= rows.0 {
        return false;
    }
    if has_free_column(by_row, by_col, sheet, rows.0, cols) {
        return true;
    }
    for range in by_col {
        if has_free_below(by_row, by_col, range, sheet, rows, cols) {
            return true;
        }
    }
    false
}

/// Whether a cell in these rows and columns is in none of the ranges, in the row right below this range.
fn has_free_below(
    by_row: &[Area],
    by_col: &[Area],
    range: &Area,
    sheet: u32,
    rows: (u32, u32),
    cols: (u32, u32),
) -> bool
    requires order { IsNonDecreasingBy first_col by_col.now }
    requires same { IsPermutation by_col.now by_row.now }
    ensures found { IsTrue result → IsFreeCell sheet rows cols by_col.now }
    ensures none { result ≡ false → HasNoFreeBelow sheet rows cols by_col.now range.now }
{
    let row = range.rows.end_line(rows.1);
    if range.sheet != sheet || row <= rows.0 || rows.1 <= row {
        return false;
    }
    let first = range.cols.first_line().max(cols.0);
    let end = range.cols.end_line(cols.1).min(cols.1);
    has_free_column(by_row, by_col, sheet, row, (first, end))
}

/// Whether a cell of the row in these columns is in none of the ranges.
fn has_free_column(by_row: &[Area], by_col: &[Area], sheet: u32, row: u32, cols: (u32, u32)) -> bool
    requires order { IsNonDecreasingBy first_col by_col.now }
    requires same { IsPermutation by_col.now by_row.now }
    ensures { IsTrue result ↔ IsFreeColumn sheet row cols by_col.now }
{
    let reached = reach_from_row(by_row, sheet, row, cols);
    has_free_column_by_pass(by_col, sheet, row, (reached, cols.1))
}

/// How far the columns from the first one on are covered in the row by ranges that begin there: the
/// first column that may be free, or one behind the last.
fn reach_from_row(by_row: &[Area], sheet: u32, row: u32, cols: (u32, u32)) -> u32
    ensures behind { cols.0 ≤ result }
    ensures covered { (col : ℕ) → cols.0 ≤ col → col < result → ¬ (IsOutside sheet row col by_row.now) }
{
    let mut reached = cols.0;
    let behind = by_row.partition_point(|range| row_key(range) <= (sheet, row, cols.0));
    for range in &by_row[behind.saturating_sub(1)..] {
        if cols.1 <= reached || (sheet, row, reached) < row_key(range) {
            break;
        }
        if has_cell(range, sheet, row, reached) {
            reached = range.cols.end_line(cols.1);
        }
    }
    reached
}

/// Whether a cell of the row in these columns is in none of the ranges, by one pass over them.
fn has_free_column_by_pass(by_col: &[Area], sheet: u32, row: u32, cols: (u32, u32)) -> bool
    requires { IsNonDecreasingBy first_col by_col.now }
    ensures { IsTrue result ↔ IsFreeColumn sheet row cols by_col.now }
{
    let mut reached = cols.0;
    for range in by_col {
        if cols.1 <= reached {
            return false;
        }
        if has_cell(range, sheet, row, reached) {
            reached = range.cols.end_line(cols.1);
        }
    }
    reached < cols.1
}

/// Whether the range has the cell of the sheet.
pub(crate) fn has_cell(range: &Area, sheet: u32, row: u32, col: u32) -> bool
    ensures { IsTrue result ↔ HasCell sheet row col range.now }
{
    range.sheet == sheet && range.holds(row, col)
}
