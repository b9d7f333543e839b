ghost use Rattle.std.specs.Prelude.{◌↔◌, ◌≡◌, ◌≤◌, length, IfOk, IsTrue};
ghost use Rattle.std.specs.List.Sorted.{IsPermutation, IsNonDecreasingBy};
ghost use Rattle.protection.specs.Sweep.{IsFreeCell, first_col};

use crate::sweep::has_free_cell;
use cell_value::NoMemory;
use grid_range::Area;
use std::alloc::Global;
use std::marker::Model;

/// Ranges in two orders, so that a cell that none of them has is found without going over all of them
/// for each line. Contracts see them by column.
#[derive(Drop)]
pub(crate) struct Orders {
    /// By sheet, first row and first column.
    by_row: Vec<Area>,
    /// By first column.
    by_col: Vec<Area>,
}

impl Model for Orders {
    ghost use Rattle.std.specs.Prelude.{List};
    ghost use Rattle.std.specs.List.Sorted.{IsPermutation, IsNonDecreasingBy};
    ghost use Rattle.grid_range.specs.declared.area.Area.{Area};
    ghost use Rattle.protection.specs.Sweep.{first_col};

    ghost Value = { List Area };

    ghost view = { λ o. o.by_col.items };

    ghost invariant = { λ o. IsNonDecreasingBy first_col o.by_col.items
        × IsPermutation o.by_col.items o.by_row.items };
}

impl Orders {
    /// The ranges in both orders.
    ///
    /// # Errors
    ///
    /// [`NoMemory`] where memory runs out.
    pub(crate) fn of(alloc: Global, ranges: &[Area]) -> Result<Orders, NoMemory>
        ensures { IfOk result (λ orders. IsPermutation ranges.now orders) }
    {
        let mut by_col = Vec::from_slice(alloc, ranges)?;
        sort_by_col(&mut by_col);
        let mut by_row = Vec::from_slice(alloc, &by_col)?;
        sort_by_row(&mut by_row);
        Ok(Orders { by_row, by_col })
    }

    /// A copy.
    ///
    /// # Errors
    ///
    /// [`NoMemory`] where memory runs out.
    pub(crate) fn copy(&self, alloc: Global) -> Result<Orders, NoMemory>
        ensures { IfOk result (λ copy. copy ≡ self.now) }
    {
        Ok(Orders {
            by_row: Vec::from_slice(alloc, &self.by_row)?,
            by_col: Vec::from_slice(alloc, &self.by_col)?,
        })
    }

    /// Takes other ranges in the place of these, of which there are as many or more. It takes no memory.
    pub(crate) fn refill(&mut self, ranges: &[Area])
        requires { length ranges.now ≤ length self.old }
        ensures { IsPermutation ranges.now self.new }
    {
        refill_by_col(&mut self.by_col, ranges);
        refill_by_row(&mut self.by_row, &self.by_col);
    }

    /// Whether a cell of the sheet in these rows and columns is in none of the ranges.
    pub(crate) fn has_free_cell(&self, sheet: u32, rows: (u32, u32), cols: (u32, u32)) -> bool
        ensures { IsTrue result ↔ IsFreeCell sheet rows cols self.now }
    {
        has_free_cell(&self.by_row, &self.by_col, sheet, rows, cols)
    }
}

/// Puts the ranges by column over those of the list, of which there are as many or more.
fn refill_by_col(list: &mut Vec<Area>, ranges: &[Area])
    requires { length ranges.now ≤ length list.old.items }
    ensures same { IsPermutation ranges.now list.new.items }
    ensures order { IsNonDecreasingBy first_col list.new.items }
{
    list.truncate(ranges.len());
    list.copy_from_slice(ranges);
    sort_by_col(list);
}

/// Puts the ranges by row over those of the list, of which there are as many or more.
fn refill_by_row(list: &mut Vec<Area>, ranges: &[Area])
    requires { length ranges.now ≤ length list.old.items }
    ensures { IsPermutation ranges.now list.new.items }
{
    list.truncate(ranges.len());
    list.copy_from_slice(ranges);
    sort_by_row(list);
}

fn sort_by_col(ranges: &mut [Area])
    ensures same { IsPermutation ranges.old ranges.new }
    ensures order { IsNonDecreasingBy first_col ranges.new }
{
    ranges.sort_unstable_by_key(|range| range.cols.first_line());
}

fn sort_by_row(ranges: &mut [Area])
    ensures { IsPermutation ranges.old ranges.new }
{
    ranges.sort_unstable_by_key(row_key);
}

/// A range's sheet, its first row and its first column.
pub(crate) fn row_key(range: &Area) -> (u32, u32, u32) {
    (
        range.sheet,
        range.rows.first_line(),
        range.cols.first_line(),
    )
}
