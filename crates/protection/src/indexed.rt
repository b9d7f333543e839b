ghost use Rattle.std.specs.Prelude.{◌≡◌, ◌↔◌, ℕ, ◌<◌, Bool, false, None, All, List, IfOk, OnOk, OnErr, IsTrue, unwrap_or};
ghost use Rattle.std.specs.List.{filter_map};
ghost use Rattle.std.specs.List.Sorted.{IsPermutation};
ghost use Rattle.grid_range.specs.declared.area.Area.{Area};
ghost use Rattle.grid_range.specs.Area.{Holds, IsWithinOn};
ghost use Rattle.grid_range.specs.Band.{HasLine};
ghost use Rattle.grid_range.specs.Change.{Fits, count_after};
ghost use Rattle.grid_range.specs.Tracking.{area_followed};
ghost use Rattle.protection.specs.declared.range.Protection.{Protection};
ghost use Rattle.protection.specs.Denial.{DeniesOne, DeniesSome, IsOutside, ListedCells};
ghost use Rattle.protection.specs.Editors.{with_requester};
ghost use Rattle.protection.specs.Following.{ranges_elsewhere};
ghost use Rattle.protection.specs.Patch.{patched, warns_after, unprotected_after};
ghost use Rattle.protection.specs.Sweep.{IsBetween};

use crate::following::{LineChange, keep_elsewhere};
use crate::orders::Orders;
use crate::patch::is_whole_sheet;
use crate::range::{Protection, ProtectionPatch};
use crate::sweep::has_cell;
use cell_value::{Items, NoMemory, put_given};
use grid_range::{Area, Band};
use std::alloc::Global;
use std::marker::Model;

/// A protected range as the list keeps it, with its unprotected ranges in two orders. Contracts see the
/// protected range.
#[derive(Drop)]
pub(crate) struct Indexed {
    protection: Protection,
    orders: Orders,
}

impl Model for Indexed {
    ghost use Rattle.std.specs.List.Sorted.{IsPermutation};
    ghost use Rattle.protection.specs.declared.range.Protection.{Protection};

    ghost Value = { Protection };

    ghost view = { λ i. i.protection };

    ghost invariant = { λ i. IsPermutation i.protection.unprotected i.orders };
}

impl Indexed {
    /// The protected range, as the list keeps it.
    ///
    /// # Errors
    ///
    /// [`NoMemory`] where memory runs out.
    pub(crate) fn of(alloc: Global, protection: Protection) -> Result<Indexed, NoMemory>
        ensures { IfOk result (λ indexed. indexed ≡ protection) }
    {
        let orders = Orders::of(alloc, protection.unprotected.as_slice())?;
        Ok(Indexed { protection, orders })
    }

    /// The protected range, lent.
    pub(crate) fn get(&self) -> &Protection
        ensures { result.now ≡ self.now }
    {
        &self.protection
    }

    /// A copy, which equals its source.
    ///
    /// # Errors
    ///
    /// [`NoMemory`] where memory runs out.
    pub(crate) fn copy(&self, alloc: Global) -> Result<Indexed, NoMemory>
        ensures { IfOk result (λ copy. copy ≡ self.now) }
    {
        Ok(Indexed {
            protection: self.protection.copy(alloc)?,
            orders: self.orders.copy(alloc)?,
        })
    }

    /// Puts what the patch gives in the place of what the protection has.
    ///
    /// # Errors
    ///
    /// [`NoMemory`] where memory runs out; the protection is as it was.
    pub(crate) fn patch(
        &mut self,
        alloc: Global,
        user: &str,
        owner: &str,
        patch: ProtectionPatch,
    ) -> Result<(), NoMemory>
        requires { patch.editors ≡ None → warns_after patch self.old ≡ false →
            with_requester user.now owner.now self.old.editors ≡ self.old.editors }
        ensures patched { OnOk result (self.new ≡ patched user.now owner.now patch self.old) }
        ensures unchanged { OnErr result (self.new ≡ self.old) }
    {
        let orders = given_orders(alloc, &patch)?;
        self.protection.patch(alloc, user, owner, patch)?;
        put_given(&mut self.orders, orders);
        Ok(())
    }

    /// Puts the area in the place of the protection's, and has its unprotected ranges follow the change;
    /// those that are lost go. It takes no memory.
    pub(crate) fn follow_to(&mut self, area: Area, by: &LineChange)
        requires fits { Fits by.now.change.now by.now.count }
        requires within { All (IsWithinOn by.now.sheet by.now.axis by.now.count) self.old.unprotected }
        ensures followed { self.new ≡ record self.old {
          area = area;
          unprotected = filter_map
              (area_followed by.now.sheet by.now.axis by.now.count by.now.change.now)
              self.old.unprotected;
        } }
        ensures within { All
            (IsWithinOn by.now.sheet by.now.axis (count_after by.now.change.now by.now.count))
            self.new.unprotected }
    {
        self.protection.area = area;
        self.protection.unprotected.follow(by);
        self.orders.refill(self.protection.unprotected.as_slice());
    }

    /// Takes out the unprotected ranges that are on the sheet. It takes no memory.
    pub(crate) fn lose_ranges(&mut self, sheet: u32)
        ensures { self.new ≡
            record self.old { unprotected = ranges_elsewhere sheet self.old.unprotected } }
    {
        let mut ranges = self.protection.unprotected.take().into_vec();
        keep_elsewhere(&mut ranges, sheet);
        self.protection.unprotected = Items::of(ranges);
        self.orders.refill(self.protection.unprotected.as_slice());
    }

    /// Whether the protection denies the user some cell of the area, on a sheet of `rows` rows and
    /// `cols` columns. The cost doesn't grow with the area.
    pub(crate) fn denies_some(
        &self,
        user: &str,
        owner: &str,
        area: &Area,
        rows: u32,
        cols: u32,
    ) -> bool
        ensures { IsTrue result ↔ DeniesSome user.now owner.now area.now rows cols self.now }
    {
        let protected = &self.protection.area;
        if protected.sheet != area.sheet || self.protection.may_edit(user, owner) {
            return false;
        }
        let rows = shared_lines(protected.rows, area.rows, rows);
        let cols = shared_lines(protected.cols, area.cols, cols);
        self.orders.has_free_cell(area.sheet, rows, cols)
    }
}

impl Indexed {
    /// Whether the protection denies the user one of the cells of the sheet, by row and column.
    pub(crate) fn denies_listed(
        &self,
        user: &str,
        owner: &str,
        sheet: u32,
        cells: &[(u32, u32)],
    ) -> bool
        ensures { IsTrue result ↔ DeniesOne user.now owner.now (ListedCells sheet cells.now) self.now }
    {
        if self.protection.area.sheet != sheet || self.protection.may_edit(user, owner) {
            return false;
        }
        cells
            .iter()
            .any(|cell| self.protection.closes(cell.0, cell.1))
    }
}

impl Protection {
    /// Whether its area holds the cell, and none of its unprotected ranges has it.
    fn closes(&self, row: u32, col: u32) -> bool
        ensures { IsTrue result
            ↔ (Holds self.now.area row col × IsOutside self.now.area.sheet row col self.now.unprotected) }
    {
        self.area.holds(row, col) && !self.opens(row, col)
    }

    /// Whether one of its unprotected ranges has the cell.
    fn opens(&self, row: u32, col: u32) -> bool
        ensures { IsTrue result ↔ ¬ (IsOutside self.now.area.sheet row col self.now.unprotected) }
    {
        let ranges = self.unprotected.as_slice();
        ranges
            .iter()
            .any(|range| has_cell(range, self.area.sheet, row, col))
    }
}

/// The orders of the unprotected ranges that the patch gives; None where it leaves those that there are.
///
/// # Errors
///
/// [`NoMemory`] where memory runs out.
fn given_orders(alloc: Global, patch: &ProtectionPatch) -> Result<Option<Orders>, NoMemory>
    ensures { IfOk result (λ orders. (old : Protection) (kept : List Area)
        → IsPermutation old.unprotected kept
        → IsPermutation (unprotected_after patch.now old) (unwrap_or orders kept)) }
{
    match patch.area {
        Some(area) if !is_whole_sheet(&area) => Ok(Some(Orders::of(alloc, &[])?)),
        _ => match &patch.unprotected {
            Some(ranges) => Ok(Some(Orders::of(alloc, ranges.as_slice())?)),
            None => Ok(None),
        },
    }
}

/// The first of the lines that both bands have among `count`, and the one behind the last.
fn shared_lines(one: Band, other: Band, count: u32) -> (u32, u32)
    ensures { (line : ℕ) → IsBetween result line ↔ ((line < count) × HasLine one line × HasLine other line) }
{
    let end = one.end_line(count).min(other.end_line(count));
    (one.first_line().max(other.first_line()), end.min(count))
}
