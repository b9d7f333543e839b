ghost use Rattle.std.specs.Prelude.{◌≡◌, ◌<◌, ◌≤◌, None, IfOk, OnOk, OnErr, IfErr};
ghost use Rattle.std.specs.Option.{option_copied};
ghost use Rattle.cell_store.specs.Table.{Table, item_at, filled_places, most_filled, HasPlace, HasItemsInside};
ghost use Rattle.cell_store.specs.Table.{with_item, without_item};
ghost use Rattle.grid_range.specs.Change.{Fits};
ghost use Rattle.cell_store.specs.Moved.{GoesWithLines, IsRoomAfter, lines_on};
ghost use Rattle.cell_store.specs.Places.{AreFilledPlaces};

use crate::grid::Grid;
use crate::tree::TreeGrid;
use cell_value::{Duplicate, Items, NoMemory};
use grid_range::{Area, Axis, Change};

/// What a sheet asks of its cells: a [`Grid`] in which each write may want memory, as it does where
/// copies share what they hold.
pub trait CellStore<T: Duplicate> {
    /// The sheet's size and its items.
    ghost table: { Self → Table T };

    /// How many rows the sheet has.
    fn rows(&self) -> u32
        ensures { result ≡ (table self.now).rows };

    /// How many columns the sheet has.
    fn cols(&self) -> u32
        ensures { result ≡ (table self.now).cols };

    /// The item at the place, lent; None where it holds none.
    fn get(&self, row: u32, column: u32) -> Option<&T>
        ensures item { option_copied result ≡ item_at (table self.now) row column }
        ensures inside { HasItemsInside (table self.now) };

    /// Puts the item at the place, and gives the one that was there.
    ///
    /// # Errors
    ///
    /// [`NoMemory`] with the item where memory runs out; the cells are as they were.
    fn put(&mut self, row: u32, column: u32, item: T) -> Result<Option<T>, (T, NoMemory)>
        requires inside { HasPlace (table self.old) row column }
        requires room { item_at (table self.old) row column ≡ None → filled_places (table self.old) < most_filled }
        ensures old { IfOk result (λ old. old ≡ item_at (table self.old) row column) }
        ensures put { OnOk result (table self.new ≡ with_item (table self.old) row column item) }
        ensures back { IfErr result (λ refused. refused.0 ≡ item) }
        ensures unchanged { OnErr result (table self.new ≡ table self.old) };

    /// Takes the item out of the place; None where it holds none.
    ///
    /// # Errors
    ///
    /// [`NoMemory`] where memory runs out; the cells are as they were.
    fn take(&mut self, row: u32, column: u32) -> Result<Option<T>, NoMemory>
        ensures item { IfOk result (λ item. item ≡ item_at (table self.old) row column) }
        ensures taken { OnOk result (table self.new ≡ without_item (table self.old) row column) }
        ensures unchanged { OnErr result (table self.new ≡ table self.old) };

    /// Makes the change of the rows or of the columns. Each item goes with its line, and the items of
    /// deleted lines are dropped.
    ///
    /// # Errors
    ///
    /// [`NoMemory`] where memory runs out; the cells are as they were.
    fn change(&mut self, axis: Axis, change: &Change) -> Result<(), NoMemory>
        requires fits { Fits change.now (lines_on axis (table self.old).rows (table self.old).cols) }
        requires room { IsRoomAfter axis change.now (table self.old) }
        ensures moved { OnOk result (GoesWithLines axis change.now (table self.old) (table self.new)) }
        ensures filled { filled_places (table self.new) ≤ filled_places (table self.old) }
        ensures unchanged { OnErr result (table self.new ≡ table self.old) };

    /// The filled places of the area, by rows. The sheet of the area isn't looked at.
    ///
    /// # Errors
    ///
    /// [`NoMemory`] where memory runs out.
    fn places(&self, area: &Area) -> Result<Items<(u32, u32)>, NoMemory>
        ensures { IfOk result (AreFilledPlaces area.now (table self.now)) };

    /// How many places are filled.
    fn filled(&self) -> u64
        ensures { result ≡ filled_places (table self.now) };

    /// Cells of the same size with copies of the items.
    ///
    /// # Errors
    ///
    /// [`NoMemory`] where memory runs out.
    fn copy(&self) -> Result<Self, NoMemory>
        ensures { IfOk result (λ copy. table copy ≡ table self.now) };
}

impl<T: Duplicate + Drop> CellStore<T> for TreeGrid<T> {
    ghost table = { λ grid. grid };

    fn rows(&self) -> u32 {
        Grid::rows(self)
    }

    fn cols(&self) -> u32 {
        Grid::cols(self)
    }

    fn get(&self, row: u32, column: u32) -> Option<&T> {
        Grid::get(self, row, column)
    }

    fn put(&mut self, row: u32, column: u32, item: T) -> Result<Option<T>, (T, NoMemory)> {
        Grid::put(self, row, column, item)
    }

    fn take(&mut self, row: u32, column: u32) -> Result<Option<T>, NoMemory> {
        Ok(Grid::take(self, row, column))
    }

    fn change(&mut self, axis: Axis, change: &Change) -> Result<(), NoMemory> {
        Grid::change(self, axis, change)?;
        Ok(())
    }

    fn places(&self, area: &Area) -> Result<Items<(u32, u32)>, NoMemory> {
        Grid::places(self, area)
    }

    fn filled(&self) -> u64 {
        Grid::filled(self)
    }

    fn copy(&self) -> Result<TreeGrid<T>, NoMemory> {
        Grid::copy(self)
    }
}
