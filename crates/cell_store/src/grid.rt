ghost use Rattle.std.specs.Prelude.{◌≡◌, ◌<◌, ◌≤◌, None, IfOk, OnOk, OnErr, IfErr, OnSome};
ghost use Rattle.std.specs.Option.{option_copied, option_copied_mut};
ghost use Rattle.std.specs.Borrow.{sem, LendsSo};
ghost use Rattle.cell_store.specs.Table.{Table, item_at, filled_places, most_filled, HasPlace, HasItemsInside};
ghost use Rattle.cell_store.specs.Table.{with_item, without_item};
ghost use Rattle.grid_range.specs.Change.{Fits};
ghost use Rattle.cell_store.specs.Moved.{GoesWithLines, IsRoomAfter, lines_on};
ghost use Rattle.cell_store.specs.Places.{AreFilledPlaces};

use cell_value::{Duplicate, Items, NoMemory};
use grid_range::{Area, Axis, Change};

/// How many rows and columns together a sheet can have.
pub const MOST_LINES: u32 = 2_000_000_000;

/// With fewer filled places an item can be put at an empty one.
pub const MOST_FILLED: u64 = 1_000_000_000;

/// The cells of a sheet: its numbers of rows and columns, and a finite map from places, which are
/// rows and columns counted from 0, to items (Sheets API v4 reference, GridData).
pub trait Grid<T: Duplicate> {
    /// The sheet's size and its items.
    ghost table: { Self → Table T };

    /// How many rows the sheet has.
    fn rows(&self) -> u32
        ensures { result ≡ (table self.now).rows };

    /// How many columns the sheet has.
    fn cols(&self) -> u32
        ensures { result ≡ (table self.now).cols };

    /// The item at the place, lent; None where it holds none.
    fn get(&self, row: u32, column: u32) -> Option<&T>
        ensures item { option_copied result ≡ item_at (table self.now) row column }
        ensures inside { HasItemsInside (table self.now) };

    /// The item at the place, lent to be changed there, which takes no memory; None where it holds
    /// none. The place has afterwards what the borrower left, and each other place what it had.
    fn get_mut(&mut self, row: u32, column: u32) -> Option<&mut T>
        ensures* writes_back { sem 𝓛 (LendsSo Self.row T.row self.entry result
            (λ after item. OnSome result (table after ≡ with_item (table self.old) row column item))
            (λ after. table after ≡ table self.old)) }
        ensures item { option_copied_mut result ≡ item_at (table self.old) row column };

    /// Puts the item at the place, and gives the one that was there.
    ///
    /// # Errors
    ///
    /// [`NoMemory`] with the item where memory runs out; the grid is as it was. It never comes where
    /// the place holds an item.
    fn put(&mut self, row: u32, column: u32, item: T) -> Result<Option<T>, (T, NoMemory)>
        requires inside { HasPlace (table self.old) row column }
        requires room { item_at (table self.old) row column ≡ None → filled_places (table self.old) < most_filled }
        ensures old { IfOk result (λ old. old ≡ item_at (table self.old) row column) }
        ensures put { OnOk result (table self.new ≡ with_item (table self.old) row column item) }
        ensures back { IfErr result (λ refused. refused.0 ≡ item) }
        ensures unchanged { OnErr result (table self.new ≡ table self.old) }
        ensures was_empty { OnErr result (item_at (table self.old) row column ≡ None) };

    /// Takes the item out of the place, which takes no memory; None where it holds none.
    fn take(&mut self, row: u32, column: u32) -> Option<T>
        ensures item { result ≡ item_at (table self.old) row column }
        ensures taken { table self.new ≡ without_item (table self.old) row column };

    /// Makes the change of the rows or of the columns. Each item goes with its line, and the items of
    /// deleted lines are dropped.
    ///
    /// # Errors
    ///
    /// [`NoMemory`] where memory runs out; the grid is as it was.
    fn change(&mut self, axis: Axis, change: &Change) -> Result<(), NoMemory>
        requires fits { Fits change.now (lines_on axis (table self.old).rows (table self.old).cols) }
        requires room { IsRoomAfter axis change.now (table self.old) }
        ensures moved { OnOk result (GoesWithLines axis change.now (table self.old) (table self.new)) }
        ensures filled { filled_places (table self.new) ≤ filled_places (table self.old) }
        ensures unchanged { OnErr result (table self.new ≡ table self.old) };

    /// The filled places of the area, by rows. The sheet of the area isn't looked at.
    ///
    /// # Errors
    ///
    /// [`NoMemory`] where memory runs out.
    fn places(&self, area: &Area) -> Result<Items<(u32, u32)>, NoMemory>
        ensures { IfOk result (AreFilledPlaces area.now (table self.now)) };

    /// How many places are filled.
    fn filled(&self) -> u64
        ensures { result ≡ filled_places (table self.now) };

    /// A grid of the same size with copies of the items.
    ///
    /// # Errors
    ///
    /// [`NoMemory`] where memory runs out.
    fn copy(&self) -> Result<Self, NoMemory>
        ensures { IfOk result (λ copy. table copy ≡ table self.now) };
}
