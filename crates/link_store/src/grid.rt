ghost use Rattle.std.specs.Prelude.{◌≡◌, ◌+◌, ◌-◌, ◌*◌, ◌<◌, ◌≤◌, IfOk, OnOk, OnErr};
ghost use Rattle.grid_range.specs.Change.{Fits};
ghost use Rattle.cell_store.specs.Table.{empty_table, filled_places, most_lines};
ghost use Rattle.cell_store.specs.Moved.{GoesWithLines, IsRoomAfter, lines_on, size_after};

use crate::cells::Cells;
use cell_store::{Grid, held_by_rows, tables_by_items};
use cell_value::{Duplicate, Items, NoMemory, Steps};
use grid_range::{Area, Axis, Change};
use std::alloc::Global;
use std::marker::{Brand, Model};
use std::sync::ledger::{Blank, Ledger};

/// The cells of a sheet in lists: each item stands in the list of its row and in the list of its
/// column. A change of lines moves the lists of lines and touches no item that stays; the lists of
/// deleted lines are used again. A look-up, and a call that begins with one, walks the cells of its
/// row: a wide row costs as many steps as it has items. [`Grid::places`] walks the rows of its area or
/// its columns, and notes where each line of the other axis stands, whichever are fewer lines in all.
#[derive(Drop)]
pub struct LinkGrid<T> {
    alloc: Global,
    cells: Cells<T>,
}

impl<T> Model for LinkGrid<T> {
    ghost use Rattle.cell_store.specs.Kept.{KeptTable, kept_table_code};
    ghost use Rattle.link_store.specs.Crossings.{IsGrid, listed_table};

    ghost Value = { KeptTable T };

    ghost coded = { kept_table_code T.code };

    ghost view = { λ g. listed_table g.cells };

    ghost invariant = { λ g. IsGrid g.cells };
}

impl<T: Drop> LinkGrid<T> {
    ghost use Rattle.cell_store.specs.Kept.{ReusesLines};

    /// A sheet of that size with nothing in it.
    ///
    /// # Errors
    ///
    /// [`NoMemory`] where memory runs out.
    pub fn new(alloc: Global, rows: u32, cols: u32) -> Result<LinkGrid<T>, NoMemory>
        requires { rows + cols ≤ most_lines }
        ensures empty { IfOk result (λ grid. grid.table ≡ empty_table rows cols) }
        ensures lists { IfOk result (λ grid. (grid.kept_rows ≡ rows) × (grid.kept_columns ≡ cols)) }
    {
        tables_by_items::<T>();
        Ok(LinkGrid {
            alloc,
            cells: Cells::new(alloc, rows, cols, 0)?,
        })
    }

    /// [`Grid::change`], with its steps added: one for each number of a list that is written or moved
    /// in the vector of an axis's lines, and one for each counted call of [`Links`](crate::Links). They
    /// are at most twice the axis's lines before and twice those after, and two for each item that is
    /// dropped. That no number of a list is left out is shown by reading the code, and by no clause.
    ///
    /// # Errors
    ///
    /// [`NoMemory`] where memory runs out; the grid is as it was.
    pub fn change_counted<L: Ledger>(
        &mut self,
        axis: Axis,
        change: &Change,
        steps: &mut Steps<L>,
    ) -> Result<(), NoMemory>
        requires fits { Fits change.now (lines_on axis self.old.table.rows self.old.table.cols) }
        requires room { IsRoomAfter axis change.now self.old.table }
        ensures moved { OnOk result (GoesWithLines axis change.now self.old.table self.new.table) }
        ensures unchanged { OnErr result (self.new.table ≡ self.old.table) }
        ensures filled { filled_places self.new.table ≤ filled_places self.old.table }
        ensures lists { ReusesLines axis change.now self.old self.new }
        ensures steps { steps.new ≤ steps.old + 2 * lines_on axis self.old.table.rows self.old.table.cols
            + 2 * lines_on axis (size_after axis change.now self.old.table.rows self.old.table.cols).0
            (size_after axis change.now self.old.table.rows self.old.table.cols).1
            + 2 * (filled_places self.old.table - filled_places self.new.table) }
    {
        tables_by_items::<T>();
        self.cells.change(axis, change, steps)
    }

    /// The change, with steps on a ledger of its own.
    fn change_alone<L: Ledger>(
        &mut self,
        axis: Axis,
        change: &Change,
        blank: Blank,
    ) -> Result<(), NoMemory>
        requires name { blank.name ≡ L.name }
        requires parts { blank.parts ≡ L.parts }
        requires open { 0 < blank.parts }
        requires fits { Fits change.now (lines_on axis self.old.table.rows self.old.table.cols) }
        requires room { IsRoomAfter axis change.now self.old.table }
        ensures moved { OnOk result (GoesWithLines axis change.now self.old.table self.new.table) }
        ensures unchanged { OnErr result (self.new.table ≡ self.old.table) }
        ensures filled { filled_places self.new.table ≤ filled_places self.old.table }
        ensures lists { ReusesLines axis change.now self.old self.new }
    {
        let mut steps = Steps::<L>::new(blank);
        self.change_counted(axis, change, &mut steps)
    }
}

impl<T: Duplicate + Drop> Grid<T> for LinkGrid<T> {
    ghost use Rattle.cell_store.specs.Kept.{ReusesLines};

    ghost table = { λ g. g.table };

    fn rows(&self) -> u32 {
        self.cells.rows.count
    }

    fn cols(&self) -> u32 {
        self.cells.columns.count
    }

    fn get(&self, row: u32, column: u32) -> Option<&T> {
        tables_by_items::<T>();
        match self.cells.find(row, column) {
            Some(node) => Some(&self.cells.rows.links.item(node).item),
            None => None,
        }
    }

    fn get_mut(&mut self, row: u32, column: u32) -> Option<&mut T> {
        tables_by_items::<T>();
        match self.cells.find(row, column) {
            Some(node) => {
                let cell = self.cells.rows.links.item_mut(node);
                Some(&mut cell.item)
            }
            None => None,
        }
    }

    fn put(&mut self, row: u32, column: u32, item: T) -> Result<Option<T>, (T, NoMemory)> {
        tables_by_items::<T>();
        self.cells.put(row, column, item)
    }

    fn take(&mut self, row: u32, column: u32) -> Option<T> {
        tables_by_items::<T>();
        self.cells.take(row, column)
    }

    fn change(&mut self, axis: Axis, change: &Change) -> Result<(), NoMemory>
        requires fits { Fits change.now (lines_on axis self.old.table.rows self.old.table.cols) }
        requires room { IsRoomAfter axis change.now self.old.table }
        ensures moved { OnOk result (GoesWithLines axis change.now self.old.table self.new.table) }
        ensures filled { filled_places self.new.table ≤ filled_places self.old.table }
        ensures unchanged { OnErr result (self.new.table ≡ self.old.table) }
        ensures lists { ReusesLines axis change.now self.old self.new }
    {
        self.change_alone::<Brand>(axis, change, Blank::new(1))
    }

    fn places(&self, area: &Area) -> Result<Items<(u32, u32)>, NoMemory> {
        tables_by_items::<T>();
        let places = self.cells.places(self.alloc, area)?;
        Ok(held_by_rows(places, area))
    }

    fn filled(&self) -> u64 {
        tables_by_items::<T>();
        u64::from(self.cells.filled)
    }

    fn copy(&self) -> Result<LinkGrid<T>, NoMemory> {
        tables_by_items::<T>();
        Ok(LinkGrid {
            alloc: self.alloc,
            cells: self.cells.copy(self.alloc)?,
        })
    }
}
