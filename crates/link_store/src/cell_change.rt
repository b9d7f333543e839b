ghost use Rattle.std.specs.Prelude.{◌≡◌, ℕ, ◌+◌, ◌*◌, ◌≤◌, OnOk, OnErr};
ghost use Rattle.grid_range.specs.Change.{Fits};
ghost use Rattle.cell_store.specs.Table.{most_lines};
ghost use Rattle.cell_store.specs.Moved.{lines_on, size_after};
ghost use Rattle.link_store.specs.Lines.{IsInsertion};
ghost use Rattle.link_store.specs.Crossings.{IsGrid, GoesAlong, HasDeletedEmpty, HasSameItems, HasSameSize};
ghost use Rattle.link_store.specs.Crossings.{KeepsItems, TakesListsAgain};

use crate::cells::Cells;
use cell_value::{NoMemory, Steps};
use grid_range::{Axis, Change, places_stay_below};
use std::sync::ledger::Ledger;

impl<T: Drop> Cells<T> {
    /// Makes the change of the rows or of the columns: each item goes with its line, and the items of
    /// deleted lines are dropped.
    ///
    /// # Errors
    ///
    /// [`NoMemory`] where memory runs out; the cells are as they were.
    pub(crate) fn change<L: Ledger>(
        &mut self,
        axis: Axis,
        change: &Change,
        steps: &mut Steps<L>,
    ) -> Result<(), NoMemory>
        requires grid { IsGrid self.old }
        requires fits { Fits change.now (lines_on axis self.old.rows.count self.old.columns.count) }
        requires room { (size_after axis change.now self.old.rows.count self.old.columns.count).0
            + (size_after axis change.now self.old.rows.count self.old.columns.count).1 ≤ most_lines }
        ensures grid { IsGrid self.new }
        ensures few { self.new.filled ≤ self.old.filled }
        ensures lists { TakesListsAgain axis change.now self.old self.new }
        ensures moved { OnOk result (GoesAlong axis change.now self.old self.new) }
        ensures size { OnErr result (HasSameSize self.old self.new) }
        ensures unchanged { OnErr result (HasSameItems self.old self.new) }
        ensures steps { steps.new + 2 * self.new.filled ≤ steps.old + 2 * self.old.filled
            + 2 * lines_on axis self.old.rows.count self.old.columns.count
            + 2 * lines_on axis (size_after axis change.now self.old.rows.count self.old.columns.count).0
            (size_after axis change.now self.old.rows.count self.old.columns.count).1 }
    {
        self.drop_deleted(axis, change, steps);
        self.move_lines(axis, change, steps)
    }

    /// Drops the items of the lines that the change deletes.
    fn drop_deleted<L: Ledger>(&mut self, axis: Axis, change: &Change, steps: &mut Steps<L>)
        requires grid { IsGrid self.old }
        requires fits { Fits change.now (lines_on axis self.old.rows.count self.old.columns.count) }
        ensures grid { IsGrid self.new }
        ensures few { self.new.filled ≤ self.old.filled }
        ensures kept { KeepsItems axis change.now self.old self.new }
        ensures deleted { HasDeletedEmpty axis change.now self.new }
        ensures steps { steps.new + 2 * self.new.filled ≤ steps.old + 2 * self.old.filled
            + lines_on axis self.old.rows.count self.old.columns.count }
    {
        match *change {
            Change::Insert { .. } | Change::Move { .. } => {}
            Change::Delete { start, end } => self.empty_lines(axis, start, end, steps),
        }
    }

    /// Moves the lists of lines, and no item.
    fn move_lines<L: Ledger>(
        &mut self,
        axis: Axis,
        change: &Change,
        steps: &mut Steps<L>,
    ) -> Result<(), NoMemory>
        requires grid { IsGrid self.old }
        requires fits { Fits change.now (lines_on axis self.old.rows.count self.old.columns.count) }
        requires room { (size_after axis change.now self.old.rows.count self.old.columns.count).0
            + (size_after axis change.now self.old.rows.count self.old.columns.count).1 ≤ most_lines }
        requires deleted { HasDeletedEmpty axis change.now self.old }
        ensures grid { IsGrid self.new }
        ensures only { OnErr result (IsInsertion change.now) }
        ensures filled { self.new.filled ≡ self.old.filled }
        ensures lists { TakesListsAgain axis change.now self.old self.new }
        ensures moved { OnOk result (GoesAlong axis change.now self.old self.new) }
        ensures size { OnErr result (HasSameSize self.old self.new) }
        ensures unchanged { OnErr result (HasSameItems self.old self.new) }
        ensures steps { steps.new ≤ steps.old + lines_on axis self.old.rows.count self.old.columns.count
            + 2 * lines_on axis (size_after axis change.now self.old.rows.count self.old.columns.count).0
            (size_after axis change.now self.old.rows.count self.old.columns.count).1 }
    {
        places_stay_below();
        match axis {
            Axis::Rows => self.rows.change(change, steps),
            Axis::Columns => self.columns.change(change, steps),
        }
    }
}
