ghost use Rattle.std.specs.Prelude.{◌≡◌, ℕ, ◌+◌, ◌-◌, ◌*◌, ◌<◌, ◌≤◌, [], if◌then◌else◌, length};
ghost use Rattle.cell_store.specs.Moved.{lines_on};
ghost use Rattle.link_store.specs.Lists.{entries_of};
ghost use Rattle.link_store.specs.Lines.{list_of};
ghost use Rattle.link_store.specs.Crossings.{IsGrid, LosesFirst, LosesItems};
ghost use Rattle.grid_range.specs.declared.axis.Axis.TheVariants.{Rows, Columns};

use crate::cells::Cells;
use cell_value::Steps;
use grid_range::Axis;
use std::sync::ledger::Ledger;

impl<T: Drop> Cells<T> {
    /// Drops the first item in a row's list, and tells whether there was one.
    fn drop_in_row<L: Ledger>(&mut self, list: u32, steps: &mut Steps<L>) -> bool
        requires grid { IsGrid self.old }
        requires list { list < length self.old.rows.links }
        ensures grid { IsGrid self.new }
        ensures lost { LosesFirst Rows list self.old self.new result }
        ensures few { self.new.filled ≤ self.old.filled }
        ensures steps { steps.new + 2 * self.new.filled ≤ steps.old + 2 * self.old.filled + (if result then 0 else 1) }
    {
        match self.rows.links.take_first_counted(list, steps) {
            Some((_, cell)) => {
                self.columns.links.unlink_counted(cell.column_node, steps);
                self.filled -= 1;
                true
            }
            None => false,
        }
    }

    /// Drops the first item in a column's list, and tells whether there was one.
    fn drop_in_column<L: Ledger>(&mut self, list: u32, steps: &mut Steps<L>) -> bool
        requires grid { IsGrid self.old }
        requires list { list < length self.old.columns.links }
        ensures grid { IsGrid self.new }
        ensures lost { LosesFirst Columns list self.old self.new result }
        ensures few { self.new.filled ≤ self.old.filled }
        ensures steps { steps.new + 2 * self.new.filled ≤ steps.old + 2 * self.old.filled + (if result then 0 else 1) }
    {
        match self.columns.links.take_first_counted(list, steps) {
            Some((_, link)) => {
                self.rows.links.unlink_counted(link.row_node, steps);
                self.filled -= 1;
                true
            }
            None => false,
        }
    }

    /// Drops the items of the row.
    fn empty_row<L: Ledger>(&mut self, row: u32, steps: &mut Steps<L>)
        requires grid { IsGrid self.old }
        requires there { row < self.old.rows.count }
        ensures grid { IsGrid self.new }
        ensures lost { LosesItems Rows row (row + 1) self.old self.new }
        ensures few { self.new.filled ≤ self.old.filled }
        ensures steps { steps.new + 2 * self.new.filled ≤ steps.old + 2 * self.old.filled + 1 }
    {
        let list = self.rows.list(row);
        while self.drop_in_row(list, steps) {}
    }

    /// Drops the items of the column.
    fn empty_column<L: Ledger>(&mut self, column: u32, steps: &mut Steps<L>)
        requires grid { IsGrid self.old }
        requires there { column < self.old.columns.count }
        ensures grid { IsGrid self.new }
        ensures lost { LosesItems Columns column (column + 1) self.old self.new }
        ensures few { self.new.filled ≤ self.old.filled }
        ensures steps { steps.new + 2 * self.new.filled ≤ steps.old + 2 * self.old.filled + 1 }
    {
        let list = self.columns.list(column);
        while self.drop_in_column(list, steps) {}
    }

    /// Drops the items of the lines from `start` to `end - 1`.
    pub(crate) fn empty_lines<L: Ledger>(
        &mut self,
        axis: Axis,
        start: u32,
        end: u32,
        steps: &mut Steps<L>,
    )
        requires grid { IsGrid self.old }
        requires there { (start ≤ end) × (end ≤ lines_on axis self.old.rows.count self.old.columns.count) }
        ensures grid { IsGrid self.new }
        ensures lost { LosesItems axis start end self.old self.new }
        ensures few { self.new.filled ≤ self.old.filled }
        ensures steps { steps.new + 2 * self.new.filled ≤ steps.old + 2 * self.old.filled + (end - start) }
    {
        for line in start..end {
            match axis {
                Axis::Rows => self.empty_row(line, steps),
                Axis::Columns => self.empty_column(line, steps),
            }
        }
    }
}
