ghost use Rattle.std.specs.Prelude.{ℕ, ◌≡◌, ◌<◌, ◌+◌, length, Some, None, IfSome, IfNone, IfOk, IfErr, OnOk, OnErr};
ghost use Rattle.std.specs.Prelude.{Contains};
ghost use Rattle.cell_store.specs.Entries.{entry_at};
ghost use Rattle.link_store.specs.Lists.{entries_of, IsLive};
ghost use Rattle.link_store.specs.Crossings.{IsGrid, IsCellAt, ChangesAt, HasSameItems, HasSameSize, sheet_items};

use crate::lines::Lines;
use cell_value::NoMemory;

/// An item in the list of its row, with the list of its column and its node there.
#[derive(Drop)]
pub(crate) struct Cell<T> {
    pub(crate) item: T,
    pub(crate) column: u32,
    pub(crate) column_node: u32,
}

/// A cell in the list of its column: the list of its row and its node there.
#[derive(Clone, Copy)]
pub(crate) struct Link {
    pub(crate) row: u32,
    pub(crate) row_node: u32,
}

/// The rows and the columns of a sheet: each item stands in a list of either.
#[derive(Drop)]
pub(crate) struct Cells<T> {
    pub(crate) rows: Lines<Cell<T>>,
    pub(crate) columns: Lines<Link>,
    pub(crate) filled: u32,
}

impl<T> Cells<T> {
    /// The node of the cell at the place, in the list of its row; None where there is none.
    pub(crate) fn find(&self, row: u32, column: u32) -> Option<u32>
        requires { IsGrid self.now }
        ensures found { IfSome result (λ node. (cell : Cell T) × IsCellAt self.now row column node cell) }
        ensures missed { IfNone result ((node : ℕ) (cell : Cell T) → IsCellAt self.now row column node cell → ⊥) }
    {
        if row >= self.rows.count || column >= self.columns.count {
            return None;
        }
        find_in(&self.rows, self.rows.list(row), self.columns.list(column))
    }

    /// Puts the item at the place, and gives the one that was there.
    ///
    /// # Errors
    ///
    /// [`NoMemory`] with the item where memory runs out; the cells are as they were. It never comes
    /// where the place holds an item.
    pub(crate) fn put(&mut self, row: u32, column: u32, item: T) -> Result<Option<T>, (T, NoMemory)>
        requires grid { IsGrid self.old }
        requires there { (row < self.old.rows.count) × (column < self.old.columns.count) }
        ensures grid { IsGrid self.new }
        ensures size { HasSameSize self.old self.new }
        ensures old { IfOk result (λ old. old ≡ entry_at (sheet_items self.old) (row, column)) }
        ensures put { OnOk result (ChangesAt (sheet_items self.old) (sheet_items self.new) (row, column) (Some item)) }
        ensures back { IfErr result (λ refused. refused.0 ≡ item) }
        ensures unchanged { OnErr result (HasSameItems self.old self.new) }
        ensures was_empty { OnErr result (entry_at (sheet_items self.old) (row, column) ≡ None) }
    {
        match self.find(row, column) {
            Some(node) => Ok(Some(self.replace(node, item))),
            None => match self.add(row, column, item) {
                Ok(()) => Ok(None),
                Err(refused) => Err(refused),
            },
        }
    }

    /// Takes the item out of the place; None where it holds none.
    pub(crate) fn take(&mut self, row: u32, column: u32) -> Option<T>
        requires grid { IsGrid self.old }
        ensures grid { IsGrid self.new }
        ensures size { HasSameSize self.old self.new }
        ensures item { result ≡ entry_at (sheet_items self.old) (row, column) }
        ensures taken { ChangesAt (sheet_items self.old) (sheet_items self.new) (row, column) None }
    {
        match self.find(row, column) {
            Some(node) => Some(self.remove(node)),
            None => None,
        }
    }

    /// Puts the item in place of the cell's, and gives that one.
    fn replace(&mut self, node: u32, item: T) -> T
        requires grid { IsGrid self.old }
        requires live { IsLive self.old.rows.links node }
        ensures grid { IsGrid self.new }
        ensures size { HasSameSize self.old self.new }
        ensures old { (row column : ℕ) (cell : Cell T) → IsCellAt self.old row column node cell → result ≡ cell.item }
        ensures put { (row column : ℕ) (cell : Cell T) → IsCellAt self.old row column node cell
            → ChangesAt (sheet_items self.old) (sheet_items self.new) (row, column) (Some item) }
    {
        let cell = self.rows.links.item(node);
        let cell = Cell {
            item,
            column: cell.column,
            column_node: cell.column_node,
        };
        self.rows.links.replace(node, cell).item
    }

    /// Adds the item at a place that holds none.
    ///
    /// # Errors
    ///
    /// [`NoMemory`] with the item where memory runs out, or there are as many items as a `u32` counts;
    /// the cells are as they were.
    pub(crate) fn add(&mut self, row: u32, column: u32, item: T) -> Result<(), (T, NoMemory)>
        requires grid { IsGrid self.old }
        requires there { (row < self.old.rows.count) × (column < self.old.columns.count) }
        requires empty { (node : ℕ) (cell : Cell T) → IsCellAt self.old row column node cell → ⊥ }
        ensures grid { IsGrid self.new }
        ensures size { HasSameSize self.old self.new }
        ensures put { OnOk result (ChangesAt (sheet_items self.old) (sheet_items self.new) (row, column) (Some item)) }
        ensures back { IfErr result (λ refused. refused.0 ≡ item) }
        ensures unchanged { OnErr result (HasSameItems self.old self.new) }
    {
        if self.filled == u32::MAX {
            return Err((item, NoMemory));
        }
        let link = Link {
            row: self.rows.list(row),
            row_node: 0,
        };
        let column = self.columns.list(column);
        let column_node = match self.columns.links.push(column, link) {
            Ok(node) => node,
            Err((_, fault)) => return Err((item, fault)),
        };
        let cell = Cell {
            item,
            column,
            column_node,
        };
        match self.rows.links.push(link.row, cell) {
            Ok(row_node) => {
                self.columns
                    .links
                    .replace(column_node, Link { row_node, ..link });
                self.filled += 1;
                Ok(())
            }
            Err((cell, fault)) => {
                self.columns.links.unlink(column_node);
                Err((cell.item, fault))
            }
        }
    }

    /// Takes the cell out of the list of its row and of that of its column, and gives its item.
    fn remove(&mut self, node: u32) -> T
        requires grid { IsGrid self.old }
        requires live { IsLive self.old.rows.links node }
        ensures grid { IsGrid self.new }
        ensures size { HasSameSize self.old self.new }
        ensures item { (row column : ℕ) (cell : Cell T) → IsCellAt self.old row column node cell → result ≡ cell.item }
        ensures taken { (row column : ℕ) (cell : Cell T) → IsCellAt self.old row column node cell
            → ChangesAt (sheet_items self.old) (sheet_items self.new) (row, column) None }
    {
        let cell = self.rows.links.unlink(node);
        self.columns.links.unlink(cell.column_node);
        self.filled -= 1;
        cell.item
    }
}

/// The node of the first cell of a row's list that is in the column's list.
fn find_in<T>(rows: &Lines<Cell<T>>, list: u32, column: u32) -> Option<u32>
    requires { list < length rows.now.links }
    ensures found { IfSome result (λ node. (cell : Cell T)
        × Contains (entries_of rows.now.links list) (node, cell) × (cell.column ≡ column)) }
    ensures missed { IfNone result ((node : ℕ) (cell : Cell T)
        → Contains (entries_of rows.now.links list) (node, cell) → cell.column ≡ column → ⊥) }
{
    for (node, cell) in rows.links.entries(list) {
        if cell.column == column {
            return Some(node);
        }
    }
    None
}
