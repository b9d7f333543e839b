ghost use Rattle.std.specs.Prelude.{◌≡◌, ℕ, IfOk, ◌+◌, ◌<◌, ◌≤◌};
ghost use Rattle.grid_range.specs.Band.{HasLine};
ghost use Rattle.grid_range.specs.Change.{Fits};
ghost use Rattle.cell_store.specs.Table.{empty_table, filled_places, most_lines};
ghost use Rattle.cell_store.specs.Moved.{GoesWithLines, lines_on, size_after, place_after};

use crate::grid::Grid;
use cell_value::{Duplicate, Items, NoMemory};
use grid_range::{Area, Axis, Band, Change, place, places_stay_apart, places_stay_below};
use std::alloc::Global;
use std::collections::BTreeMap;
use std::marker::Model;

/// The cells of a sheet in a tree, by rows.
#[derive(Drop)]
pub struct TreeGrid<T> {
    alloc: Global,
    rows: u32,
    cols: u32,
    items: BTreeMap<(u32, u32), T>,
}

impl<T> Model for TreeGrid<T> {
    ghost use Rattle.cell_store.specs.Table.{Table, table_code};
    ghost use Rattle.cell_store.specs.Entries.{HasEntriesInside, table_of};

    ghost Value = { Table T };

    ghost coded = { table_code T.code };

    ghost view = { λ g. table_of g.rows g.cols g.items.entries };

    ghost invariant = { λ g. HasEntriesInside g.rows g.cols g.items.entries };
}

impl<T> TreeGrid<T> {
    /// A sheet of that size with nothing in it. It takes no memory.
    pub fn new(alloc: Global, rows: u32, cols: u32) -> TreeGrid<T>
        requires { rows + cols ≤ most_lines }
        ensures { result ≡ empty_table rows cols }
    {
        TreeGrid {
            alloc,
            rows,
            cols,
            items: BTreeMap::new(alloc),
        }
    }
}

impl<T: Duplicate + Drop> TreeGrid<T> {
    /// The grid after the change, with copies of the items that stay.
    fn moved(&self, axis: Axis, change: &Change) -> Result<TreeGrid<T>, NoMemory>
        requires { Fits change.now (lines_on axis self.now.rows self.now.cols) }
        ensures moved { IfOk result (GoesWithLines axis change.now self.now) }
        ensures filled { IfOk result (λ moved. filled_places moved ≤ filled_places self.now) }
    {
        places_stay_apart();
        places_stay_below();
        let mut items = BTreeMap::new(self.alloc);
        for (place, item) in &self.items {
            if let Some(now) = place_after(axis, change, (self.rows, self.cols), *place) {
                items.insert(now, item.duplicate()?)?;
            }
        }
        let (rows, cols) = size_after(axis, change, self.rows, self.cols);
        Ok(TreeGrid {
            alloc: self.alloc,
            rows,
            cols,
            items,
        })
    }
}

impl<T: Duplicate + Drop> Grid<T> for TreeGrid<T> {
    ghost table = { λ g. g };

    fn rows(&self) -> u32 {
        self.rows
    }

    fn cols(&self) -> u32 {
        self.cols
    }

    fn get(&self, row: u32, column: u32) -> Option<&T> {
        self.items.get(&(row, column))
    }

    fn get_mut(&mut self, row: u32, column: u32) -> Option<&mut T> {
        self.items.get_mut(&(row, column))
    }

    fn put(&mut self, row: u32, column: u32, item: T) -> Result<Option<T>, (T, NoMemory)> {
        match self.items.insert((row, column), item) {
            Ok(old) => Ok(old),
            Err(failed) => Err((failed.value.1, NoMemory)),
        }
    }

    fn take(&mut self, row: u32, column: u32) -> Option<T> {
        self.items.remove(&(row, column))
    }

    fn change(&mut self, axis: Axis, change: &Change) -> Result<(), NoMemory> {
        *self = self.moved(axis, change)?;
        Ok(())
    }

    fn places(&self, area: &Area) -> Result<Items<(u32, u32)>, NoMemory> {
        let (start, end) = row_ends(area.rows, self.rows);
        let mut places = Vec::new(self.alloc);
        for (place, _) in self.items.range((start, 0)..(start.max(end), 0)) {
            if area.holds(place.0, place.1) {
                places.push(*place)?;
            }
        }
        Ok(Items::of(places))
    }

    fn filled(&self) -> u64 {
        self.items.len() as u64
    }

    fn copy(&self) -> Result<TreeGrid<T>, NoMemory> {
        let mut items = BTreeMap::new(self.alloc);
        for (place, item) in &self.items {
            items.insert(*place, item.duplicate()?)?;
        }
        Ok(TreeGrid { items, ..*self })
    }
}

/// The first of the band's rows and the one past its last, where there are `count`.
fn row_ends(band: Band, count: u32) -> (u32, u32)
    ensures { (row : ℕ) → row < count → HasLine band row → (result.0 ≤ row) × (row < result.1) }
{
    match band {
        Band::Whole => (0, count),
        Band::From(start) => (start, count),
        Band::Span(start, end) => (start, end),
    }
}

/// How many rows and columns there are after the change.
pub(crate) fn size_after(axis: Axis, change: &Change, rows: u32, cols: u32) -> (u32, u32)
    requires { Fits change.now (lines_on axis rows cols) }
    ensures { result ≡ size_after axis change.now rows cols }
{
    match axis {
        Axis::Rows => (change.lines_after(rows), cols),
        Axis::Columns => (rows, change.lines_after(cols)),
    }
}

/// Where the place of a sheet of that size is after the change; None where its line is deleted.
pub(crate) fn place_after(
    axis: Axis,
    change: &Change,
    size: (u32, u32),
    from: (u32, u32),
) -> Option<(u32, u32)>
    requires fits { Fits change.now (lines_on axis size.0 size.1) }
    requires there { (from.0 < size.0) × (from.1 < size.1) }
    ensures { result ≡ place_after axis change.now from.0 from.1 }
{
    let (row, col) = from;
    match axis {
        Axis::Rows => place(change, size.0, row).map(|line| (line, col)),
        Axis::Columns => place(change, size.1, col).map(|line| (row, line)),
    }
}
