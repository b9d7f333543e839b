use crate::grid::LinkGrid;
use cell_store::{CellStore, Grid};
use cell_value::{Duplicate, Items, NoMemory};
use grid_range::{Area, Axis, Change};

impl<T: Duplicate + Drop> CellStore<T> for LinkGrid<T> {
    ghost table = { λ grid. grid.table };

    fn rows(&self) -> u32 {
        Grid::rows(self)
    }

    fn cols(&self) -> u32 {
        Grid::cols(self)
    }

    fn get(&self, row: u32, column: u32) -> Option<&T> {
        Grid::get(self, row, column)
    }

    fn put(&mut self, row: u32, column: u32, item: T) -> Result<Option<T>, (T, NoMemory)> {
        Grid::put(self, row, column, item)
    }

    fn take(&mut self, row: u32, column: u32) -> Result<Option<T>, NoMemory> {
        Ok(Grid::take(self, row, column))
    }

    fn change(&mut self, axis: Axis, change: &Change) -> Result<(), NoMemory> {
        Grid::change(self, axis, change)?;
        Ok(())
    }

    fn places(&self, area: &Area) -> Result<Items<(u32, u32)>, NoMemory> {
        Grid::places(self, area)
    }

    fn filled(&self) -> u64 {
        Grid::filled(self)
    }

    fn copy(&self) -> Result<LinkGrid<T>, NoMemory> {
        Grid::copy(self)
    }
}
