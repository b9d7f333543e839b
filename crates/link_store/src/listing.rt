ghost use Rattle.std.specs.Prelude.{◌≡◌, ℕ, ◌+◌, ◌<◌, ◌≤◌, None, length, slice_set, IfOk, OnOk};
ghost use Rattle.cell_store.specs.Entries.{entry_at};
ghost use Rattle.cell_store.specs.Table.{most_lines};
ghost use Rattle.grid_range.specs.Band.{HasLine};
ghost use Rattle.grid_range.specs.declared.axis.Axis.TheVariants.{Rows, Columns};
ghost use Rattle.link_store.specs.Lists.{entries_of};
ghost use Rattle.link_store.specs.Lines.{AreLines, ArePositions};
ghost use Rattle.link_store.specs.Crossings.{IsGrid, ArePlacesOn, HasFirstRows, HasPlacesOf, HasSameItems};
ghost use Rattle.link_store.specs.Crossings.{HasSameSize, sheet_items};

use crate::cells::Cells;
use crate::lines::Lines;
use cell_value::{Duplicate, NoMemory};
use grid_range::{Area, Band};
use std::alloc::Global;

impl<E> Lines<E> {
    /// The place of each line, by the number of its list.
    fn positions(&self, alloc: Global) -> Result<Vec<u32>, NoMemory>
        requires { AreLines self.now }
        ensures { IfOk result (λ positions. ArePositions self.now positions.items) }
    {
        let mut positions = vec![in alloc; 0; self.lists.len()]?;
        for line in 0..self.count {
            set(&mut positions, self.list(line), line);
        }
        Ok(positions)
    }
}

fn set(positions: &mut Vec<u32>, list: u32, line: u32)
    requires { list < length positions.old.items }
    ensures { positions.new.items ≡ slice_set positions.old.items list line }
{
    positions[list as usize] = line;
}

/// The first of the band's lines and the one past its last, among `count`.
fn lines_of(band: Band, count: u32) -> (u32, u32)
    ensures order { (result.0 ≤ result.1) × (result.1 ≤ count) }
    ensures lines { (line : ℕ) → line < count → HasLine band line → (result.0 ≤ line) × (line < result.1) }
{
    let end = band.end_line(count).min(count);
    (band.first_line().min(end), end)
}

impl<T> Cells<T> {
    /// The places of the cells on the lines of the area, of its rows or of its columns: the side is
    /// taken that has fewer lines to walk, with the lines whose places it notes. The filled places of
    /// the area are among them.
    pub(crate) fn places(&self, alloc: Global, area: &Area) -> Result<Vec<(u32, u32)>, NoMemory>
        requires { IsGrid self.now }
        ensures { IfOk result (λ places. HasPlacesOf self.now area.now places.items) }
    {
        let rows = lines_of(area.rows, self.rows.count);
        let columns = lines_of(area.cols, self.columns.count);
        let by_rows = rows.1 - rows.0 + self.columns.count;
        let by_columns = columns.1 - columns.0 + self.rows.count;
        if by_rows <= by_columns {
            self.places_on_rows(alloc, rows.0, rows.1)
        } else {
            self.places_on_columns(alloc, columns.0, columns.1)
        }
    }

    /// The places of the cells on the rows from `start` to `end - 1`.
    fn places_on_rows(
        &self,
        alloc: Global,
        start: u32,
        end: u32,
    ) -> Result<Vec<(u32, u32)>, NoMemory>
        requires grid { IsGrid self.now }
        requires there { (start ≤ end) × (end ≤ self.now.rows.count) }
        ensures { IfOk result (λ places. ArePlacesOn Rows start end self.now places.items) }
    {
        let columns = self.columns.positions(alloc)?;
        let mut places = Vec::new(alloc);
        for row in start..end {
            for (_, cell) in self.rows.links.entries(self.rows.list(row)) {
                places.push((row, columns[cell.column as usize]))?;
            }
        }
        Ok(places)
    }

    /// The places of the cells on the columns from `start` to `end - 1`.
    fn places_on_columns(
        &self,
        alloc: Global,
        start: u32,
        end: u32,
    ) -> Result<Vec<(u32, u32)>, NoMemory>
        requires grid { IsGrid self.now }
        requires there { (start ≤ end) × (end ≤ self.now.columns.count) }
        ensures { IfOk result (λ places. ArePlacesOn Columns start end self.now places.items) }
    {
        self.columns.links.nodes_once();
        let rows = self.rows.positions(alloc)?;
        let mut places = Vec::new(alloc);
        for column in start..end {
            for (_, link) in self.columns.links.entries(self.columns.list(column)) {
                places.push((rows[link.row as usize], column))?;
            }
        }
        Ok(places)
    }
}

impl<T: Drop> Cells<T> {
    /// A sheet of that size with nothing in it, and room for so many items.
    pub(crate) fn new(
        alloc: Global,
        rows: u32,
        columns: u32,
        items: u32,
    ) -> Result<Cells<T>, NoMemory>
        requires { rows + columns ≤ most_lines }
        ensures grid { IfOk result IsGrid }
        ensures size { IfOk result (λ cells. (cells.rows.count ≡ rows) × (cells.columns.count ≡ columns)) }
        ensures lists { IfOk result (λ cells. (length cells.rows.lists.items ≡ rows)
            × (length cells.columns.lists.items ≡ columns)) }
        ensures empty { IfOk result (λ cells. (place : ℕ × ℕ) → entry_at (sheet_items cells) place ≡ None) }
    {
        Ok(Cells {
            rows: Lines::new(alloc, rows, items)?,
            columns: Lines::new(alloc, columns, items)?,
            filled: 0,
        })
    }
}

impl<T: Duplicate + Drop> Cells<T> {
    /// Cells of the same size with copies of the items, which are added row by row: none is looked up.
    pub(crate) fn copy(&self, alloc: Global) -> Result<Cells<T>, NoMemory>
        requires { IsGrid self.now }
        ensures grid { IfOk result IsGrid }
        ensures size { IfOk result (HasSameSize self.now) }
        ensures items { IfOk result (HasSameItems self.now) }
    {
        let columns = self.columns.positions(alloc)?;
        let mut copy = Cells::new(alloc, self.rows.count, self.columns.count, self.filled)?;
        for row in 0..self.rows.count {
            self.copy_row(&columns, row, &mut copy)?;
        }
        Ok(copy)
    }

    /// Adds copies of the row's items to a copy of the rows before it; `columns` has the place of each
    /// column, by the number of its list.
    fn copy_row(&self, columns: &[u32], row: u32, copy: &mut Cells<T>) -> Result<(), NoMemory>
        requires grid { IsGrid self.now }
        requires columns { ArePositions self.now.columns columns.now }
        requires there { row < self.now.rows.count }
        requires copy { IsGrid copy.old }
        requires size { HasSameSize self.now copy.old }
        requires before { HasFirstRows self.now row copy.old }
        ensures grid { IsGrid copy.new }
        ensures size { HasSameSize self.now copy.new }
        ensures copied { OnOk result (HasFirstRows self.now (row + 1) copy.new) }
    {
        for (_, cell) in self.rows.links.entries(self.rows.list(row)) {
            let column = columns[cell.column as usize];
            let item = cell.item.duplicate()?;
            if let Err((_, fault)) = copy.add(row, column, item) {
                return Err(fault);
            }
        }
        Ok(())
    }
}
