ghost use Rattle.std.specs.Prelude.{◌≡◌, ℕ, ◌+◌, ◌-◌, ◌*◌, ◌++◌, ◌<◌, ◌≤◌, length, map, max, min};
ghost use Rattle.std.specs.Prelude.{Some, None, Contains, IfOk, OnOk, OnErr, IfErr};
ghost use Rattle.std.specs.Option.{option_copied, IsSome};
ghost use Rattle.std.specs.Borrow.{sem, LendsSoOk};
ghost use Rattle.std.specs.FinMap as fin;
ghost use Rattle.cell_store.specs.Table.{empty_table, most_lines, item_at, filled_places, most_filled};
ghost use Rattle.cell_store.specs.Table.{HasPlace, HasItemsInside, with_item, without_item};
ghost use Rattle.cell_store.specs.Moved.{GoesWithLines, IsRoomAfter, lines_on, size_after};
ghost use Rattle.cell_store.specs.Places.{AreFilledPlaces};
ghost use Rattle.grid_range.specs.Band.{end_line, first_line};
ghost use Rattle.grid_range.specs.Change.{Fits, count_after};
ghost use Rattle.grid_range.specs.declared.axis.Axis.TheVariants.{Rows, Columns};
ghost use Rattle.shared_grid.specs.Cells.{across_in};
ghost use Rattle.shared_grid.specs.Orders.{AreMoved, IsOrder, number_of, place_noted};
ghost use Rattle.shared_grid.specs.Sheets.{AreCleared, AreNumbered, AreOnAxis, AreOnColumns, AreOnRows, deleted, pair_place};
ghost use Rattle.shared_grid.specs.contracts.grid.SharedGrid.{the_row};

use crate::cells::{Cells, across};
use crate::order::Order;
use crate::shared::Shared;
use cell_store::{CellStore, held_by_rows, tables_by_items};
use cell_value::{Duplicate, Items, NoMemory, Steps};
use grid_range::{Area, Axis, Band, Change, places_stay_below};
use std::alloc::Global;
use std::marker::{Brand, Model};
use std::sync::ledger::{Blank, Ledger};

/// The cells of a sheet in maps that copies share: each item by the number of its row and that of its
/// column. A copy copies no item, and a write copies what stands near its place where another version
/// shares it.
#[derive(Drop)]
pub struct SharedGrid<T: Duplicate + Drop> {
    alloc: Global,
    rows: Shared<Order>,
    columns: Shared<Order>,
    cells: Cells<T>,
}

impl<T: Duplicate + Drop> Model for SharedGrid<T> {
    ghost use Rattle.cell_store.specs.Kept.{KeptTable, kept_table_code};
    ghost use Rattle.shared_grid.specs.Sheets.{IsSheet, numbered_table};

    ghost Value = { KeptTable T };

    ghost coded = { kept_table_code T.code };

    ghost view = { λ g. numbered_table g.rows g.columns g.cells };

    ghost invariant = { λ g. IsSheet g.rows g.columns g.cells };
}

impl<T: Duplicate + Drop> SharedGrid<T> {
    ghost use Rattle.cell_store.specs.Kept.{ReusesLines};

    /// A sheet of that size with nothing in it.
    ///
    /// # Errors
    ///
    /// [`NoMemory`] where memory runs out.
    pub fn new(alloc: Global, rows: u32, cols: u32) -> Result<SharedGrid<T>, NoMemory>
        requires { rows + cols ≤ most_lines }
        ensures empty { IfOk result (λ grid. grid.table ≡ empty_table rows cols) }
        ensures numbers { IfOk result (λ grid. (grid.kept_rows ≡ rows) × (grid.kept_columns ≡ cols)) }
    {
        tables_by_items::<T>();
        let row_order = Order::new(alloc, rows)?;
        let column_order = Order::new(alloc, cols)?;
        let held_rows = Shared::new(alloc, row_order)?;
        let held_columns = Shared::new(alloc, column_order)?;
        let cells = Cells::new(alloc)?;
        Ok(SharedGrid {
            alloc,
            rows: held_rows,
            columns: held_columns,
            cells,
        })
    }

    /// The item at the place, which holds one, lent to be changed there. The place has afterwards what the
    /// borrower left, and each other place what it had.
    ///
    /// # Errors
    ///
    /// [`NoMemory`] where memory runs out for what other versions share; the sheet is as it was.
    pub fn get_mut(&mut self, row: u32, column: u32) -> Result<&mut T, NoMemory>
        requires held { IsSome (item_at self.old.table row column) }
        ensures* writes_back { sem 𝓛 (LendsSoOk (the_row T.row) T.row self.entry result
            (λ after item. after.table ≡ with_item self.old.table row column item)
            (λ after. after.table ≡ self.old.table)) }
        ensures item { IfOk result (λ item. item_at self.old.table row column ≡ Some item.now) }
    {
        tables_by_items::<T>();
        let row_number = number(&self.rows, row);
        let column_number = number(&self.columns, column);
        match self.cells.get_mut(row_number, column_number) {
            Ok(item) => Ok(item),
            Err(no_memory) => Err(no_memory),
        }
    }

    /// [`CellStore::change`], with its steps added: one for each line's entry that is passed over or given
    /// up, of the lines before, one for each that is made, of the lines after, and one for each call of a
    /// map. They are at most twice the axis's lines before and twice those after, and two for each item
    /// that is dropped. The numbers of no line, kept for lines to come, are copied with those of the lines
    /// and aren't counted, nor are marks that want of memory left without an item.
    ///
    /// # Errors
    ///
    /// [`NoMemory`] where memory runs out; the sheet is as it was, and of the steps
    /// nothing is promised.
    pub fn change_counted<L: Ledger>(
        &mut self,
        axis: Axis,
        change: &Change,
        steps: &mut Steps<L>,
    ) -> Result<(), NoMemory>
        requires fits { Fits change.now (lines_on axis self.old.table.rows self.old.table.cols) }
        requires room { IsRoomAfter axis change.now self.old.table }
        ensures moved { OnOk result (GoesWithLines axis change.now self.old.table self.new.table) }
        ensures unchanged { OnErr result (self.new.table ≡ self.old.table) }
        ensures filled { filled_places self.new.table ≤ filled_places self.old.table }
        ensures numbers { OnOk result (ReusesLines axis change.now self.old self.new) }
        ensures steps { OnOk result (steps.new ≤ steps.old
            + 2 * lines_on axis self.old.table.rows self.old.table.cols
            + 2 * lines_on axis (size_after axis change.now self.old.table.rows self.old.table.cols).0
            (size_after axis change.now self.old.table.rows self.old.table.cols).1
            + 2 * (filled_places self.old.table - filled_places self.new.table)) }
    {
        match axis {
            Axis::Rows => self.change_rows(change, steps),
            Axis::Columns => self.change_columns(change, steps),
        }
    }

    /// The change of the rows, counted.
    fn change_rows<L: Ledger>(
        &mut self,
        change: &Change,
        steps: &mut Steps<L>,
    ) -> Result<(), NoMemory>
        requires fits { Fits change.now self.old.table.rows }
        requires room { IsRoomAfter Rows change.now self.old.table }
        ensures moved { OnOk result (GoesWithLines Rows change.now self.old.table self.new.table) }
        ensures unchanged { OnErr result (self.new.table ≡ self.old.table) }
        ensures filled { filled_places self.new.table ≤ filled_places self.old.table }
        ensures numbers { OnOk result (ReusesLines Rows change.now self.old self.new) }
        ensures steps { OnOk result (steps.new ≤ steps.old + 2 * self.old.table.rows
            + 2 * count_after change.now self.old.table.rows
            + 2 * (filled_places self.old.table - filled_places self.new.table)) }
    {
        tables_by_items::<T>();
        places_stay_below();
        let rows = lines_after(self.alloc, &self.rows, change, steps)?;
        let cells = &mut self.cells;
        drop_deleted(cells, self.alloc, Axis::Rows, &self.rows, change, steps)?;
        self.rows = rows;
        Ok(())
    }

    /// The change of the columns, counted.
    fn change_columns<L: Ledger>(
        &mut self,
        change: &Change,
        steps: &mut Steps<L>,
    ) -> Result<(), NoMemory>
        requires fits { Fits change.now self.old.table.cols }
        requires room { IsRoomAfter Columns change.now self.old.table }
        ensures moved { OnOk result (GoesWithLines Columns change.now self.old.table self.new.table) }
        ensures unchanged { OnErr result (self.new.table ≡ self.old.table) }
        ensures filled { filled_places self.new.table ≤ filled_places self.old.table }
        ensures numbers { OnOk result (ReusesLines Columns change.now self.old self.new) }
        ensures steps { OnOk result (steps.new ≤ steps.old + 2 * self.old.table.cols
            + 2 * count_after change.now self.old.table.cols
            + 2 * (filled_places self.old.table - filled_places self.new.table)) }
    {
        tables_by_items::<T>();
        places_stay_below();
        let columns = lines_after(self.alloc, &self.columns, change, steps)?;
        let cells = &mut self.cells;
        drop_deleted(
            cells,
            self.alloc,
            Axis::Columns,
            &self.columns,
            change,
            steps,
        )?;
        self.columns = columns;
        Ok(())
    }

    /// The change, with steps on a ledger of its own.
    fn change_alone<L: Ledger>(
        &mut self,
        axis: Axis,
        change: &Change,
        blank: Blank,
    ) -> Result<(), NoMemory>
        requires name { blank.name ≡ L.name }
        requires parts { blank.parts ≡ L.parts }
        requires open { 0 < blank.parts }
        requires fits { Fits change.now (lines_on axis self.old.table.rows self.old.table.cols) }
        requires room { IsRoomAfter axis change.now self.old.table }
        ensures moved { OnOk result (GoesWithLines axis change.now self.old.table self.new.table) }
        ensures unchanged { OnErr result (self.new.table ≡ self.old.table) }
        ensures filled { filled_places self.new.table ≤ filled_places self.old.table }
        ensures numbers { OnOk result (ReusesLines axis change.now self.old self.new) }
    {
        let mut steps = Steps::<L>::new(blank);
        self.change_counted(axis, change, &mut steps)
    }

    /// The filled places of the rows from `first` to `end - 1`.
    fn places_on_rows(&self, first: u32, end: u32) -> Result<Vec<(u32, u32)>, NoMemory>
        requires { (first ≤ end) × (end ≤ self.now.table.rows) }
        ensures { IfOk result (λ places. AreOnRows first end self.now.table places.items) }
    {
        let mut places = Vec::with_capacity(self.alloc, self.cells.count().min(64) as usize)?;
        for row in first..end {
            places = self.with_row(row, places)?;
        }
        Ok(places)
    }

    /// The filled places of the row behind those of the rows before it. Where each line has its place as its
    /// number, they are listed as they are.
    fn with_row(&self, row: u32, before: Vec<(u32, u32)>) -> Result<Vec<(u32, u32)>, NoMemory>
        requires { row < self.now.table.rows }
        ensures { IfOk result (λ places. (first : ℕ) → AreOnRows first row self.now.table before.items
            → AreOnRows first (row + 1) self.now.table places.items) }
    {
        tables_by_items::<T>();
        let number = number(&self.rows, row);
        let columns = self.columns.value();
        if self.rows.value().is_plain() && columns.is_plain() {
            return self.cells.row_behind(number, before);
        }
        let keys = self.cells.on_row(number)?;
        let mut places = before;
        put_places(row, columns, keys.as_slice(), &mut places)?;
        Ok(places)
    }

    /// The filled places of the columns from `first` to `end - 1`.
    fn places_on_columns(&self, first: u32, end: u32) -> Result<Vec<(u32, u32)>, NoMemory>
        requires { (first ≤ end) × (end ≤ self.now.table.cols) }
        ensures { IfOk result (λ places. AreOnColumns first end self.now.table places.items) }
    {
        let mut places = Vec::new(self.alloc);
        for column in first..end {
            self.put_column(column, &mut places)?;
        }
        Ok(places)
    }

    /// Puts the filled places of the column behind those of the columns before it.
    fn put_column(&self, column: u32, places: &mut Vec<(u32, u32)>) -> Result<(), NoMemory>
        requires { column < self.now.table.cols }
        ensures { OnOk result ((first : ℕ) → AreOnColumns first column self.now.table places.old.items
            → AreOnColumns first (column + 1) self.now.table places.new.items) }
    {
        tables_by_items::<T>();
        let marks = self
            .cells
            .on_column(self.alloc, number(&self.columns, column))?;
        put_column_places(column, self.rows.value(), marks.as_slice(), places)
    }

    /// The filled places of the area, by a walk of its rows.
    fn places_by_rows(&self, area: &Area) -> Result<Items<(u32, u32)>, NoMemory>
        ensures { IfOk result (AreFilledPlaces area.now self.now.table) }
    {
        tables_by_items::<T>();
        let (first, end) = ends(area.rows, count(&self.rows));
        let places = self.places_on_rows(first, end)?;
        Ok(held_by_rows(places, area))
    }

    /// The filled places of the area, by a walk of all items.
    fn places_of_all(&self, area: &Area) -> Result<Items<(u32, u32)>, NoMemory>
        ensures { IfOk result (AreFilledPlaces area.now self.now.table) }
    {
        tables_by_items::<T>();
        let keys = self.cells.keys(self.alloc)?;
        let rows = self.rows.value();
        let columns = self.columns.value();
        let places = placed(self.alloc, rows, columns, keys)?;
        Ok(held_by_rows(places, area))
    }

    /// The filled places of the area, by a walk of its columns.
    fn places_by_columns(&self, area: &Area) -> Result<Items<(u32, u32)>, NoMemory>
        ensures { IfOk result (AreFilledPlaces area.now self.now.table) }
    {
        tables_by_items::<T>();
        let (first, end) = ends(area.cols, count(&self.columns));
        let places = self.places_on_columns(first, end)?;
        Ok(held_by_rows(places, area))
    }

    /// Whether a walk of the area's columns takes less time than one of its rows, where the sheet is full. To
    /// look an item up, or to put one of several columns in its place by rows, takes that of sixteen that are
    /// listed.
    fn is_narrow(&self, area: &Area) -> bool {
        let (rows, columns) = (count(&self.rows), count(&self.columns));
        let walked = lines_in(area.cols, columns);
        let item: u64 = if walked == 1 && self.cells.has_exact_marks() {
            1
        } else {
            16
        };
        let by_rows = u64::from(lines_in(area.rows, rows)).saturating_mul(u64::from(columns) + 16);
        let by_columns = u64::from(walked).saturating_mul(u64::from(rows));
        by_columns.saturating_mul(item) <= by_rows
    }
}

impl<T: Duplicate + Drop> CellStore<T> for SharedGrid<T> {
    ghost use Rattle.cell_store.specs.Kept.{ReusesLines};

    ghost table = { λ grid. grid.table };

    fn rows(&self) -> u32 {
        count(&self.rows)
    }

    fn cols(&self) -> u32 {
        count(&self.columns)
    }

    fn get(&self, row: u32, column: u32) -> Option<&T> {
        tables_by_items::<T>();
        if row >= count(&self.rows) {
            return None;
        }
        if column >= count(&self.columns) {
            return None;
        }
        let row_number = number(&self.rows, row);
        let column_number = number(&self.columns, column);
        self.cells.get(row_number, column_number)
    }

    /// Puts the item at the place, and gives the one that was there.
    ///
    /// # Errors
    ///
    /// [`NoMemory`] with the item where memory runs out; the sheet is as it was.
    fn put(&mut self, row: u32, column: u32, item: T) -> Result<Option<T>, (T, NoMemory)>
        requires inside { HasPlace self.old.table row column }
        ensures old { IfOk result (λ old. old ≡ item_at self.old.table row column) }
        ensures put { OnOk result (self.new.table ≡ with_item self.old.table row column item) }
        ensures back { IfErr result (λ refused. refused.0 ≡ item) }
        ensures unchanged { OnErr result (self.new.table ≡ self.old.table) }
    {
        tables_by_items::<T>();
        let row_number = number(&self.rows, row);
        let column_number = number(&self.columns, column);
        self.cells.put(row_number, column_number, item)
    }

    /// Takes the item out of the place; None where it holds none, and then no memory is wanted.
    ///
    /// # Errors
    ///
    /// [`NoMemory`] where memory runs out; the sheet is as it was.
    fn take(&mut self, row: u32, column: u32) -> Result<Option<T>, NoMemory>
        ensures item { IfOk result (λ item. item ≡ item_at self.old.table row column) }
        ensures taken { OnOk result (self.new.table ≡ without_item self.old.table row column) }
        ensures unchanged { OnErr result (self.new.table ≡ self.old.table) }
        ensures held { OnErr result (IsSome (item_at self.old.table row column)) }
    {
        tables_by_items::<T>();
        if row >= count(&self.rows) {
            return Ok(None);
        }
        if column >= count(&self.columns) {
            return Ok(None);
        }
        let row_number = number(&self.rows, row);
        let column_number = number(&self.columns, column);
        self.cells.take(row_number, column_number)
    }

    /// Makes the change of the rows or of the columns. Each item goes with its line without being moved,
    /// and the items of deleted lines are dropped: only what stands in one part of a map with such an item
    /// is copied. The numbers of deleted lines are used again.
    ///
    /// # Errors
    ///
    /// [`NoMemory`] where memory runs out; the sheet is as it was.
    fn change(&mut self, axis: Axis, change: &Change) -> Result<(), NoMemory>
        requires fits { Fits change.now (lines_on axis self.old.table.rows self.old.table.cols) }
        requires room { IsRoomAfter axis change.now self.old.table }
        ensures moved { OnOk result (GoesWithLines axis change.now self.old.table self.new.table) }
        ensures filled { filled_places self.new.table ≤ filled_places self.old.table }
        ensures unchanged { OnErr result (self.new.table ≡ self.old.table) }
        ensures numbers { OnOk result (ReusesLines axis change.now self.old self.new) }
    {
        self.change_alone::<Brand>(axis, change, Blank::new(1))
    }

    /// The filled places of the area, by rows. Only the rows of the area are visited, or only its columns,
    /// or all items where these are no more than its rows or it has all rows, whichever is estimated to take
    /// less time. Its sheet isn't looked at.
    ///
    /// # Errors
    ///
    /// [`NoMemory`] where memory runs out.
    fn places(&self, area: &Area) -> Result<Items<(u32, u32)>, NoMemory> {
        let rows = count(&self.rows);
        let walked = lines_in(area.rows, rows);
        if self.is_narrow(area) {
            self.places_by_columns(area)
        } else if walked == rows || self.cells.count() <= u64::from(walked) {
            self.places_of_all(area)
        } else {
            self.places_by_rows(area)
        }
    }

    fn filled(&self) -> u64 {
        tables_by_items::<T>();
        self.cells.count()
    }

    /// Another version of the sheet, which holds the same. No item is copied.
    ///
    /// # Errors
    ///
    /// [`NoMemory`] where memory runs out.
    fn copy(&self) -> Result<SharedGrid<T>, NoMemory>
        ensures table { IfOk result (λ copy. copy.table ≡ self.now.table) }
        ensures same { IfOk result (λ copy. copy ≡ self.now) }
    {
        Ok(SharedGrid {
            alloc: self.alloc,
            rows: self.rows.share()?,
            columns: self.columns.share()?,
            cells: self.cells.copy()?,
        })
    }
}

/// How many lines there are.
fn count(lines: &Shared<Order>) -> u32
    ensures { result ≡ lines.now.count }
{
    lines.value().count()
}

/// The number of the line.
fn number(lines: &Shared<Order>, line: u32) -> u32
    requires order { IsOrder lines.now }
    requires there { line < lines.now.count }
    ensures { result ≡ number_of lines.now line }
{
    lines.value().number(line)
}

/// The first of the band's lines among so many, and the one past the last.
fn ends(band: Band, count: u32) -> (u32, u32)
    ensures first { result.0 ≤ first_line band }
    ensures end { result.1 ≡ min (end_line band count) count }
    ensures order { result.0 ≤ result.1 }
{
    let end = band.end_line(count).min(count);
    (band.first_line().min(end), end)
}

/// How many of so many lines are the band's.
fn lines_in(band: Band, count: u32) -> u32 {
    let (first, end) = ends(band, count);
    end - first
}

/// The lines after the change, with a step for each line before and one for each line after.
fn lines_after<L: Ledger>(
    alloc: Global,
    lines: &Shared<Order>,
    change: &Change,
    steps: &mut Steps<L>,
) -> Result<Shared<Order>, NoMemory>
    requires order { IsOrder lines.now }
    requires fits { Fits change.now lines.now.count }
    requires room { count_after change.now lines.now.count ≤ most_lines }
    ensures order { IfOk result IsOrder }
    ensures moved { IfOk result (AreMoved change.now lines.now) }
    ensures numbers { IfOk result (λ after. length after.numbers
        ≤ max (length lines.now.numbers) (count_after change.now lines.now.count)) }
    ensures steps { steps.new ≡ steps.old + lines.now.count + count_after change.now lines.now.count }
{
    let order = lines.value().changed_counted(alloc, change, steps)?;
    Shared::new(alloc, order)
}

/// Drops the items of the lines that the change deletes, in no more steps than there are lines before
/// and after, and two for each item.
fn drop_deleted<T: Duplicate + Drop, L: Ledger>(
    cells: &mut Cells<T>,
    alloc: Global,
    axis: Axis,
    lines: &Shared<Order>,
    change: &Change,
    steps: &mut Steps<L>,
) -> Result<(), NoMemory>
    requires order { IsOrder lines.now }
    requires fits { Fits change.now lines.now.count }
    requires there { AreOnAxis axis lines.now cells.old }
    ensures cleared { OnOk result (AreCleared axis lines.now (deleted change.now).0 (deleted change.now).1
        cells.old cells.new) }
    ensures unchanged { OnErr result (cells.new ≡ cells.old) }
    ensures steps { OnOk result (steps.new + 2 * fin.len cells.new ≤ steps.old + 2 * fin.len cells.old
        + lines.now.count + count_after change.now lines.now.count) }
{
    let (first, end) = deleted(change);
    if first == end {
        return Ok(());
    }
    if end - first == count(lines) {
        return cells.drop_all(alloc, steps);
    }
    *cells = cells.without(axis, lines.value(), first, end, steps)?;
    Ok(())
}

/// The first of the lines that the change deletes, and the one past the last.
fn deleted(change: &Change) -> (u32, u32)
    ensures { result ≡ deleted change.now }
{
    match *change {
        Change::Delete { start, end } => (start, end),
        Change::Insert { .. } | Change::Move { .. } => (0, 0),
    }
}

/// [`places_of`], which are the numbers themselves where each line has its place as its number.
fn placed(
    alloc: Global,
    rows: &Order,
    columns: &Order,
    keys: Vec<(u32, u32)>,
) -> Result<Vec<(u32, u32)>, NoMemory>
    requires { AreNumbered rows.now columns.now keys.items }
    ensures { IfOk result (λ places. places.items ≡ map (pair_place rows.now columns.now) keys.items) }
{
    if rows.is_plain() && columns.is_plain() {
        return Ok(keys);
    }
    places_of(alloc, rows, columns, keys.as_slice())
}

/// The places of the keys, each the numbers of a row and of a column.
fn places_of(
    alloc: Global,
    rows: &Order,
    columns: &Order,
    keys: &[(u32, u32)],
) -> Result<Vec<(u32, u32)>, NoMemory>
    requires { AreNumbered rows.now columns.now keys.now }
    ensures { IfOk result (λ places. places.items ≡ map (pair_place rows.now columns.now) keys.now) }
{
    let mut places = Vec::with_capacity(alloc, keys.len())?;
    for key in keys {
        places.push((rows.place(key.0), columns.place(key.1)))?;
    }
    Ok(places)
}

/// Puts the places of the keys, which are of items on that row, behind the others.
fn put_places(
    row: u32,
    columns: &Order,
    keys: &[u64],
    places: &mut Vec<(u32, u32)>,
) -> Result<(), NoMemory>
    requires { (key : ℕ) → Contains keys.now key → across_in key < length columns.now.places }
    ensures { OnOk result (places.new.items
        ≡ places.old.items ++ map (λ key. (row, place_noted columns.now (across_in key))) keys.now) }
{
    for key in keys {
        places.push((row, columns.place(across(*key))))?;
    }
    Ok(())
}

/// Puts the places of the marks, which are of items on that column, behind the others.
fn put_column_places(
    column: u32,
    rows: &Order,
    marks: &[u64],
    places: &mut Vec<(u32, u32)>,
) -> Result<(), NoMemory>
    requires { (mark : ℕ) → Contains marks.now mark → across_in mark < length rows.now.places }
    ensures { OnOk result (places.new.items
        ≡ places.old.items ++ map (λ mark. (place_noted rows.now (across_in mark), column)) marks.now) }
{
    for mark in marks {
        places.push((rows.place(across(*mark)), column))?;
    }
    Ok(())
}
