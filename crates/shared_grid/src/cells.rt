ghost use Rattle.std.specs.Prelude.{◌≡◌, ◌+◌, ◌-◌, ◌*◌, ◌≤◌, ◌∷◌, ◌++◌, [], if◌then◌else◌, Some, IsTrue, IfOk, OnOk, OnErr, IfErr};
ghost use Rattle.std.specs.Option.{option_copied, IsSome};
ghost use Rattle.std.specs.Borrow.{sem, LendsSoOk};
ghost use Rattle.std.specs.FinMap as map;
ghost use Rattle.grid_range.specs.declared.axis.Axis.TheVariants.{Rows, Columns};
ghost use Rattle.shared_grid.specs.Cells.{across_in, key_of, line_in, AreKeysOnRow, AreMarksOnColumn, HasItems, HasMarks, IsCleared};
ghost use Rattle.shared_map.specs.Map.{AreKeysWithin, AreListed};
ghost use Rattle.shared_map.specs.Found.{halves_of};
ghost use Rattle.shared_grid.specs.Orders.{IsOrder};
ghost use Rattle.shared_grid.specs.Sheets.{AreCleared};
ghost use Rattle.shared_grid.specs.contracts.cells.Cells.{the_row};

use crate::order::Order;
use cell_value::{Duplicate, NoMemory, Steps};
use grid_range::Axis;
use shared_map::SharedMap;
use std::alloc::Global;
use std::marker::Model;
use std::sync::ledger::Ledger;

/// Marks a place, and tells nothing more of it.
#[derive(Clone, Copy)]
pub struct Mark;

impl Duplicate for Mark {
    fn duplicate(&self) -> Result<Mark, NoMemory> {
        Ok(Mark)
    }
}

/// The items of a sheet by the numbers of their rows and columns. Contracts see the map of the items by
/// row and column.
///
/// Where memory ended within a call a mark may stand where no item is.
#[derive(Drop)]
pub(crate) struct Cells<T: Duplicate + Drop> {
    items: SharedMap<T>,
    marks: SharedMap<Mark>,
}

impl<T: Duplicate + Drop> Model for Cells<T> {
    ghost use Rattle.std.specs.Ordering.{nat_cmp};
    ghost use Rattle.std.specs.Coded.{coded_ℕ};
    ghost use Rattle.std.specs.FinMap as map;
    ghost use Rattle.shared_grid.specs.Cells.{HasMarks};

    ghost Value = { map.FinMap nat_cmp T };

    ghost coded = { map.code coded_ℕ T.code };

    ghost view = { λ c. c.items };

    ghost invariant = { λ c. HasMarks c.items c.marks };
}

impl<T: Duplicate + Drop> Cells<T> {
    /// No items.
    ///
    /// # Errors
    ///
    /// [`NoMemory`] where memory runs out.
    pub(crate) fn new(alloc: Global) -> Result<Cells<T>, NoMemory>
        ensures { IfOk result (λ cells. cells ≡ map.empty) }
    {
        let items = SharedMap::new(alloc)?;
        let marks = SharedMap::new(alloc)?;
        Ok(Cells { items, marks })
    }

    /// How many items there are.
    pub(crate) fn count(&self) -> u64
        ensures { result ≡ map.len self.now }
    {
        self.items.count()
    }

    /// The item at the place, lent.
    pub(crate) fn get(&self, row: u32, column: u32) -> Option<&T>
        ensures { option_copied result ≡ map.get self.now (key_of row column) }
    {
        self.items.get(key(row, column))
    }

    /// The item at the place, which holds one, lent to be changed there.
    ///
    /// # Errors
    ///
    /// [`NoMemory`] where memory runs out; the items are as they were.
    pub(crate) fn get_mut(&mut self, row: u32, column: u32) -> Result<&mut T, NoMemory>
        requires held { IsSome (map.get self.old (key_of row column)) }
        ensures* writes_back { sem 𝓛 (LendsSoOk (the_row T.row) T.row self.entry result
            (λ after item. after ≡ map.insert self.old (key_of row column) item)
            (λ after. after ≡ self.old)) }
        ensures item { IfOk result (λ item. map.get self.old (key_of row column) ≡ Some item.now) }
    {
        match self.items.get_mut(key(row, column)) {
            Ok(item) => Ok(item),
            Err(no_memory) => Err(no_memory),
        }
    }

    /// Puts the item at the place, and gives the one that was there. Its mark is put only where there was none, so that
    /// a place that is written again costs one map's parts.
    ///
    /// # Errors
    ///
    /// [`NoMemory`] with the item where memory runs out; the items are as they were.
    pub(crate) fn put(&mut self, row: u32, column: u32, item: T) -> Result<Option<T>, (T, NoMemory)>
        ensures old { IfOk result (λ old. old ≡ map.get self.old (key_of row column)) }
        ensures put { OnOk result (self.new ≡ map.insert self.old (key_of row column) item) }
        ensures back { IfErr result (λ refused. refused.0 ≡ item) }
        ensures unchanged { OnErr result (self.new ≡ self.old) }
    {
        let at = key(row, column);
        if self.items.get(at).is_some() {
            return self.items.put(at, item);
        }
        match self.marks.put(key(column, row), Mark) {
            Ok(_) => self.items.put(at, item),
            Err((_, no_memory)) => Err((item, no_memory)),
        }
    }

    /// Takes the item out of the place; None where it holds none.
    ///
    /// # Errors
    ///
    /// [`NoMemory`] where memory runs out, and the place holds an item; the items are as they were.
    pub(crate) fn take(&mut self, row: u32, column: u32) -> Result<Option<T>, NoMemory>
        ensures item { IfOk result (λ item. item ≡ map.get self.old (key_of row column)) }
        ensures taken { OnOk result (self.new ≡ map.remove self.old (key_of row column)) }
        ensures unchanged { OnErr result (self.new ≡ self.old) }
        ensures held { OnErr result (IsSome (map.get self.old (key_of row column))) }
    {
        let item = self.items.take(key(row, column))?;
        drop(self.marks.take(key(column, row)));
        Ok(item)
    }

    /// The keys of all items in order, each as the numbers of its row and its column.
    ///
    /// # Errors
    ///
    /// [`NoMemory`] where memory runs out.
    pub(crate) fn keys(&self, alloc: Global) -> Result<Vec<(u32, u32)>, NoMemory>
        ensures { IfOk result (λ keys.
            AreListed halves_of (AreKeysWithin 0 18446744073709551615 self.now) [] keys.items) }
    {
        let none = Vec::with_capacity(alloc, self.count() as usize)?;
        self.items.keys_behind(0, u64::MAX, none)
    }

    /// The keys of the items on the row, in order.
    ///
    /// # Errors
    ///
    /// [`NoMemory`] where memory runs out.
    pub(crate) fn on_row(&self, row: u32) -> Result<Vec<u64>, NoMemory>
        ensures { IfOk result (λ keys. AreKeysOnRow row self.now keys.items) }
    {
        self.items.keys(key(row, 0), key(row, u32::MAX))
    }

    /// The keys of the items on the row behind others, each as the numbers of its row and its column.
    ///
    /// # Errors
    ///
    /// [`NoMemory`] where memory runs out.
    pub(crate) fn row_behind(
        &self,
        row: u32,
        others: Vec<(u32, u32)>,
    ) -> Result<Vec<(u32, u32)>, NoMemory>
        ensures { IfOk result (λ keys. AreListed halves_of (AreKeysOnRow row self.now) others.items keys.items) }
    {
        self.items
            .keys_behind(key(row, 0), key(row, u32::MAX), others)
    }

    /// The marks of the items on the column, in order. Where there is no other mark, no item is looked up.
    ///
    /// # Errors
    ///
    /// [`NoMemory`] where memory runs out.
    pub(crate) fn on_column(&self, alloc: Global, column: u32) -> Result<Vec<u64>, NoMemory>
        ensures { IfOk result (λ marks. AreMarksOnColumn column self.now marks.items) }
    {
        let marks = self.marks.keys(key(column, 0), key(column, u32::MAX))?;
        if has_items(&self.items, &self.marks) {
            return Ok(marks);
        }
        let mut held = Vec::new(alloc);
        for mark in marks.as_slice() {
            let item = self.get(across(*mark), column);
            push_if(&mut held, *mark, item.is_some())?;
        }
        Ok(held)
    }

    /// Whether no mark is left without an item, so that a column is listed without a look-up.
    pub(crate) fn has_exact_marks(&self) -> bool {
        has_items(&self.items, &self.marks)
    }

    /// The items without those on the lines from `first` to `end - 1`, with two steps for each of these,
    /// one for each of the lines, and two for the copies.
    ///
    /// # Errors
    ///
    /// [`NoMemory`] where memory runs out.
    pub(crate) fn without<L: Ledger>(
        &self,
        axis: Axis,
        order: &Order,
        first: u32,
        end: u32,
        steps: &mut Steps<L>,
    ) -> Result<Cells<T>, NoMemory>
        requires order { IsOrder order.now }
        requires there { (first ≤ end) × (end ≤ order.now.count) }
        ensures cleared { IfOk result (AreCleared axis order.now first end self.now) }
        ensures steps { IfOk result (λ left. steps.new + 2 * map.len left
            ≡ steps.old + 2 * map.len self.now + (end - first) + 2) }
    {
        steps.add(2);
        let mut left = self.copy()?;
        left.drop_lines(axis, order, first, end, steps)?;
        Ok(left)
    }

    /// Drops all items: one step to count them, and two for the maps that are made anew where there are
    /// some.
    ///
    /// # Errors
    ///
    /// [`NoMemory`] where memory runs out; the items are as they were.
    pub(crate) fn drop_all<L: Ledger>(
        &mut self,
        alloc: Global,
        steps: &mut Steps<L>,
    ) -> Result<(), NoMemory>
        ensures dropped { OnOk result (self.new ≡ map.empty) }
        ensures unchanged { OnErr result (self.new ≡ self.old) }
        ensures steps { OnOk result (steps.new + 2 * map.len self.new ≤ steps.old + 1 + 2 * map.len self.old) }
    {
        steps.tick();
        if self.count() == 0 {
            return Ok(());
        }
        steps.add(2);
        *self = Cells::new(alloc)?;
        Ok(())
    }

    /// Drops the items on the lines from `first` to `end - 1`, with a step for each line and two for each
    /// item.
    ///
    /// # Errors
    ///
    /// [`NoMemory`] where memory runs out; some of the items are dropped then.
    fn drop_lines<L: Ledger>(
        &mut self,
        axis: Axis,
        order: &Order,
        first: u32,
        end: u32,
        steps: &mut Steps<L>,
    ) -> Result<(), NoMemory>
        requires order { IsOrder order.now }
        requires there { (first ≤ end) × (end ≤ order.now.count) }
        ensures cleared { OnOk result (AreCleared axis order.now first end self.old self.new) }
        ensures steps { OnOk result (steps.new + 2 * map.len self.new
            ≡ steps.old + 2 * map.len self.old + (end - first)) }
    {
        for line in first..end {
            self.clear(axis, order.number(line), steps)?;
        }
        Ok(())
    }

    /// Drops the items on the line with the number, with one step and two for each item.
    fn clear<L: Ledger>(
        &mut self,
        axis: Axis,
        number: u32,
        steps: &mut Steps<L>,
    ) -> Result<(), NoMemory>
        ensures cleared { OnOk result (IsCleared axis number self.old self.new) }
        ensures steps { OnOk result (steps.new + 2 * map.len self.new ≡ steps.old + 2 * map.len self.old + 1) }
    {
        match axis {
            Axis::Rows => self.clear_row(number, steps),
            Axis::Columns => self.clear_column(number, steps),
        }
    }

    fn clear_row<L: Ledger>(&mut self, row: u32, steps: &mut Steps<L>) -> Result<(), NoMemory>
        ensures cleared { OnOk result (IsCleared Rows row self.old self.new) }
        ensures steps { OnOk result (steps.new + 2 * map.len self.new ≡ steps.old + 2 * map.len self.old + 1) }
    {
        steps.tick();
        let keys = self.on_row(row)?;
        for key in keys.as_slice() {
            self.drop_item(row, across(*key), steps)?;
        }
        Ok(())
    }

    fn clear_column<L: Ledger>(&mut self, column: u32, steps: &mut Steps<L>) -> Result<(), NoMemory>
        ensures cleared { OnOk result (IsCleared Columns column self.old self.new) }
        ensures steps { OnOk result (steps.new + 2 * map.len self.new ≡ steps.old + 2 * map.len self.old + 1) }
    {
        steps.tick();
        let marks: Vec<u64> = self.marks.keys(key(column, 0), key(column, u32::MAX))?;
        for mark in marks.as_slice() {
            self.drop_item(across(*mark), column, steps)?;
        }
        Ok(())
    }

    /// Drops the item at the place, as two steps. A mark that stands where no item is goes with none.
    fn drop_item<L: Ledger>(
        &mut self,
        row: u32,
        column: u32,
        steps: &mut Steps<L>,
    ) -> Result<(), NoMemory>
        ensures dropped { OnOk result (self.new ≡ map.remove self.old (key_of row column)) }
        ensures steps { OnOk result (steps.new + 2 * map.len self.new ≡ steps.old + 2 * map.len self.old) }
    {
        match self.take(row, column)? {
            Some(_) => {
                steps.add(2);
                Ok(())
            }
            None => Ok(()),
        }
    }

    /// Other cells with the same items, none of which is copied.
    ///
    /// # Errors
    ///
    /// [`NoMemory`] where memory runs out.
    pub(crate) fn copy(&self) -> Result<Cells<T>, NoMemory>
        ensures { IfOk result (λ copy. copy ≡ self.now) }
    {
        Ok(Cells {
            items: self.items.copy()?,
            marks: self.marks.copy()?,
        })
    }
}

/// Whether there is an item for each of the marks: there are as many.
fn has_items<T: Duplicate + Drop>(items: &SharedMap<T>, marks: &SharedMap<Mark>) -> bool
    requires { HasMarks items.now marks.now }
    ensures { IsTrue result → HasItems items.now marks.now }
{
    marks.count() == items.count()
}

/// Puts the mark behind the others, where its item is there.
fn push_if(marks: &mut Vec<u64>, mark: u64, held: bool) -> Result<(), NoMemory>
    ensures { OnOk result (marks.new.items ≡ marks.old.items ++ (if held then mark ∷ [] else [])) }
{
    if held {
        marks.push(mark)?;
        return Ok(());
    }
    Ok(())
}

/// The key of a place: the number of its line, and that of the line across it.
fn key(line: u32, across: u32) -> u64
    ensures { result ≡ key_of line across }
{
    u64::from(line) * 4_294_967_296 + u64::from(across)
}

/// The number of the line across, in the key of a place.
pub(crate) fn across(key: u64) -> u32
    ensures { result ≡ across_in key }
{
    (key % 4_294_967_296) as u32
}
