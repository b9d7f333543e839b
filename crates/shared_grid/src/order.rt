ghost use Rattle.std.specs.Prelude.{◌≡◌, ℕ, ◌+◌, ◌<◌, ◌≤◌, length, max, slice_index, slice_set, IsTrue, IfOk};
ghost use Rattle.grid_range.specs.Change.{Fits, count_after};
ghost use Rattle.cell_store.specs.Table.{most_lines};
ghost use Rattle.shared_grid.specs.Orders.{AreMoved, AreNumbers, IsOrder, IsPlain};
ghost use Rattle.shared_grid.specs.Orders.{entry, number_of, parts_of, place_noted};

use crate::shared::Shared;
use cell_store::turn;
use cell_value::{NoMemory, Steps};
use grid_range::{Change, places_stay_apart, places_stay_below};
use std::alloc::Global;
use std::marker::Model;
use std::sync::ledger::Ledger;

/// The lines of one axis in their order, each by a number that no change of lines alters. Lines that come
/// or go at the end take and leave no memory: the lists are those of the first lines and numbers, copies of
/// the order share them, and each line behind them has its place as its number.
#[derive(Drop)]
pub(crate) struct Order {
    lists: Shared<Lists>,
    /// How many numbers there are, those of no line among them.
    kept: u32,
    count: u32,
}

/// The numbers of the first lines, and the places of the first numbers.
#[derive(Drop)]
struct Lists {
    /// The numbers of the lines in order, and behind them those of no line, for lines to come.
    numbers: Vec<u32>,
    /// The place of each of these numbers among them.
    places: Vec<u32>,
}

impl Model for Order {
    ghost use Rattle.std.specs.Prelude.{◌≡◌, ◌≤◌, length};
    ghost use Rattle.shared_grid.specs.Orders.{LineOrder, continued, order_code};

    ghost Value = { LineOrder };

    ghost coded = { order_code };

    ghost view = { λ o. record {
      numbers = continued o.lists.numbers.items o.kept;
      places = continued o.lists.places.items o.kept;
      count = o.count;
    } };

    ghost invariant = { λ o. (length o.lists.numbers.items ≤ o.kept)
        × (length o.lists.places.items ≡ length o.lists.numbers.items) };
}

impl Order {
    /// So many lines.
    ///
    /// # Errors
    ///
    /// [`NoMemory`] where memory runs out.
    pub(crate) fn new(alloc: Global, count: u32) -> Result<Order, NoMemory>
        requires { count ≤ most_lines }
        ensures order { IfOk result IsOrder }
        ensures count { IfOk result (λ order. order.count ≡ count) }
        ensures numbers { IfOk result (λ order. length order.numbers ≡ count) }
    {
        let numbers = Vec::new(alloc);
        let places = Vec::new(alloc);
        let lists = Shared::new(alloc, Lists { numbers, places })?;
        Ok(Order {
            lists,
            kept: count,
            count,
        })
    }

    /// The lines with the first of these numbers.
    ///
    /// # Errors
    ///
    /// [`NoMemory`] where memory runs out.
    fn of(alloc: Global, numbers: Vec<u32>, count: u32) -> Result<Order, NoMemory>
        requires count { count ≤ length numbers.items }
        requires most { length numbers.items ≤ most_lines }
        requires each { AreNumbers numbers.items }
        ensures order { IfOk result IsOrder }
        ensures numbers { IfOk result (λ order. order.numbers ≡ numbers.items) }
        ensures count { IfOk result (λ order. order.count ≡ count) }
    {
        let kept = numbers.len() as u32;
        let mut places = vec![in alloc; 0; numbers.len()]?;
        for index in 0..kept {
            note(&mut places, numbers[index as usize], index);
        }
        let lists = Shared::new(alloc, Lists { numbers, places })?;
        Ok(Order { lists, kept, count })
    }

    /// So many of the same lines, and behind them such as have the next numbers. No list is copied.
    ///
    /// # Errors
    ///
    /// [`NoMemory`] where memory runs out.
    fn with_count(&self, count: u32) -> Result<Order, NoMemory>
        requires order { IsOrder self.now }
        requires most { count ≤ most_lines }
        ensures order { IfOk result IsOrder }
        ensures count { IfOk result (λ order. order.count ≡ count) }
        ensures first { IfOk result (λ order. (index : ℕ) → index < length self.now.numbers
            → number_of order index ≡ number_of self.now index) }
        ensures long { IfOk result (λ order. length order.numbers ≡ max (length self.now.numbers) count) }
    {
        let lists = self.lists.share()?;
        let kept = self.kept.max(count);
        Ok(Order { lists, kept, count })
    }

    /// How many lines there are.
    pub(crate) fn count(&self) -> u32
        ensures { result ≡ self.now.count }
    {
        self.count
    }

    /// The lines after the change, in which each line that stays has its number.
    ///
    /// # Errors
    ///
    /// [`NoMemory`] where memory runs out.
    pub(crate) fn changed(&self, alloc: Global, change: &Change) -> Result<Order, NoMemory>
        requires order { IsOrder self.now }
        requires fits { Fits change.now self.now.count }
        requires room { count_after change.now self.now.count ≤ most_lines }
        ensures order { IfOk result IsOrder }
        ensures moved { IfOk result (AreMoved change.now self.now) }
        ensures numbers { IfOk result (λ order. length order.numbers
            ≤ max (length self.now.numbers) (count_after change.now self.now.count)) }
    {
        places_stay_apart();
        places_stay_below();
        let count = change.lines_after(self.count);
        let (start, middle, end) = parts_of(change, self.count);
        if start == middle || middle == end {
            let same = self.with_count(count)?;
            return Ok(same);
        }
        let mut numbers = self.numbers_for(count)?;
        turn(&mut numbers, start, middle, end);
        let order = Order::of(alloc, numbers, count)?;
        Ok(order)
    }

    /// [`Order::changed`], with a step for each line before and one for each line after, which are the most
    /// that it takes: where each line stays where it is, none is passed over.
    ///
    /// # Errors
    ///
    /// [`NoMemory`] where memory runs out.
    pub(crate) fn changed_counted<L: Ledger>(
        &self,
        alloc: Global,
        change: &Change,
        steps: &mut Steps<L>,
    ) -> Result<Order, NoMemory>
        requires order { IsOrder self.now }
        requires fits { Fits change.now self.now.count }
        requires room { count_after change.now self.now.count ≤ most_lines }
        ensures order { IfOk result IsOrder }
        ensures moved { IfOk result (AreMoved change.now self.now) }
        ensures numbers { IfOk result (λ order. length order.numbers
            ≤ max (length self.now.numbers) (count_after change.now self.now.count)) }
        ensures steps { steps.new ≡ steps.old + self.now.count + count_after change.now self.now.count }
    {
        steps.add(self.count);
        steps.add(change.lines_after(self.count));
        self.changed(alloc, change)
    }

    /// The numbers, and behind them as many as so many lines need.
    fn numbers_for(&self, count: u32) -> Result<Vec<u32>, NoMemory>
        requires order { IsOrder self.now }
        requires most { count ≤ most_lines }
        ensures each { IfOk result (λ numbers. AreNumbers numbers.items) }
        ensures first { IfOk result (λ numbers. (index : ℕ) → index < length self.now.numbers
            → slice_index numbers.items index ≡ number_of self.now index) }
        ensures long { IfOk result (λ numbers. length numbers.items ≡ max (length self.now.numbers) count) }
    {
        let mut numbers = self.lists.value().numbers.clone()?;
        for number in numbers.len() as u32..self.kept.max(count) {
            numbers.push(number)?;
        }
        Ok(numbers)
    }

    /// The number of the line.
    pub(crate) fn number(&self, line: u32) -> u32
        requires order { IsOrder self.now }
        requires there { line < self.now.count }
        ensures { result ≡ number_of self.now line }
    {
        entry(&self.lists.value().numbers, line)
    }

    /// Whether each line has its place as its number, as long as none came, went or moved but at the end.
    pub(crate) fn is_plain(&self) -> bool
        ensures { IsTrue result → IsPlain self.now }
    {
        self.lists.value().numbers.is_empty()
    }

    /// The place of the line with the number.
    pub(crate) fn place(&self, number: u32) -> u32
        requires { number < length self.now.places }
        ensures { result ≡ place_noted self.now number }
    {
        entry(&self.lists.value().places, number)
    }
}

/// What stands at the index of the list, or the index behind its end.
fn entry(list: &[u32], index: u32) -> u32
    ensures { result ≡ entry list.now index }
{
    match list.get(index as usize) {
        Some(entry) => *entry,
        None => index,
    }
}

fn note(places: &mut Vec<u32>, number: u32, line: u32)
    requires { number < length places.old.items }
    ensures { places.new.items ≡ slice_set places.old.items number line }
{
    places[number as usize] = line;
}

/// The two parts of the numbers of so many lines that change places: where the first begins, and where
/// it and the second end.
fn parts_of(change: &Change, count: u32) -> (u32, u32, u32)
    requires { Fits change.now count }
    ensures { result ≡ parts_of change.now count }
{
    match *change {
        Change::Insert {
            at,
            count: inserted,
        } => (at, count, count + inserted),
        Change::Delete { start, end } => (start, end, count),
        Change::Move { start, end, to } => {
            if to < start {
                (to, start, end)
            } else if end < to {
                (start, end, to)
            } else {
                (0, 0, 0)
            }
        }
    }
}
