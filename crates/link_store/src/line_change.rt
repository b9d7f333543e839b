ghost use Rattle.std.specs.Prelude.{◌≡◌, ℕ, ◌+◌, ◌-◌, ◌*◌, ◌<◌, ◌≤◌, [], length, max, OnOk, OnErr};
ghost use Rattle.grid_range.specs.declared.change.Change.TheVariants.{Insert, Delete, Move};
ghost use Rattle.grid_range.specs.Change.{Fits, count_after};
ghost use Rattle.cell_store.specs.Table.{most_lines};
ghost use Rattle.link_store.specs.Lines.{AreLines, AreSameLines, AreMoved, HasSameEntries, HasNothingOnDeleted};
ghost use Rattle.link_store.specs.Lines.{IsInsertion, OpenedFrom, list_of};
ghost use Rattle.std.specs.List.Sorted.{IsPermutation};

use crate::lines::Lines;
use cell_value::{NoMemory, Steps};
use grid_range::{Change, places_stay_apart, places_stay_below};
use std::sync::ledger::Ledger;

impl<E> Lines<E> {
    /// Adds empty lists until there are so many.
    ///
    /// # Errors
    ///
    /// [`NoMemory`] where memory runs out; the lines are as they were.
    pub(crate) fn reserve<L: Ledger>(
        &mut self,
        room: u32,
        steps: &mut Steps<L>,
    ) -> Result<(), NoMemory>
        requires lines { AreLines self.old }
        requires most { room ≤ most_lines }
        ensures lines { AreLines self.new }
        ensures same { AreSameLines self.old self.new }
        ensures entries { HasSameEntries self.old self.new }
        ensures room { OnOk result (room ≤ length self.new.lists.items) }
        ensures lists { length self.new.lists.items ≤ max (length self.old.lists.items) room }
        ensures steps { steps.new ≤ steps.old + 2 * (room - length self.old.lists.items) }
    {
        for _ in self.lists.len() as u32..room {
            self.add_list(steps)?;
        }
        Ok(())
    }

    /// Puts numbers of lists of no line, as many as `count`, before the list of the line at `at`.
    fn open<L: Ledger>(&mut self, at: u32, count: u32, steps: &mut Steps<L>)
        requires at { (at ≤ self.old.count) × (0 < count) }
        requires room { self.old.count + count ≤ length self.old.lists.items }
        ensures links { self.new.links ≡ self.old.links }
        ensures count { self.new.count ≡ self.old.count }
        ensures length { length self.new.lists.items ≡ length self.old.lists.items }
        ensures numbers { IsPermutation self.old.lists.items self.new.lists.items }
        ensures order { (index : ℕ) → index < length self.old.lists.items → (old : ℕ)
            × OpenedFrom at count self.old.count index old × (list_of self.new index ≡ list_of self.old old) }
        ensures steps { steps.new ≡ steps.old + 2 * (self.old.count - at) }
    {
        for moved in 0..self.count - at {
            let line = (self.count - 1 - moved) as usize;
            self.lists.swap(line, line + count as usize);
            steps.add(2);
        }
    }

    /// Puts so many lines with no entries before the line at `at`.
    ///
    /// # Errors
    ///
    /// [`NoMemory`] where memory runs out; the lines are as they were.
    fn insert<L: Ledger>(
        &mut self,
        at: u32,
        count: u32,
        steps: &mut Steps<L>,
    ) -> Result<(), NoMemory>
        requires lines { AreLines self.old }
        requires fits { Fits (Insert at count) self.old.count }
        requires room { self.old.count + count ≤ most_lines }
        ensures lines { AreLines self.new }
        ensures moved { OnOk result (AreMoved (Insert at count) self.old self.new) }
        ensures unchanged { OnErr result (AreSameLines self.old self.new) }
        ensures entries { HasSameEntries self.old self.new }
        ensures lists { length self.new.lists.items ≤ max (length self.old.lists.items) (self.old.count + count) }
        ensures steps { steps.new ≤ steps.old + 2 * self.old.count + 2 * count }
    {
        let after = self.count + count;
        self.reserve(after, steps)?;
        self.open(at, count, steps);
        self.count = after;
        Ok(())
    }

    /// Takes away the lines from `start` to `end - 1`, whose lists are used again.
    fn delete<L: Ledger>(&mut self, start: u32, end: u32, steps: &mut Steps<L>)
        requires lines { AreLines self.old }
        requires fits { Fits (Delete start end) self.old.count }
        requires empty { HasNothingOnDeleted (Delete start end) self.old }
        ensures lines { AreLines self.new }
        ensures moved { AreMoved (Delete start end) self.old self.new }
        ensures entries { HasSameEntries self.old self.new }
        ensures lists { length self.new.lists.items ≡ length self.old.lists.items }
        ensures steps { steps.new ≤ steps.old + self.old.count }
    {
        places_stay_apart();
        places_stay_below();
        self.turn(start, end, self.count, steps);
        self.count -= end - start;
    }

    /// Puts the lines from `start` to `end - 1` before the line that stood at `to`.
    fn shift<L: Ledger>(&mut self, start: u32, end: u32, to: u32, steps: &mut Steps<L>)
        requires lines { AreLines self.old }
        requires fits { Fits (Move start end to) self.old.count }
        ensures lines { AreLines self.new }
        ensures moved { AreMoved (Move start end to) self.old self.new }
        ensures entries { HasSameEntries self.old self.new }
        ensures lists { length self.new.lists.items ≡ length self.old.lists.items }
        ensures steps { steps.new ≤ steps.old + self.old.count }
    {
        places_stay_apart();
        places_stay_below();
        if to < start {
            self.turn(to, start, end, steps);
        } else if end < to {
            self.turn(start, end, to, steps);
        }
    }

    /// Makes the change, with the lists of the lines that stay as they are.
    ///
    /// # Errors
    ///
    /// [`NoMemory`] where memory runs out; the lines are as they were.
    pub(crate) fn change<L: Ledger>(
        &mut self,
        change: &Change,
        steps: &mut Steps<L>,
    ) -> Result<(), NoMemory>
        requires lines { AreLines self.old }
        requires fits { Fits change.now self.old.count }
        requires room { count_after change.now self.old.count ≤ most_lines }
        requires empty { HasNothingOnDeleted change.now self.old }
        ensures lines { AreLines self.new }
        ensures moved { OnOk result (AreMoved change.now self.old self.new) }
        ensures unchanged { OnErr result (AreSameLines self.old self.new) }
        ensures only { OnErr result (IsInsertion change.now) }
        ensures entries { HasSameEntries self.old self.new }
        ensures lists { length self.new.lists.items
            ≤ max (length self.old.lists.items) (count_after change.now self.old.count) }
        ensures steps { steps.new ≤ steps.old + self.old.count + 2 * count_after change.now self.old.count }
    {
        match *change {
            Change::Insert { at, count } => self.insert(at, count, steps),
            Change::Delete { start, end } => {
                self.delete(start, end, steps);
                Ok(())
            }
            Change::Move { start, end, to } => {
                self.shift(start, end, to, steps);
                Ok(())
            }
        }
    }
}
