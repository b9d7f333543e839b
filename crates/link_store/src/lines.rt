ghost use Rattle.std.specs.Prelude.{◌≡◌, ℕ, ◌+◌, ◌-◌, ◌*◌, ◌<◌, ◌≤◌, [], length, slice_index, IfOk, OnOk, OnErr};
ghost use Rattle.std.specs.List.Sorted.{IsPermutation};
ghost use Rattle.cell_store.specs.Table.{most_lines};
ghost use Rattle.link_store.specs.Lists.{entries_of, live_nodes};
ghost use Rattle.cell_store.specs.Turning.{source};
ghost use Rattle.link_store.specs.Lines.{AreLines, AreSameLines, HasSameEntries, list_of};

use crate::lists::Links;
use cell_store::turn;
use cell_value::{NoMemory, Steps};
use std::alloc::Global;
use std::marker::Brand;
use std::sync::ledger::{Blank, Ledger};

/// The lines of one axis, each with a list of entries.
#[derive(Drop)]
pub(crate) struct Lines<E> {
    pub(crate) links: Links<E>,
    /// The lists of the lines in order, and behind them empty ones, for lines to come.
    pub(crate) lists: Vec<u32>,
    pub(crate) count: u32,
}

impl<E: Drop> Lines<E> {
    /// So many lines with no entries, and room for so many of these.
    ///
    /// # Errors
    ///
    /// [`NoMemory`] where memory runs out.
    pub(crate) fn new(alloc: Global, count: u32, entries: u32) -> Result<Lines<E>, NoMemory>
        requires { count ≤ most_lines }
        ensures lines { IfOk result AreLines }
        ensures count { IfOk result (λ lines. lines.count ≡ count) }
        ensures empty { IfOk result (λ lines. (list : ℕ) → entries_of lines.links list ≡ []) }
        ensures none { IfOk result (λ lines. live_nodes lines.links ≡ 0) }
        ensures lists { IfOk result (λ lines. length lines.lists.items ≡ count) }
    {
        Lines::with_steps::<Brand>(alloc, count, entries, Blank::new(1))
    }

    /// The same, with steps on a ledger of its own.
    fn with_steps<L: Ledger>(
        alloc: Global,
        count: u32,
        entries: u32,
        blank: Blank,
    ) -> Result<Lines<E>, NoMemory>
        requires name { blank.name ≡ L.name }
        requires parts { blank.parts ≡ L.parts }
        requires open { 0 < blank.parts }
        requires most { count ≤ most_lines }
        ensures lines { IfOk result AreLines }
        ensures count { IfOk result (λ lines. lines.count ≡ count) }
        ensures empty { IfOk result (λ lines. (list : ℕ) → entries_of lines.links list ≡ []) }
        ensures none { IfOk result (λ lines. live_nodes lines.links ≡ 0) }
        ensures lists { IfOk result (λ lines. length lines.lists.items ≡ count) }
    {
        let mut steps = Steps::<L>::new(blank);
        let mut lines = Lines {
            links: Links::with_capacity(alloc, count, entries)?,
            lists: Vec::with_capacity(alloc, count as usize)?,
            count: 0,
        };
        lines.reserve(count, &mut steps)?;
        lines.count = count;
        Ok(lines)
    }
}

impl<E> Lines<E> {
    /// The list of the line.
    pub(crate) fn list(&self, line: u32) -> u32
        requires lines { AreLines self.now }
        requires there { line < length self.now.lists.items }
        ensures value { result ≡ list_of self.now line }
        ensures within { result < length self.now.links }
    {
        self.lists[line as usize]
    }

    /// Adds an empty list for a line to come.
    ///
    /// # Errors
    ///
    /// [`NoMemory`] where memory runs out; the lines are as they were.
    pub(crate) fn add_list<L: Ledger>(&mut self, steps: &mut Steps<L>) -> Result<(), NoMemory>
        requires lines { AreLines self.old }
        requires room { length self.old.lists.items < most_lines }
        ensures lines { AreLines self.new }
        ensures same { AreSameLines self.old self.new }
        ensures entries { HasSameEntries self.old self.new }
        ensures added { OnOk result (length self.new.lists.items ≡ length self.old.lists.items + 1) }
        ensures refused { OnErr result (length self.new.lists.items ≡ length self.old.lists.items) }
        ensures steps { steps.new ≤ steps.old + 2 }
    {
        steps.tick();
        self.lists.push(self.lists.len() as u32)?;
        match self.links.add_list_counted(steps) {
            Ok(_) => Ok(()),
            Err(fault) => {
                self.lists.pop();
                Err(fault)
            }
        }
    }

    /// Puts the part of the lists from `middle` to `end` before the one from `start` to `middle`.
    pub(crate) fn turn<L: Ledger>(
        &mut self,
        start: u32,
        middle: u32,
        end: u32,
        steps: &mut Steps<L>,
    )
        requires order { (start ≤ middle) × (middle ≤ end) }
        requires end { end ≤ length self.old.lists.items }
        ensures links { self.new.links ≡ self.old.links }
        ensures count { self.new.count ≡ self.old.count }
        ensures length { length self.new.lists.items ≡ length self.old.lists.items }
        ensures numbers { IsPermutation self.old.lists.items self.new.lists.items }
        ensures order { (index : ℕ) → index < length self.old.lists.items
            → slice_index self.new.lists.items index
            ≡ slice_index self.old.lists.items (source start middle end index) }
        ensures steps { steps.new ≡ steps.old + (end - start) }
    {
        steps.add(end - start);
        turn(&mut self.lists, start, middle, end);
    }
}
