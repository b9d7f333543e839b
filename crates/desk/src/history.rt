ghost use Rattle.std.specs.Prelude.{◌≡◌, length, IfOk};
ghost use Rattle.desk.specs.Journal.{journal_text};

use crate::{Engine, Noted};
use cell_value::{Bytes, NoMemory};
use std::alloc::Global;
use std::marker::Model;

/// A history that is closed: its entries, and the world that stands for them. Contracts see the entries.
pub struct History<E: Engine> {
    pub(crate) world: E::World,
    pub(crate) list: Vec<Noted>,
    pub(crate) entries: u64,
    pub(crate) bytes: u64,
}

impl<E: Engine> Model for History<E> {
    ghost use Rattle.desk.specs.declared.entry.Entry.{Entry};
    ghost use Rattle.std.specs.Prelude.{List, ◌≡◌, length};
    ghost use Rattle.desk.specs.Points.{entries_of};
    ghost use Rattle.desk.specs.Journal.{journal_text};

    ghost Value = { List Entry };

    ghost view = { λ h. entries_of h.list.items };

    ghost invariant = { λ h. E.stands h.world (entries_of h.list.items) × (h.entries ≡ length (entries_of h.list.items))
        × (h.bytes ≡ length (journal_text (entries_of h.list.items))) };
}

impl<E: Engine> Drop for History<E> {
    fn drop(self) {
        let Self {
            world: _,
            list: _,
            entries: _,
            bytes: _,
        } = self;
    }
}

/// What a history comes to.
#[derive(Clone, Copy, Debug, PartialEq, Eq)]
pub struct Summary {
    /// How many calls were accepted.
    pub accepted: u64,
    /// How many cells the world has after them.
    pub cells: u64,
    /// How many bytes their journal has.
    pub bytes: u64,
}

impl<E: Engine> History<E> {
    /// What it comes to. It takes no memory.
    pub fn summary(&self) -> Summary
        ensures accepted { result.accepted ≡ length self.now }
        ensures cells { E.cells self.now result.cells }
        ensures bytes { result.bytes ≡ length (journal_text self.now) }
    {
        Summary {
            accepted: self.entries,
            cells: E::count_cells(&self.world),
            bytes: self.bytes,
        }
    }
    /// A text that tells what its calls made: that of the world after them.
    ///
    /// # Errors
    ///
    /// [`NoMemory`] where memory runs out.
    pub fn dump(&self, alloc: Global) -> Result<Bytes, NoMemory>
        ensures { IfOk result (E.dumps self.now) }
    {
        E::dump(alloc, &self.world)
    }
}
