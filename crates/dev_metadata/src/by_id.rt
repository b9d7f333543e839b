ghost use Rattle.std.specs.Prelude.{◌≡◌, ◌<◌, ◌∷◌, ◌++◌, [], false, All, not, filter, length, slice_index_or, slice_set, IfOk, OnOk, OnErr};
ghost use Rattle.std.specs.List.{filter_map};
ghost use Rattle.std.specs.Option.{option_copied};
ghost use Rattle.grid_range.specs.Change.{Fits, count_after};
ghost use Rattle.dev_metadata.specs.Following.{IsBelow, item_followed, items_elsewhere};
ghost use Rattle.dev_metadata.specs.Given.{with_given};
ghost use Rattle.dev_metadata.specs.Listed.{HaveOwnIds, has_id, with_id, not_found};

use crate::following::{drop_found, drop_sheet};
use crate::types::{Item, Lookup};
use crate::updating::Given;
use cell_value::{Duplicate, NoMemory, follow_values};
use grid_range::{Axis, Change, SheetChange};
use indexmap::IndexMap;
use std::alloc::Global;
use std::marker::Model;

/// Items, which are found by id. Contracts see a list in order of creation.
#[derive(Drop)]
pub(crate) struct ById {
    by_id: IndexMap<u32, Item>,
}

impl Model for ById {
    ghost use Rattle.std.specs.Prelude.{List};
    ghost use Rattle.dev_metadata.specs.declared.types.Item.{Item};
    ghost use Rattle.dev_metadata.specs.Kept.{items_of, IsKept};

    ghost Value = { List Item };

    ghost view = { λ m. items_of m.by_id.entries };

    ghost invariant = { λ m. IsKept m.by_id.entries };
}

impl ById {
    /// No items. It takes no memory.
    pub(crate) fn new(alloc: Global) -> ById
        ensures { result ≡ [] }
    {
        ById {
            by_id: IndexMap::new(alloc),
        }
    }

    /// How many items there are.
    pub(crate) fn len(&self) -> usize
        ensures { result ≡ length self.now }
    {
        self.by_id.len()
    }

    /// The item at the place in order of creation.
    pub(crate) fn at(&self, at: usize) -> &Item
        requires { at < length self.now }
        ensures item { result.now ≡ slice_index_or self.now at result.now }
        ensures ids { HaveOwnIds self.now }
    {
        &self.by_id[at]
    }

    /// The item with the id, which is found without going over the others.
    pub(crate) fn get(&self, id: u32) -> Option<&Item>
        ensures item { option_copied result ≡ with_id id self.now }
        ensures ids { HaveOwnIds self.now }
    {
        self.by_id.get(&id)
    }

    /// Whether some item has the id, which is told without going over them.
    pub(crate) fn has_id(&self, id: u32) -> bool
        ensures { result ≡ has_id self.now id }
    {
        self.by_id.contains_key(&id)
    }

    /// Puts an item behind the others.
    pub(crate) fn push(&mut self, item: Item) -> Result<(), NoMemory>
        requires { has_id self.old item.id ≡ false }
        ensures added { OnOk result (self.new ≡ self.old ++ item ∷ []) }
        ensures unchanged { OnErr result (self.new ≡ self.old) }
    {
        self.by_id.insert(item.id, item)?;
        Ok(())
    }

    /// A copy of the items.
    pub(crate) fn copy(&self, alloc: Global) -> Result<ById, NoMemory>
        ensures { IfOk result (λ copy. copy ≡ self.now) }
    {
        let mut copy = ById::new(alloc);
        for at in 0..self.len() {
            copy.push(self.at(at).duplicate()?)?;
        }
        Ok(copy)
    }

    /// Puts what is given in the place of what the item at the place has.
    pub(crate) fn give(&mut self, at: usize, given: Given)
        requires { at < length self.old }
        ensures { (item : _) → self.new
            ≡ slice_set self.old at (with_given given (slice_index_or self.old at item)) }
    {
        self.by_id[at].give(given);
    }

    /// Takes out the items that the look-up finds.
    pub(crate) fn drop_found(&mut self, lookup: &Lookup, project: &str)
        ensures { self.new ≡ not_found lookup.now project.now self.old }
    {
        drop_found(&mut self.by_id, lookup, project);
    }

    /// Takes out the items that are on the sheet or a line of it.
    pub(crate) fn drop_sheet(&mut self, sheet: u32)
        ensures { self.new ≡ items_elsewhere sheet self.old }
    {
        drop_sheet(&mut self.by_id, sheet);
    }

    /// Has each item follow the change, and takes out those that are lost.
    pub(crate) fn follow(&mut self, sheet: u32, axis: Axis, count: u32, change: &Change)
        requires fits { Fits change.now count }
        requires below { All (IsBelow sheet axis count) self.old }
        ensures followed { self.new ≡ filter_map (item_followed sheet axis change.now) self.old }
        ensures below { All (IsBelow sheet axis (count_after change.now count)) self.new }
    {
        let by = SheetChange {
            sheet,
            axis,
            count,
            change,
        };
        follow_values(&mut self.by_id, &by);
    }
}
