ghost use Rattle.std.specs.Prelude.{◌≡◌, ◌≢◌, ◌↔◌, ◌<◌, ◌∷◌, ◌++◌, [], true, false, None, Some, IfOk, IfErr, OnOk, OnErr, length, All};
ghost use Rattle.std.specs.List.{filter_map};
ghost use Rattle.std.specs.Option.{option_copied};
ghost use Rattle.grid_range.specs.Change.{Fits, count_after};
ghost use Rattle.cell_value.specs.Ids.{is_taken, IsLeastUnused, IsNewId};
ghost use Rattle.dev_metadata.specs.Following.{IsBelow, item_followed, items_elsewhere};
ghost use Rattle.dev_metadata.specs.Listed.{HaveOwnIds, AreIdsInOrder, AreInOrderOfId, has_id, seen_with_id, with_one_more, found, found_by_some, not_found};
ghost use Rattle.dev_metadata.specs.Lookup.{is_bad, has_bad};
ghost use Rattle.dev_metadata.specs.Patch.{with_patched};
ghost use Rattle.dev_metadata.specs.declared.types.MetaFault.TheVariants.{NoId, IdTaken, BadLookup};

use crate::by_id::ById;
use crate::finding::{found_ids, found_items};
use crate::ids::{is_taken, new_id};
use crate::matching::has_bad;
use crate::types::{Item, ItemPatch, Lookup, MetaFault, Spot, Visibility};
use crate::updating::patch_found;
use cell_value::{Duplicate, Items, NoMemory, Text};
use grid_range::{Axis, Change};
use std::alloc::Global;
use std::marker::Model;

/// The metadata of a spreadsheet. Contracts see a list in order of creation.
#[derive(Drop)]
pub struct Metadata {
    alloc: Global,
    items: ById,
    /// All ids from 1 on below it are those of items: where the search of an unused one begins.
    used_below: u32,
}

impl Model for Metadata {
    ghost use Rattle.std.specs.Prelude.{List};
    ghost use Rattle.dev_metadata.specs.declared.types.Item.{Item};
    ghost use Rattle.dev_metadata.specs.Used.{AreUsedBelow};

    ghost Value = { List Item };

    ghost view = { λ m. m.items };

    ghost invariant = { λ m. AreUsedBelow m.items m.used_below };
}

impl Metadata {
    /// No metadata. It takes no memory.
    pub fn new(alloc: Global) -> Metadata
        ensures { result ≡ [] }
    {
        Metadata {
            alloc,
            items: ById::new(alloc),
            used_below: 1,
        }
    }

    /// How many items there are.
    pub fn count(&self) -> u64
        ensures { result ≡ length self.now }
    {
        self.items.len() as u64
    }

    /// Whether an item has the id, which is told without going over them. It takes no memory.
    pub fn has_id(&self, id: u32) -> bool
        ensures { result ≡ has_id self.now id }
    {
        self.items.has_id(id)
    }

    /// Adds an item behind the others, and gives its id: the one that is asked for, or else the least
    /// from 1 on that none has.
    ///
    /// # Errors
    ///
    /// [`MetaFault::IdTaken`] where an item has the id that is asked for, whether it is seen or not, and
    /// [`MetaFault::NoMemory`] where memory runs out; the list is as it was.
    pub fn create(
        &mut self,
        id: Option<u32>,
        key: Text,
        value: Text,
        spot: Spot,
        visibility: Visibility,
    ) -> Result<u32, MetaFault>
        requires room { length self.old < 4294967295 }
        ensures taken { (result ≡ Err IdTaken) ↔ (is_taken (has_id self.old) id ≡ true) }
        ensures no_other { (result ≢ Err NoId) × (result ≢ Err BadLookup) }
        ensures id { IfOk result (IsNewId (IsLeastUnused (has_id self.old)) id) }
        ensures added { IfOk result (λ new.
            self.new ≡ with_one_more new key value spot visibility self.old) }
        ensures unchanged { OnErr result (self.new ≡ self.old) }
    {
        if is_taken(&self.items, id) {
            return Err(MetaFault::IdTaken);
        }
        match self.add_last(id, key, value, spot, visibility) {
            Ok(id) => Ok(id),
            Err(NoMemory) => Err(MetaFault::NoMemory),
        }
    }

    /// Adds an item with a new id, and gives the id.
    fn add_last(
        &mut self,
        asked: Option<u32>,
        key: Text,
        value: Text,
        spot: Spot,
        visibility: Visibility,
    ) -> Result<u32, NoMemory>
        requires room { length self.old < 4294967295 }
        requires free { is_taken (has_id self.old) asked ≡ false }
        ensures id { IfOk result (IsNewId (IsLeastUnused (has_id self.old)) asked) }
        ensures added { IfOk result (λ new.
            self.new ≡ with_one_more new key value spot visibility self.old) }
        ensures unchanged { OnErr result (self.new ≡ self.old) }
    {
        let id = new_id(&self.items, self.used_below, asked)?;
        self.items.push(Item {
            id,
            key,
            value,
            spot,
            visibility,
        })?;
        if asked.is_none() {
            self.used_below = id;
        }
        Ok(id)
    }

    /// The item with the id, as a call of the project sees it. It takes no memory.
    ///
    /// # Errors
    ///
    /// [`MetaFault::NoId`] where no item that the project sees has the id.
    pub fn get(&self, id: u32, project: &str) -> Result<&Item, MetaFault>
        ensures no_id { (result ≡ Err NoId) ↔ (seen_with_id id project.now self.now ≡ None) }
        ensures no_other { IfErr result (λ fault. fault ≡ NoId) }
        ensures item { IfOk result (λ item. seen_with_id id project.now self.now ≡ Some item.now) }
        ensures ids { HaveOwnIds self.now }
    {
        match self.seen(id, project) {
            Some(item) => Ok(item),
            None => Err(MetaFault::NoId),
        }
    }

    /// The item with the id, if the project sees it.
    fn seen(&self, id: u32, project: &str) -> Option<&Item>
        ensures item { option_copied result ≡ seen_with_id id project.now self.now }
        ensures ids { HaveOwnIds self.now }
    {
        match self.items.get(id) {
            Some(item) if item.visibility.is_seen_under(project) => Some(item),
            _ => None,
        }
    }

    /// The ids of the items that the project sees and that meet one of the look-ups, in order.
    ///
    /// # Errors
    ///
    /// [`MetaFault::BadLookup`] where one of the look-ups asks nothing or for what can't stand together,
    /// and [`MetaFault::NoMemory`] where memory runs out.
    pub fn search(&self, lookups: &Items<Lookup>, project: &str) -> Result<Items<u32>, MetaFault>
        ensures bad { (result ≡ Err BadLookup) ↔ (has_bad lookups.now ≡ true) }
        ensures no_other { (result ≢ Err NoId) × (result ≢ Err IdTaken) }
        ensures found { IfOk result
            (AreIdsInOrder (found_by_some lookups.now project.now self.now)) }
    {
        if has_bad(lookups.as_slice()) {
            return Err(MetaFault::BadLookup);
        }
        match found_ids(self.alloc, &self.items, lookups.as_slice(), project) {
            Ok(ids) => Ok(Items::of(ids)),
            Err(NoMemory) => Err(MetaFault::NoMemory),
        }
    }

    /// Puts what the patch gives in the place of what the items have that the project sees and that meet
    /// one of the look-ups, and gives their ids in order. Their ids and places stay.
    ///
    /// # Errors
    ///
    /// [`MetaFault::BadLookup`] where one of the look-ups asks nothing or for what can't stand together,
    /// and [`MetaFault::NoMemory`] where memory runs out; the list is as it was.
    pub fn update(
        &mut self,
        lookups: &Items<Lookup>,
        project: &str,
        patch: &ItemPatch,
    ) -> Result<Items<u32>, MetaFault>
        ensures bad { (result ≡ Err BadLookup) ↔ (has_bad lookups.now ≡ true) }
        ensures no_other { (result ≢ Err NoId) × (result ≢ Err IdTaken) }
        ensures found { IfOk result
            (AreIdsInOrder (found_by_some lookups.now project.now self.old)) }
        ensures updated { OnOk result
            (self.new ≡ with_patched lookups.now project.now patch.now self.old) }
        ensures unchanged { OnErr result (self.new ≡ self.old) }
    {
        if has_bad(lookups.as_slice()) {
            return Err(MetaFault::BadLookup);
        }
        match self.update_found(lookups.as_slice(), project, patch) {
            Ok(ids) => Ok(Items::of(ids)),
            Err(NoMemory) => Err(MetaFault::NoMemory),
        }
    }

    /// Updates the items that one of the look-ups finds, and gives their ids in order.
    fn update_found(
        &mut self,
        lookups: &[Lookup],
        project: &str,
        patch: &ItemPatch,
    ) -> Result<Vec<u32>, NoMemory>
        ensures found { IfOk result
            (λ ids. AreIdsInOrder (found_by_some lookups.now project.now self.old) ids.items) }
        ensures updated { OnOk result
            (self.new ≡ with_patched lookups.now project.now patch.now self.old) }
        ensures unchanged { OnErr result (self.new ≡ self.old) }
    {
        let ids = found_ids(self.alloc, &self.items, lookups, project)?;
        patch_found(self.alloc, &mut self.items, lookups, project, patch)?;
        Ok(ids)
    }

    /// Takes out the items that the project sees and that meet the look-up, and gives them in order of
    /// id.
    ///
    /// # Errors
    ///
    /// [`MetaFault::BadLookup`] where the look-up asks nothing or for what can't stand together, and
    /// [`MetaFault::NoMemory`] where memory runs out; the list is as it was.
    pub fn drop(&mut self, lookup: &Lookup, project: &str) -> Result<Items<Item>, MetaFault>
        ensures bad { (result ≡ Err BadLookup) ↔ (is_bad lookup.now ≡ true) }
        ensures no_other { (result ≢ Err NoId) × (result ≢ Err IdTaken) }
        ensures dropped { IfOk result (AreInOrderOfId (found lookup.now project.now self.old)) }
        ensures left { OnOk result (self.new ≡ not_found lookup.now project.now self.old) }
        ensures unchanged { OnErr result (self.new ≡ self.old) }
    {
        if lookup.is_bad() {
            return Err(MetaFault::BadLookup);
        }
        match self.take_found(lookup, project) {
            Ok(items) => Ok(Items::of(items)),
            Err(NoMemory) => Err(MetaFault::NoMemory),
        }
    }

    /// Takes out the items that the look-up finds, and gives them in order of id.
    fn take_found(&mut self, lookup: &Lookup, project: &str) -> Result<Vec<Item>, NoMemory>
        ensures dropped { IfOk result
            (λ items. AreInOrderOfId (found lookup.now project.now self.old) items.items) }
        ensures left { OnOk result (self.new ≡ not_found lookup.now project.now self.old) }
        ensures unchanged { OnErr result (self.new ≡ self.old) }
    {
        let found = found_items(self.alloc, &self.items, lookup, project)?;
        self.items.drop_found(lookup, project);
        self.used_below = 1;
        Ok(found)
    }

    /// Has every item follow a change of the lines on the axis of the sheet, where it had `count`. An
    /// item whose line is deleted goes; the order stays. It takes no memory.
    pub fn change(&mut self, sheet: u32, axis: Axis, count: u32, change: &Change)
        requires fits { Fits change.now count }
        requires below { All (IsBelow sheet axis count) self.old }
        ensures followed { self.new ≡ filter_map (item_followed sheet axis change.now) self.old }
        ensures below { All (IsBelow sheet axis (count_after change.now count)) self.new }
    {
        self.items.follow(sheet, axis, count, change);
        self.used_below = 1;
    }

    /// Takes out the items of a sheet that is deleted and of its lines. It takes no memory.
    pub fn lose_sheet(&mut self, sheet: u32)
        ensures { self.new ≡ items_elsewhere sheet self.old }
    {
        self.items.drop_sheet(sheet);
        self.used_below = 1;
    }
}

impl Duplicate for Metadata {
    fn duplicate(&self) -> Result<Metadata, NoMemory> {
        Ok(Metadata {
            alloc: self.alloc,
            items: self.items.copy(self.alloc)?,
            used_below: self.used_below,
        })
    }
}
