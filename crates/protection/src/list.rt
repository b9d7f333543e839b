ghost use Rattle.std.specs.Prelude.{◌≡◌, ◌≢◌, ◌↔◌, ◌⊎◌, ℕ, ◌<◌, true, false, None, [], length, slice_get, IsSome, IfSome, IfNone, IfOk, OnOk, OnErr, IfErr, All};
ghost use Rattle.std.specs.Option.{option_copied};
ghost use Rattle.std.specs.List.{filter_map};
ghost use Rattle.grid_range.specs.Change.{Fits, count_after};
ghost use Rattle.protection.specs.Denial.{DeniesOne, DeniesSome, IsFirst, IsFirstDenial, ListedCells};
ghost use Rattle.protection.specs.Editors.{IsKeptOff};
ghost use Rattle.cell_value.specs.Ids.{IsNewId, IsLeastUnused, is_taken};
ghost use Rattle.protection.specs.Listed.{IsInOrder, has_id, with_id, with_one_more, with_changed, without_id};
ghost use Rattle.protection.specs.Patch.{is_bad, patched, blank};
ghost use Rattle.protection.specs.declared.range.ProtectionFault.TheVariants.{Bad, NoId, IdTaken, NotEditor};
ghost use Rattle.protection.specs.Following.{IsKeptWithin, protection_followed, protection_without_sheet};

use crate::following::{LineChange, SheetLoss};
use crate::ids::{add_at_place, new_id, position_of};
use crate::indexed::Indexed;
use crate::range::{Protection, ProtectionFault, ProtectionPatch};
use cell_value::{Duplicate, Items, NoMemory};
use grid_range::{Area, Axis, Change};
use std::alloc::Global;
use std::marker::Model;
use std::mem;

/// The protected ranges of a spreadsheet. Contracts see a list in order of id.
#[derive(Drop)]
pub struct Protections {
    alloc: Global,
    items: Vec<Indexed>,
}

impl Model for Protections {
    ghost use Rattle.std.specs.Prelude.{List};
    ghost use Rattle.protection.specs.declared.range.Protection.{Protection};
    ghost use Rattle.protection.specs.Listed.{IsInOrder};

    ghost Value = { List Protection };

    ghost view = { λ p. p.items.items };

    ghost invariant = { λ p. IsInOrder p.items.items };
}

impl Protections {
    /// No protected ranges. It takes no memory.
    pub fn new(alloc: Global) -> Protections
        ensures { result ≡ [] }
    {
        Protections {
            alloc,
            items: Vec::new(alloc),
        }
    }

    /// How many protected ranges there are.
    pub fn count(&self) -> u64
        ensures { result ≡ length self.now }
    {
        self.items.len() as u64
    }

    /// The protected range at the place in order of id, counted from 0; None past the last.
    pub fn list(&self, at: u32) -> Option<&Protection>
        ensures protection { option_copied result ≡ slice_get self.now at }
        ensures order { IsInOrder self.now }
    {
        Some(self.items.get(at as usize)?.get())
    }

    /// The least id of a protection that denies the user a cell of the area, on a sheet of `rows` rows
    /// and `cols` columns; None exactly where none does. It takes no memory. The cost doesn't grow with the
    /// area: n unprotected ranges cost n times the logarithm of n where they don't overlap, and n squared
    /// at worst.
    pub fn first_denial(
        &self,
        user: &str,
        owner: &str,
        area: &Area,
        rows: u32,
        cols: u32,
    ) -> Option<u32>
        ensures denied { IfSome result (IsFirstDenial user.now owner.now area.now rows cols self.now) }
        ensures allowed { IfNone result
            (All (λ one. ¬ (DeniesSome user.now owner.now area.now rows cols one)) self.now) }
    {
        for protection in &self.items {
            if protection.denies_some(user, owner, area, rows, cols) {
                return Some(protection.get().id);
            }
        }
        None
    }

    /// The protected range with the id; None where none has it.
    pub fn find(&self, id: u32) -> Option<&Protection>
        ensures { option_copied result ≡ with_id id self.now }
    {
        let at = position_of(&self.items, id)?;
        Some(self.items[at].get())
    }

    /// The least id of a protection that denies the user one of the cells of the sheet, by row and column; None
    /// exactly where none does. It takes no memory. Each protection that keeps the user off some cells of the sheet
    /// costs the number of cells, and for each cell of its area the number of its unprotected ranges.
    pub fn first_denial_listed(
        &self,
        user: &str,
        owner: &str,
        sheet: u32,
        cells: &[(u32, u32)],
    ) -> Option<u32>
        ensures denied { IfSome result (IsFirst (DeniesOne user.now owner.now (ListedCells sheet cells.now)) self.now) }
        ensures allowed { IfNone result
            (All (λ one. ¬ (DeniesOne user.now owner.now (ListedCells sheet cells.now) one)) self.now) }
    {
        for protection in &self.items {
            if protection.denies_listed(user, owner, sheet, cells) {
                return Some(protection.get().id);
            }
        }
        None
    }

    /// Adds a protected range of which the patch gives the members, and gives its id: the one that is
    /// asked for, or else the least from 1 on that none has. The user who adds it is put at the end of
    /// its editors, unless he is one of them, is the owner or it is a warning.
    ///
    /// # Errors
    ///
    /// In this order [`ProtectionFault::Bad`] where unprotected ranges are given for an area that isn't
    /// a whole sheet, [`ProtectionFault::IdTaken`] where the id that is asked for is taken, and
    /// [`ProtectionFault::NoMemory`] where memory runs out; the list is as it was.
    pub fn add(
        &mut self,
        user: &str,
        owner: &str,
        id: Option<u32>,
        patch: ProtectionPatch,
    ) -> Result<u32, ProtectionFault>
        requires given { IsSome patch.area }
        requires room { length self.old < 4294967295 }
        ensures bad { (result ≡ Err Bad) ↔ (is_bad patch None ≡ true) }
        ensures taken { (result ≡ Err IdTaken)
            ↔ ((is_bad patch None ≡ false) × (is_taken (has_id self.old) id ≡ true)) }
        ensures no_other { (result ≢ Err NoId) × (result ≢ Err NotEditor) }
        ensures id { IfOk result (IsNewId (IsLeastUnused (has_id self.old)) id) }
        ensures added { IfOk result (λ new.
            self.new ≡ with_one_more (patched user.now owner.now patch (blank new)) self.old) }
        ensures unchanged { OnErr result (self.new ≡ self.old) }
    {
        if patch.is_bad(None) {
            return Err(ProtectionFault::Bad);
        }
        let Some(id) = new_id(&self.items, id) else {
            return Err(ProtectionFault::IdTaken);
        };
        match self.add_made(user, owner, id, patch) {
            Ok(()) => Ok(id),
            Err(NoMemory) => Err(ProtectionFault::NoMemory),
        }
    }

    /// Adds a protection with the id, of which the patch gives the members.
    fn add_made(
        &mut self,
        user: &str,
        owner: &str,
        id: u32,
        patch: ProtectionPatch,
    ) -> Result<(), NoMemory>
        requires unused { with_id id self.old ≡ None }
        ensures added { OnOk result
            (self.new ≡ with_one_more (patched user.now owner.now patch (blank id)) self.old) }
        ensures unchanged { OnErr result (self.new ≡ self.old) }
    {
        let made = Protection::made(self.alloc, user, owner, id, patch)?;
        add_at_place(&mut self.items, Indexed::of(self.alloc, made)?)?;
        Ok(())
    }

    /// Puts what the patch gives in the place of what the protected range with the id has. The user who
    /// does it is put at the end of its editors, unless he is one of them, is the owner or it is a
    /// warning, which has no editors. An area that isn't a whole sheet empties the unprotected ranges.
    ///
    /// # Errors
    ///
    /// In this order [`ProtectionFault::Bad`] where unprotected ranges are given for an area that isn't
    /// a whole sheet or a warning is made one that keeps users off without editors,
    /// [`ProtectionFault::NoId`] where none has the id, [`ProtectionFault::NotEditor`] where it isn't a
    /// warning and the user is neither one of its editors nor the owner, and
    /// [`ProtectionFault::NoMemory`] where memory runs out; the list is as it was.
    pub fn update(
        &mut self,
        user: &str,
        owner: &str,
        id: u32,
        patch: ProtectionPatch,
    ) -> Result<(), ProtectionFault>
        ensures bad { (result ≡ Err Bad) ↔ (is_bad patch (with_id id self.old) ≡ true) }
        ensures no_id { (result ≡ Err NoId)
            ↔ ((is_bad patch (with_id id self.old) ≡ false) × (with_id id self.old ≡ None)) }
        ensures not_editor { (result ≡ Err NotEditor)
            ↔ ((is_bad patch (with_id id self.old) ≡ false)
            × IsKeptOff user.now owner.now (with_id id self.old)) }
        ensures no_other { result ≢ Err IdTaken }
        ensures updated { OnOk result
            (self.new ≡ with_changed id (patched user.now owner.now patch) self.old) }
        ensures unchanged { OnErr result (self.new ≡ self.old) }
    {
        let Some(at) = position_of(&self.items, id) else {
            return Err(if patch.is_bad(None) {
                ProtectionFault::Bad
            } else {
                ProtectionFault::NoId
            });
        };
        if patch.is_bad(Some(self.items[at].get())) {
            return Err(ProtectionFault::Bad);
        }
        if !self.items[at].get().may_edit(user, owner) {
            return Err(ProtectionFault::NotEditor);
        }
        match self.items[at].patch(self.alloc, user, owner, patch) {
            Ok(()) => Ok(()),
            Err(NoMemory) => Err(ProtectionFault::NoMemory),
        }
    }

    /// Takes out the protected range with the id. It takes no memory.
    ///
    /// # Errors
    ///
    /// [`ProtectionFault::NoId`] where none has the id, and [`ProtectionFault::NotEditor`] where it isn't
    /// a warning and the user is neither one of its editors nor the owner; the list is as it was.
    pub fn drop(&mut self, user: &str, owner: &str, id: u32) -> Result<(), ProtectionFault>
        ensures no_id { (result ≡ Err NoId) ↔ (with_id id self.old ≡ None) }
        ensures not_editor { (result ≡ Err NotEditor)
            ↔ IsKeptOff user.now owner.now (with_id id self.old) }
        ensures no_other { IfErr result (λ fault. (fault ≡ NoId) ⊎ (fault ≡ NotEditor)) }
        ensures dropped { OnOk result (self.new ≡ without_id id self.old) }
        ensures unchanged { OnErr result (self.new ≡ self.old) }
    {
        let Some(at) = position_of(&self.items, id) else {
            return Err(ProtectionFault::NoId);
        };
        if !self.items[at].get().may_edit(user, owner) {
            return Err(ProtectionFault::NotEditor);
        }
        self.items.remove(at);
        Ok(())
    }

    /// Has every area follow a change of the lines on the axis of the sheet, where it had `count`. A
    /// protection whose area is lost goes, and so do unprotected ranges that are lost. Those that are left
    /// are within the new number of lines. It takes no memory.
    pub fn change(&mut self, sheet: u32, axis: Axis, count: u32, change: &Change)
        requires fits { Fits change.now count }
        requires within { All (IsKeptWithin sheet axis count) self.old }
        ensures followed { self.new ≡ filter_map (protection_followed sheet axis count change.now) self.old }
        ensures within { All (IsKeptWithin sheet axis (count_after change.now count)) self.new }
    {
        let mut items = self.take_items();
        items.follow(&LineChange {
            sheet,
            axis,
            count,
            change,
        });
        self.items = items.into_vec();
    }

    /// Takes out the protections of a sheet that is deleted, and the unprotected ranges on it of those
    /// that stay. It takes no memory.
    pub fn lose_sheet(&mut self, sheet: u32)
        ensures { self.new ≡ filter_map (protection_without_sheet sheet) self.old }
    {
        let mut items = self.take_items();
        items.follow(&SheetLoss { sheet });
        self.items = items.into_vec();
    }

    /// Takes all protected ranges out, for a change in place.
    fn take_items(&mut self) -> Items<Indexed>
        ensures taken { result ≡ self.old }
        ensures order { IsInOrder result }
        ensures left { self.new ≡ [] }
    {
        Items::of(mem::replace(&mut self.items, Vec::new(self.alloc)))
    }
}

impl Duplicate for Protections {
    fn duplicate(&self) -> Result<Protections, NoMemory> {
        let mut items = Vec::with_capacity(self.alloc, self.items.len())?;
        for protection in &self.items {
            items.push(protection.copy(self.alloc)?)?;
        }
        Ok(Protections {
            alloc: self.alloc,
            items,
        })
    }
}
