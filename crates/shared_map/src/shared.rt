ghost use Rattle.std.specs.Prelude.{◌≡◌, ℕ, ◌+◌, ◌++◌, ◌<◌, ◌^◌, Option, None, Some, map, IsTrue, IfOk, OnOk, OnErr, IfErr};
ghost use Rattle.std.specs.Option.{option_copied, IsSome};
ghost use Rattle.std.specs.Borrow.{sem, LendsSoOk};
ghost use Rattle.shared_map.specs.Finding.{FindsSame, Updates};
ghost use Rattle.shared_map.specs.Found.{keys_found};
ghost use Rattle.shared_map.specs.contracts.shared.Shared.{the_row};

use crate::key::Key;
use crate::part::Part;
use cell_value::NoMemory;
use std::alloc::{AllocError, Global};
use std::marker::Model;
use std::sync::Arc;

/// A part as it is cloned where it is shared and to be written to.
#[derive(Drop)]
struct Copied<C> {
    part: C,
}

impl<C: Part + Drop> Clone for Copied<C> {
    ghost is_clone = { λ old new. FindsSame (C.at old.part) (C.at new.part) };

    fn clone(&self) -> Result<Copied<C>, AllocError> {
        match self.part.copy() {
            Ok(part) => Ok(Copied { part }),
            Err(_) => Err(AllocError),
        }
    }
}

/// A part that versions of a map share, until one of them writes to it. Contracts see the part.
#[derive(Drop)]
pub struct Shared<C> {
    shared: Arc<Copied<C>>,
}

impl<C> Model for Shared<C> {
    ghost use Rattle.std.specs.Arc.{arc_value};

    ghost Value = { C };

    ghost coded = { C.code };

    ghost view = { λ s. (arc_value s.shared).part };
}

impl<C: Part + Drop> Shared<C> {
    /// A part that holds nothing.
    ///
    /// # Errors
    ///
    /// [`NoMemory`] where memory runs out.
    pub fn empty(alloc: Global) -> Result<Shared<C>, NoMemory>
        ensures { IfOk result (λ part. (key : ℕ) → C.at part key ≡ None) }
    {
        let part = C::empty(alloc);
        let shared = Arc::new(alloc, Copied { part })?;
        Ok(Shared { shared })
    }

    /// The same part once more: nothing in it is copied.
    ///
    /// # Errors
    ///
    /// [`NoMemory`] where it is shared too often.
    pub fn share(&self) -> Result<Shared<C>, NoMemory>
        ensures { IfOk result (λ part. part ≡ self.now) }
    {
        let shared = self.shared.clone()?;
        Ok(Shared { shared })
    }

    /// [`Part::is_empty`].
    pub fn is_empty(&self) -> bool
        ensures { IsTrue result → (key : ℕ) → C.at self.now key ≡ None }
    {
        self.shared.part.is_empty()
    }

    /// [`Part::get`].
    pub fn get(&self, key: u64) -> Option<&C::Item>
        ensures { option_copied result ≡ C.at self.now key }
    {
        self.shared.part.get(key)
    }

    /// [`Part::get_mut`].
    pub fn get_mut(&mut self, key: u64) -> Result<&mut C::Item, NoMemory>
        requires held { IsSome (C.at self.old key) }
        ensures* writes_back { sem 𝓛 (LendsSoOk (the_row C.row) C.Item.row self.entry result
            (λ after item. Updates (C.at self.old) (C.at after) key (Some item))
            (λ after. FindsSame (C.at self.old) (C.at after))) }
        ensures item { IfOk result (λ item. C.at self.old key ≡ Some item.now) }
    {
        match Arc::make_mut(&mut self.shared) {
            Ok(own) => own.part.get_mut(key),
            Err(_) => Err(NoMemory),
        }
    }

    /// [`Part::put`].
    pub fn put(&mut self, key: u64, item: C::Item) -> Result<Option<C::Item>, (C::Item, NoMemory)>
        ensures old { IfOk result (λ old. old ≡ C.at self.old key) }
        ensures put { OnOk result (Updates (C.at self.old) (C.at self.new) key (Some item)) }
        ensures back { IfErr result (λ refused. refused.0 ≡ item) }
        ensures unchanged { OnErr result (FindsSame (C.at self.old) (C.at self.new)) }
    {
        match Arc::make_mut(&mut self.shared) {
            Ok(own) => own.part.put(key, item),
            Err(_) => Err((item, NoMemory)),
        }
    }

    /// [`Part::take`].
    pub fn take(&mut self, key: u64) -> Result<Option<C::Item>, NoMemory>
        ensures item { IfOk result (λ item. item ≡ C.at self.old key) }
        ensures taken { OnOk result (Updates (C.at self.old) (C.at self.new) key None) }
        ensures unchanged { OnErr result (FindsSame (C.at self.old) (C.at self.new)) }
    {
        match Arc::make_mut(&mut self.shared) {
            Ok(own) => own.part.take(key),
            Err(_) => Err(NoMemory),
        }
    }

    /// [`Part::list`].
    pub fn list<K: Key>(
        &self,
        base: u64,
        first: u64,
        last: u64,
        found: &mut Vec<K>,
    ) -> Result<(), NoMemory>
        requires { base + last < 2 ^ 64 }
        ensures { OnOk result (found.new.items
            ≡ found.old.items ++ map K.listed (keys_found (C.at self.now) base first (last + 1))) }
    {
        self.shared.part.list(base, first, last, found)
    }
}
