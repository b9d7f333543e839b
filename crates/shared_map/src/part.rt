ghost use Rattle.std.specs.Prelude.{◌≡◌, ℕ, ◌+◌, ◌++◌, ◌<◌, ◌^◌, Option, None, Some, map, IsTrue, IfOk, OnOk, OnErr, IfErr};
ghost use Rattle.std.specs.Option.{option_copied, IsSome};
ghost use Rattle.std.specs.Borrow.{sem, LendsSoOk};
ghost use Rattle.shared_map.specs.Finding.{FindsSame, Updates};
ghost use Rattle.shared_map.specs.Found.{keys_found};

use crate::key::Key;
use cell_value::{Duplicate, NoMemory};
use std::alloc::Global;

/// A part of a map: what it finds at each key, which is counted from the part's first.
pub trait Part {
    /// What the map holds at its keys.
    type Item: Duplicate + Drop;

    /// The item at each key.
    ghost at: { Self → ℕ → Option Self.Item };

    /// A part that holds nothing. It takes no memory.
    fn empty(alloc: Global) -> Self
        ensures { (key : ℕ) → at result key ≡ None };

    /// Whether the part has no place, so that nothing is found in it. It may have places of which none
    /// holds an item, where memory ran out within a call before.
    fn is_empty(&self) -> bool
        ensures { IsTrue result → (key : ℕ) → at self.now key ≡ None };

    /// The item at the key, lent.
    fn get(&self, key: u64) -> Option<&Self::Item>
        ensures { option_copied result ≡ at self.now key };

    /// The item at the key, lent to be changed there. The key holds afterwards what the borrower left,
    /// and each other key what it held.
    ///
    /// # Errors
    ///
    /// [`NoMemory`] where memory runs out; each key holds what it held.
    fn get_mut(&mut self, key: u64) -> Result<&mut Self::Item, NoMemory>
        requires held { IsSome (at self.old key) }
        ensures* writes_back { sem 𝓛 (LendsSoOk Self.row Self.Item.row self.entry result
            (λ after item. Updates (at self.old) (at after) key (Some item))
            (λ after. FindsSame (at self.old) (at after))) }
        ensures item { IfOk result (λ item. at self.old key ≡ Some item.now) };

    /// Puts the item at the key, and gives the one that was there.
    ///
    /// # Errors
    ///
    /// [`NoMemory`] with the item where memory runs out; each key holds what it held.
    fn put(
        &mut self,
        key: u64,
        item: Self::Item,
    ) -> Result<Option<Self::Item>, (Self::Item, NoMemory)>
        ensures old { IfOk result (λ old. old ≡ at self.old key) }
        ensures put { OnOk result (Updates (at self.old) (at self.new) key (Some item)) }
        ensures back { IfErr result (λ refused. refused.0 ≡ item) }
        ensures unchanged { OnErr result (FindsSame (at self.old) (at self.new)) };

    /// Takes the item at the key out; None where it holds none.
    ///
    /// # Errors
    ///
    /// [`NoMemory`] where memory runs out; each key holds what it held.
    fn take(&mut self, key: u64) -> Result<Option<Self::Item>, NoMemory>
        ensures item { IfOk result (λ item. item ≡ at self.old key) }
        ensures taken { OnOk result (Updates (at self.old) (at self.new) key None) }
        ensures unchanged { OnErr result (FindsSame (at self.old) (at self.new)) };

    /// A part of its own that holds the same.
    ///
    /// # Errors
    ///
    /// [`NoMemory`] where memory runs out.
    fn copy(&self) -> Result<Self, NoMemory>
        ensures { IfOk result (λ copy. FindsSame (at self.now) (at copy)) };

    /// Puts behind `found` the keys from the first to the last that hold an item, each after `base`.
    ///
    /// # Errors
    ///
    /// [`NoMemory`] where memory runs out.
    fn list<K: Key>(
        &self,
        base: u64,
        first: u64,
        last: u64,
        found: &mut Vec<K>,
    ) -> Result<(), NoMemory>
        requires { base + last < 2 ^ 64 }
        ensures { OnOk result (found.new.items
            ≡ found.old.items ++ map K.listed (keys_found (at self.now) base first (last + 1))) };
}
