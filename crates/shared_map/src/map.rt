ghost use Rattle.std.specs.Prelude.{◌≡◌, ℕ, ◌<◌, ◌^◌, [], Some, IfOk, OnOk, OnErr, IfErr};
ghost use Rattle.std.specs.Option.{option_copied, IsSome};
ghost use Rattle.std.specs.FinMap as map;
ghost use Rattle.shared_map.specs.Map.{AreKeysWithin, AreListed};
ghost use Rattle.std.specs.Borrow.{sem, LendsSoOk};
ghost use Rattle.shared_map.specs.contracts.map.SharedMap.{the_row};

use crate::branch::Branch;
use crate::headed::Headed;
use crate::key::Key;
use crate::line::Line;
use crate::shared::Shared;
use cell_value::{Duplicate, NoMemory};
use std::alloc::Global;
use std::marker::Model;

/// All keys of 64 bits: of the upper 32 the digits of a line again. The way to the first 4,096 lines is two
/// parts long.
type Root<T> = Headed<
    Branch<Branch<Line<T>, 4_294_967_296>, 274_877_906_944>,
    Branch<
        Branch<Branch<Branch<Line<T>, 4_294_967_296>, 274_877_906_944>, 17_592_186_044_416>,
        1_125_899_906_842_624,
    >,
    17_592_186_044_416,
>;

/// A finite map from keys of 64 bits to items, of which any number of versions can be held: a copy
/// copies no item, and a write to one version shows in no other.
///
/// A call takes steps in proportion to the depth, which is eight at most, and to the places of the parts on the
/// way; a write copies those that another version shares. A version that is dropped costs what it
/// alone held.
#[derive(Drop)]
pub struct SharedMap<T: Duplicate + Drop> {
    alloc: Global,
    root: Shared<Root<T>>,
    count: u64,
}

impl<T: Duplicate + Drop> Model for SharedMap<T> {
    ghost use Rattle.std.specs.Prelude.{◌≡◌};
    ghost use Rattle.std.specs.Ordering.{nat_cmp};
    ghost use Rattle.std.specs.Coded.{coded_ℕ};
    ghost use Rattle.std.specs.FinMap as map;
    ghost use Rattle.shared_map.specs.Map.{map_of};
    ghost use Rattle.shared_map.specs.Root.{in_root};

    ghost Value = { map.FinMap nat_cmp T };

    ghost coded = { map.code coded_ℕ T.code };

    ghost view = { λ m. map_of (in_root m.root) };

    ghost invariant = { λ m. m.count ≡ map.len (map_of (in_root m.root)) };
}

impl<T: Duplicate + Drop> SharedMap<T> {
    /// A map with nothing in it.
    ///
    /// # Errors
    ///
    /// [`NoMemory`] where memory runs out.
    pub fn new(alloc: Global) -> Result<SharedMap<T>, NoMemory>
        ensures { IfOk result (λ items. items ≡ map.empty) }
    {
        Ok(SharedMap {
            alloc,
            root: Shared::empty(alloc)?,
            count: 0,
        })
    }

    /// How many keys hold an item. Each is of 64 bits.
    pub fn count(&self) -> u64
        ensures is { result ≡ map.len self.now }
        ensures keys { (key : ℕ) → IsSome (map.get self.now key) → key < 2 ^ 64 }
    {
        self.count
    }

    /// The item at the key, lent; None where it holds none.
    pub fn get(&self, key: u64) -> Option<&T>
        ensures { option_copied result ≡ map.get self.now key }
    {
        self.root.get(key)
    }

    /// The item at the key, which holds one, lent to be changed there. The map is afterwards as it was,
    /// with what the borrower left at the key.
    ///
    /// # Errors
    ///
    /// [`NoMemory`] where memory runs out for the parts that other versions share; the map is as it
    /// was.
    pub fn get_mut(&mut self, key: u64) -> Result<&mut T, NoMemory>
        requires held { IsSome (map.get self.old key) }
        ensures* writes_back { sem 𝓛 (LendsSoOk (the_row T.row) T.row self.entry result
            (λ after item. after ≡ map.insert self.old key item)
            (λ after. after ≡ self.old)) }
        ensures item { IfOk result (λ item. map.get self.old key ≡ Some item.now) }
    {
        match self.root.get_mut(key) {
            Ok(item) => Ok(item),
            Err(no_memory) => Err(no_memory),
        }
    }

    /// Puts the item at the key, and gives the one that was there.
    ///
    /// # Errors
    ///
    /// [`NoMemory`] with the item where memory runs out; the map is as it was.
    pub fn put(&mut self, key: u64, item: T) -> Result<Option<T>, (T, NoMemory)>
        ensures old { IfOk result (λ old. old ≡ map.get self.old key) }
        ensures put { OnOk result (self.new ≡ map.insert self.old key item) }
        ensures back { IfErr result (λ refused. refused.0 ≡ item) }
        ensures unchanged { OnErr result (self.new ≡ self.old) }
    {
        if self.count == u64::MAX {
            return Err((item, NoMemory));
        }
        let old = self.root.put(key, item)?;
        if old.is_none() {
            self.count += 1;
        }
        Ok(old)
    }

    /// Takes the item at the key out; None where it holds none, and then no memory is wanted.
    ///
    /// # Errors
    ///
    /// [`NoMemory`] where memory runs out for the parts that other versions share; the map is as it
    /// was.
    pub fn take(&mut self, key: u64) -> Result<Option<T>, NoMemory>
        ensures item { IfOk result (λ item. item ≡ map.get self.old key) }
        ensures taken { OnOk result (self.new ≡ map.remove self.old key) }
        ensures unchanged { OnErr result (self.new ≡ self.old) }
        ensures held { OnErr result (IsSome (map.get self.old key)) }
    {
        if self.root.get(key).is_none() {
            return Ok(None);
        }
        let item = self.root.take(key)?;
        self.count -= 1;
        Ok(item)
    }

    /// Another version, which holds the same. No item is copied.
    ///
    /// # Errors
    ///
    /// [`NoMemory`] where there are too many versions.
    pub fn copy(&self) -> Result<SharedMap<T>, NoMemory>
        ensures { IfOk result (λ copy. copy ≡ self.now) }
    {
        Ok(SharedMap {
            alloc: self.alloc,
            root: self.root.share()?,
            count: self.count,
        })
    }

    /// The keys from the first to the last that hold an item, in order, as they are listed.
    ///
    /// # Errors
    ///
    /// [`NoMemory`] where memory runs out.
    pub fn keys<K: Key>(&self, first: u64, last: u64) -> Result<Vec<K>, NoMemory>
        ensures { IfOk result (λ keys. AreListed K.listed (AreKeysWithin first last self.now) [] keys.items) }
    {
        let none = Vec::with_capacity(self.alloc, self.count.min(64) as usize)?;
        self.keys_behind(first, last, none)
    }

    /// The keys from the first to the last that hold an item behind others, in order, as they are listed.
    ///
    /// # Errors
    ///
    /// [`NoMemory`] where memory runs out.
    pub fn keys_behind<K: Key>(
        &self,
        first: u64,
        last: u64,
        others: Vec<K>,
    ) -> Result<Vec<K>, NoMemory>
        ensures { IfOk result (λ keys.
            AreListed K.listed (AreKeysWithin first last self.now) others.items keys.items) }
    {
        let mut keys = others;
        self.root.list(0, first, last, &mut keys)?;
        Ok(keys)
    }
}
