ghost use Rattle.std.specs.Prelude.{◌≡◌, ℕ, ◌+◌, ◌++◌, ◌<◌, ◌^◌, length, map, None, IsTrue, IfOk, OnOk, OnErr};
ghost use Rattle.std.specs.Option.{option_copied};
ghost use Rattle.shared_map.specs.Finding.{FindsSame, Updates};
ghost use Rattle.shared_map.specs.Found.{keys_found};
ghost use Rattle.shared_map.specs.Places.{in_part, in_parts, place_at, positive};

use crate::key::Key;
use crate::part::Part;
use crate::places::{reach, trim};
use crate::shared::Shared;
use cell_value::NoMemory;
use std::alloc::Global;

/// Parts of `SPAN` keys each. There are places up to the last part, or a few more where memory ran out
/// within a call.
#[derive(Drop)]
pub struct Branch<C, const SPAN: u64> {
    alloc: Global,
    parts: Vec<Option<Shared<C>>>,
}

/// How many keys a part spans: at least one.
fn span<const SPAN: u64>() -> u64
    ensures is { result ≡ positive SPAN }
    ensures positive { 0 < result }
{
    if SPAN == 0 { 1 } else { SPAN }
}

impl<C: Part + Drop, const SPAN: u64> Branch<C, SPAN> {
    /// The part at the index, lent.
    fn part(&self, index: u64) -> Option<&Shared<C>>
        ensures { option_copied result ≡ place_at self.now.parts.items index }
    {
        match self.parts.get(index as usize) {
            Some(place) => place.as_ref(),
            None => None,
        }
    }

    /// [`Part::list`] of the part at the index, where there is one.
    fn list_part<K: Key>(
        &self,
        index: u64,
        base: u64,
        first: u64,
        last: u64,
        found: &mut Vec<K>,
    ) -> Result<(), NoMemory>
        requires { base + last < 2 ^ 64 }
        ensures { OnOk result (found.new.items ≡ found.old.items
            ++ map K.listed (keys_found (in_part C.at (place_at self.now.parts.items index)) base first (last + 1))) }
    {
        match self.part(index) {
            Some(part) => part.list(base, first, last, found),
            None => Ok(()),
        }
    }

    /// [`Part::take`], which leaves the part.
    fn take_out(&mut self, key: u64) -> Result<Option<C::Item>, NoMemory>
        ensures item { IfOk result (λ item. item ≡ in_parts C.at (positive SPAN) self.old.parts.items key) }
        ensures taken { OnOk result (Updates (in_parts C.at (positive SPAN) self.old.parts.items)
            (in_parts C.at (positive SPAN) self.new.parts.items) key None) }
        ensures unchanged { OnErr result (FindsSame (in_parts C.at (positive SPAN) self.old.parts.items)
            (in_parts C.at (positive SPAN) self.new.parts.items)) }
    {
        let span = span::<SPAN>();
        let index = key / span;
        if index >= self.parts.len() as u64 {
            return Ok(None);
        }
        match &mut self.parts[index as usize] {
            Some(part) => part.take(key % span),
            None => Ok(None),
        }
    }

    /// Gives up the part at the index where it is empty, and the empty places behind the last part.
    fn give_up(&mut self, index: u64)
        ensures { FindsSame (in_parts C.at (positive SPAN) self.old.parts.items)
            (in_parts C.at (positive SPAN) self.new.parts.items) }
    {
        if self.has_empty(index) {
            self.parts[index as usize] = None;
            trim(&mut self.parts);
        }
    }

    /// Whether there is a part at the index, and it is empty.
    fn has_empty(&self, index: u64) -> bool
        ensures { IsTrue result → (index < length self.now.parts.items)
            × ((key : ℕ) → in_part C.at (place_at self.now.parts.items index) key ≡ None) }
    {
        match self.part(index) {
            Some(part) => part.is_empty(),
            None => false,
        }
    }
}

impl<C: Part + Drop, const SPAN: u64> Part for Branch<C, SPAN> {
    type Item = C::Item;

    ghost at = { λ branch. in_parts C.at (positive SPAN) branch.parts.items };

    fn empty(alloc: Global) -> Branch<C, SPAN> {
        Branch {
            alloc,
            parts: Vec::new(alloc),
        }
    }

    fn is_empty(&self) -> bool {
        self.parts.is_empty()
    }

    fn get(&self, key: u64) -> Option<&C::Item> {
        let span = span::<SPAN>();
        match self.part(key / span) {
            Some(part) => part.get(key % span),
            None => None,
        }
    }

    fn get_mut(&mut self, key: u64) -> Result<&mut C::Item, NoMemory> {
        let span = span::<SPAN>();
        match &mut self.parts[(key / span) as usize] {
            Some(part) => part.get_mut(key % span),
            None => unreachable!(),
        }
    }

    fn put(&mut self, key: u64, item: C::Item) -> Result<Option<C::Item>, (C::Item, NoMemory)> {
        let span = span::<SPAN>();
        let index = key / span;
        if let Err(no_memory) = reach(&mut self.parts, index) {
            return Err((item, no_memory));
        }
        match &mut self.parts[index as usize] {
            Some(part) => part.put(key % span, item),
            None => {
                let mut part = match Shared::empty(self.alloc) {
                    Ok(part) => part,
                    Err(no_memory) => return Err((item, no_memory)),
                };
                let old = part.put(key % span, item)?;
                self.parts[index as usize] = Some(part);
                Ok(old)
            }
        }
    }

    fn take(&mut self, key: u64) -> Result<Option<C::Item>, NoMemory> {
        let item = self.take_out(key)?;
        self.give_up(key / span::<SPAN>());
        Ok(item)
    }

    fn copy(&self) -> Result<Branch<C, SPAN>, NoMemory> {
        let mut parts = Vec::with_capacity(self.alloc, self.parts.len())?;
        for part in &self.parts {
            parts.push(match part {
                Some(part) => Some(part.share()?),
                None => None,
            })?;
        }
        Ok(Branch {
            alloc: self.alloc,
            parts,
        })
    }

    fn list<K: Key>(
        &self,
        base: u64,
        first: u64,
        last: u64,
        found: &mut Vec<K>,
    ) -> Result<(), NoMemory> {
        let span = span::<SPAN>();
        let count = self.parts.len() as u64;
        let top = last / span;
        let end = if top < count { top + 1 } else { count };
        for index in first / span..end {
            let start = index * span;
            let last_of_part = (last - start).min(span - 1);
            self.list_part(
                index,
                base + start,
                first.saturating_sub(start),
                last_of_part,
                found,
            )?;
        }
        Ok(())
    }
}
