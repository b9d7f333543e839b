ghost use Rattle.shared_map.specs.Places.{in_headed};

use crate::key::Key;
use crate::part::Part;
use cell_value::NoMemory;
use std::alloc::Global;

/// A part whose first `SPAN` keys stand in a part of their own, so that the way to them is short, and the
/// others in another one, counted from the first that it holds.
#[derive(Drop)]
pub struct Headed<H, R, const SPAN: u64> {
    head: H,
    rest: R,
}

impl<H: Part + Drop, R: Part<Item = H::Item> + Drop, const SPAN: u64> Part for Headed<H, R, SPAN> {
    type Item = H::Item;

    ghost at = { λ headed. in_headed H.at R.at SPAN headed.head headed.rest };

    fn empty(alloc: Global) -> Headed<H, R, SPAN> {
        Headed {
            head: H::empty(alloc),
            rest: R::empty(alloc),
        }
    }

    fn is_empty(&self) -> bool {
        self.head.is_empty() && self.rest.is_empty()
    }

    fn get(&self, key: u64) -> Option<&H::Item> {
        if key < SPAN {
            self.head.get(key)
        } else {
            self.rest.get(key - SPAN)
        }
    }

    fn get_mut(&mut self, key: u64) -> Result<&mut H::Item, NoMemory> {
        if key < SPAN {
            self.head.get_mut(key)
        } else {
            self.rest.get_mut(key - SPAN)
        }
    }

    fn put(&mut self, key: u64, item: H::Item) -> Result<Option<H::Item>, (H::Item, NoMemory)> {
        if key < SPAN {
            self.head.put(key, item)
        } else {
            self.rest.put(key - SPAN, item)
        }
    }

    fn take(&mut self, key: u64) -> Result<Option<H::Item>, NoMemory> {
        if key < SPAN {
            self.head.take(key)
        } else {
            self.rest.take(key - SPAN)
        }
    }

    fn copy(&self) -> Result<Headed<H, R, SPAN>, NoMemory> {
        Ok(Headed {
            head: self.head.copy()?,
            rest: self.rest.copy()?,
        })
    }

    fn list<K: Key>(
        &self,
        base: u64,
        first: u64,
        last: u64,
        found: &mut Vec<K>,
    ) -> Result<(), NoMemory> {
        if first < SPAN {
            self.head.list(base, first, last.min(SPAN - 1), found)?;
        }
        if SPAN <= last {
            self.rest.list(base + SPAN, first.saturating_sub(SPAN), last - SPAN, found)?;
        }
        Ok(())
    }
}
