ghost use Rattle.std.specs.Prelude.{◌≡◌, None, IfOk, OnOk, OnErr};
ghost use Rattle.shared_map.specs.Finding.{FindsSame, Updates};
ghost use Rattle.shared_map.specs.Places.{place_at};

use crate::key::Key;
use crate::part::Part;
use crate::places::{reach, trim};
use cell_value::{Duplicate, NoMemory};
use std::alloc::Global;

/// The items of a map's neighbouring keys, each at its place. There are places up to the last that
/// is filled, or a few more where memory ran out within a call.
#[derive(Drop)]
pub struct Leaf<T> {
    alloc: Global,
    places: Vec<Option<T>>,
}

impl<T: Duplicate + Drop> Leaf<T> {
    /// [`Part::take`], which leaves the places.
    fn take_out(&mut self, key: u64) -> Result<Option<T>, NoMemory>
        ensures item { IfOk result (λ item. item ≡ place_at self.old.places.items key) }
        ensures taken { OnOk result
            (Updates (place_at self.old.places.items) (place_at self.new.places.items) key None) }
        ensures unchanged { OnErr result (FindsSame (place_at self.old.places.items) (place_at self.new.places.items)) }
    {
        match self.places.get_mut(key as usize) {
            Some(place) => Ok(place.take()),
            None => Ok(None),
        }
    }
}

impl<T: Duplicate + Drop> Part for Leaf<T> {
    type Item = T;

    ghost at = { λ leaf. place_at leaf.places.items };

    fn empty(alloc: Global) -> Leaf<T> {
        Leaf {
            alloc,
            places: Vec::new(alloc),
        }
    }

    fn is_empty(&self) -> bool {
        self.places.is_empty()
    }

    fn get(&self, key: u64) -> Option<&T> {
        match self.places.get(key as usize) {
            Some(place) => place.as_ref(),
            None => None,
        }
    }

    fn get_mut(&mut self, key: u64) -> Result<&mut T, NoMemory> {
        match &mut self.places[key as usize] {
            Some(item) => Ok(item),
            None => unreachable!(),
        }
    }

    fn put(&mut self, key: u64, item: T) -> Result<Option<T>, (T, NoMemory)> {
        match reach(&mut self.places, key) {
            Ok(()) => Ok(self.places[key as usize].replace(item)),
            Err(no_memory) => Err((item, no_memory)),
        }
    }

    fn take(&mut self, key: u64) -> Result<Option<T>, NoMemory> {
        let item = self.take_out(key)?;
        trim(&mut self.places);
        Ok(item)
    }

    fn copy(&self) -> Result<Leaf<T>, NoMemory> {
        let mut places = Vec::with_capacity(self.alloc, self.places.len())?;
        for place in &self.places {
            places.push(match place {
                Some(item) => Some(item.duplicate()?),
                None => None,
            })?;
        }
        Ok(Leaf {
            alloc: self.alloc,
            places,
        })
    }

    fn list<K: Key>(
        &self,
        base: u64,
        first: u64,
        last: u64,
        found: &mut Vec<K>,
    ) -> Result<(), NoMemory> {
        let count = self.places.len() as u64;
        let end = if last < count { last + 1 } else { count };
        for key in first..end {
            if self.get(key).is_some() {
                found.push(K::of(base + key))?;
            }
        }
        Ok(())
    }
}
