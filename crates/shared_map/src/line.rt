ghost use Rattle.shared_map.specs.Root.{in_line_parts};

use crate::branch::Branch;
use crate::headed::Headed;
use crate::key::Key;
use crate::leaf::Leaf;
use crate::part::Part;
use cell_value::{Duplicate, NoMemory};
use std::alloc::Global;

/// The keys of one number of a line, by digits of 6, 6, 6 and 14 bits from the last: 64 places a part,
/// but for the first digit, whose part has as many places as are in use, at most 16,384. The first 64 keys
/// are at hand, and the way to the 4,096 behind them is one part long.
type Parts<T> = Headed<
    Leaf<T>,
    Headed<Branch<Leaf<T>, 64>, Branch<Branch<Branch<Leaf<T>, 64>, 4_096>, 262_144>, 4_096>,
    64,
>;

/// The items of a line. It has a name of its own, so that what is said of a map of lines is short.
#[derive(Drop)]
pub struct Line<T> {
    parts: Parts<T>,
}

impl<T: Duplicate + Drop> Part for Line<T> {
    type Item = T;

    ghost at = { λ line. in_line_parts line.parts };

    fn empty(alloc: Global) -> Line<T> {
        Line {
            parts: Headed::empty(alloc),
        }
    }

    fn is_empty(&self) -> bool {
        self.parts.is_empty()
    }

    fn get(&self, key: u64) -> Option<&T> {
        self.parts.get(key)
    }

    fn get_mut(&mut self, key: u64) -> Result<&mut T, NoMemory> {
        self.parts.get_mut(key)
    }

    fn put(&mut self, key: u64, item: T) -> Result<Option<T>, (T, NoMemory)> {
        self.parts.put(key, item)
    }

    fn take(&mut self, key: u64) -> Result<Option<T>, NoMemory> {
        self.parts.take(key)
    }

    fn copy(&self) -> Result<Line<T>, NoMemory> {
        Ok(Line {
            parts: self.parts.copy()?,
        })
    }

    fn list<K: Key>(
        &self,
        base: u64,
        first: u64,
        last: u64,
        found: &mut Vec<K>,
    ) -> Result<(), NoMemory> {
        self.parts.list(base, first, last, found)
    }
}
