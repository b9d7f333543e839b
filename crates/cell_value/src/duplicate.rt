ghost use Rattle.std.specs.Prelude.{◌≡◌, IfOk};

use crate::NoMemory;

/// A value that can be copied where memory suffices.
///
/// A value that holds a collection keeps the collection's allocator, and the copy is made on it.
pub trait Duplicate {
    /// A copy, which equals its source.
    ///
    /// # Errors
    ///
    /// [`NoMemory`] where memory runs out; the source is only read.
    fn duplicate(&self) -> Result<Self, NoMemory>
        ensures { IfOk result (λ copy. copy ≡ self.now) };
}

impl Duplicate for bool {
    fn duplicate(&self) -> Result<bool, NoMemory> {
        Ok(*self)
    }
}

impl Duplicate for u32 {
    fn duplicate(&self) -> Result<u32, NoMemory> {
        Ok(*self)
    }
}

impl Duplicate for u64 {
    fn duplicate(&self) -> Result<u64, NoMemory> {
        Ok(*self)
    }
}

impl Duplicate for i64 {
    fn duplicate(&self) -> Result<i64, NoMemory> {
        Ok(*self)
    }
}

impl<T: Duplicate> Duplicate for Option<T> {
    fn duplicate(&self) -> Result<Option<T>, NoMemory> {
        match self {
            Some(value) => Ok(Some(value.duplicate()?)),
            None => Ok(None),
        }
    }
}
