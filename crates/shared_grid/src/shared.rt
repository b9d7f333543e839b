ghost use Rattle.std.specs.Prelude.{◌≡◌, IfOk};

use cell_value::NoMemory;
use std::alloc::Global;
use std::marker::Model;
use std::sync::Arc;

/// A value that copies of its holder share. Contracts see the value.
#[derive(Drop)]
pub(crate) struct Shared<C> {
    shared: Arc<C>,
}

impl<C> Model for Shared<C> {
    ghost use Rattle.std.specs.Arc.{arc_value};

    ghost Value = { C };

    ghost coded = { C.code };

    ghost view = { λ h. arc_value h.shared };
}

impl<C: Drop> Shared<C> {
    /// The value, held for the first time.
    ///
    /// # Errors
    ///
    /// [`NoMemory`] where memory runs out.
    pub(crate) fn new(alloc: Global, value: C) -> Result<Shared<C>, NoMemory>
        ensures { IfOk result (λ held. held ≡ value) }
    {
        let shared = Arc::new(alloc, value)?;
        Ok(Shared { shared })
    }

    /// The same value once more: it isn't copied.
    ///
    /// # Errors
    ///
    /// [`NoMemory`] where it is held too often.
    pub(crate) fn share(&self) -> Result<Shared<C>, NoMemory>
        ensures { IfOk result (λ held. held ≡ self.now) }
    {
        let shared = self.shared.clone()?;
        Ok(Shared { shared })
    }

    /// The value, lent.
    pub(crate) fn value(&self) -> &C
        ensures { result.now ≡ self.now }
    {
        &self.shared
    }
}
