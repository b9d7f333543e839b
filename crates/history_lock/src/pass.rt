ghost use Rattle.std.specs.Prelude.{◌≡◌, true, length};
ghost use Rattle.history_lock.specs.declared.view.Stage.TheVariants.{Away};
ghost use Rattle.history_lock.specs.Steps.{the_view};

use crate::told::Told;
use crate::view::{Drawing, View};
use atomic_table::{Badge, Seat};
use std::error::Error;
use std::fmt;

/// What one caller of a lock knows: a number of its own and a list that it has seen. It also knows
/// the greatest number that a split of it gave, and a count of drawn numbers that it has read.
///
/// All but the number exists in proofs alone. A pass serves the lock that gave it, and no other.
pub struct Pass<E> {
    pub(crate) number: u32,
    pub(crate) drawing: Drawing,
    pub(crate) badge: Badge<View<E>>,
    ghost one: { length badge.views ≡ 1 },
    ghost away: { (the_view badge.views).stage ≡ Away },
    ghost numbered: { (the_view badge.views).numbered ≡ true },
    ghost number_is: { (the_view badge.views).number ≡ number },
    ghost drawing_is: { (the_view badge.views).drawing ≡ drawing },
}

/// The right to the value of a lock, and the duty to give it back: [`crate::Lock::leave`] and
/// nothing else takes it. It can't be let go, so a body that keeps the value does not compile.
pub struct Turn<T: Told> {
    pub(crate) number: u32,
    pub(crate) drawing: Drawing,
    pub(crate) seat: Seat<Option<T>, View<T::Entry>>,
}

/// All numbers were given: there are as many passes as the lock was opened for.
#[derive(Clone, Copy, Debug, PartialEq, Eq)]
pub struct Spent;

impl<E> Pass<E> {
    ghost use Rattle.history_lock.specs.Passes.{number_of};

    /// The number that its entries carry.
    pub fn number(&self) -> u32
        ensures { result ≡ number_of self.now }
    {
        self.number
    }

    // A type with a `Drop` is taken apart only in its own `impl`.
    pub(crate) fn into_parts(self) -> (u32, Drawing, Badge<View<E>>)
        ensures { (result.0 ≡ self.number) × (result.1 ≡ self.drawing)
            × (result.2.table_id ≡ self.badge.table_id) × (result.2.views ≡ self.badge.views) }
    {
        let Self {
            number,
            drawing,
            badge,
        } = self;
        (number, drawing, badge)
    }
}

impl<E> Drop for Pass<E> {
    fn drop(self) {
        let Self {
            number: _,
            drawing: _,
            badge: _,
        } = self;
    }
}

impl fmt::Display for Spent {
    ghost use Rattle.std.specs.Prelude.{Some};
    ghost use Rattle.history_lock.specs.Faults.{spent_text};

    ghost output = { λ _. Some spent_text };

    fn fmt<W: fmt::Write>(&self, f: &mut fmt::Formatter<W>) -> fmt::Result {
        f.write_str("all numbers were given")
    }
}

impl Error for Spent {}
