// The rule that the table of a lock keeps, and what each step tells. These types are for the proofs alone.
ghost use Rattle.history_lock.specs.Rule.{Kept, opening_view};
ghost use Rattle.history_lock.specs.Steps.{Opened, Took, Left, Counted, Drew, Settled, Readied, Stayed, copy_of};
ghost use Rattle.history_lock.specs.Steps.{idle, sharing};
ghost use Rattle.history_lock.specs.Steps.{joined, noted, returned, gone};

use crate::told::Told;
use crate::view::View;
use atomic_table::{Join, Play, Split, TableRule};
use std::snapshot::Snapshot;

/// Word 0 is the turn, word 1 how many numbers were drawn, word 2 how many threads are about to sleep. The slot has
/// the value. The key is the value at the opening, and the number of callers.
pub(crate) struct InTurn;

impl<T: Told> TableRule<Option<T>, View<T::Entry>, (Snapshot<T>, u32)> for InTurn {
    ghost holds = { λ key. Kept T.list T.pair T.caller key.0.value key.1 };

    ghost first = { λ key. opening_view (T.list key.0.value) (T.pair key.0.value) key.1 };
}

/// The slot, which is still empty, goes out to the first seat.
pub(crate) struct Opens;

impl<T: Told> Play<Option<T>, View<T::Entry>> for Opens {
    ghost then = { λ _ before _ after. Opened before after };
}

/// A try for the turn.
pub(crate) struct Takes;

impl<T: Told> Play<Option<T>, View<T::Entry>> for Takes {
    ghost then = { λ _ before found after. Took T.list T.pair T.caller before found after };
}

/// The turn is given back, with the value.
pub(crate) struct Leaves;

impl<T: Told> Play<Option<T>, View<T::Entry>> for Leaves {
    ghost then = { λ _ before _ after. Left T.list T.caller before after };
}

/// The count of drawn numbers is read.
pub(crate) struct Counts;

impl<T: Told> Play<Option<T>, View<T::Entry>> for Counts {
    ghost then = { λ _ before found after. Counted before found after };
}

/// A try for the next number.
pub(crate) struct Draws;

impl<T: Told> Play<Option<T>, View<T::Entry>> for Draws {
    ghost then = { λ step before found after. Drew T.caller step.first step.second before found after };
}

/// The list that was seen is compared with the one that came in by a join.
pub(crate) struct Settles;

impl<T: Told> Play<Option<T>, View<T::Entry>> for Settles {
    ghost then = { λ _ before _ after. Settled T.caller before after };
}

/// The value goes back into its place, and the turn stays taken.
pub(crate) struct Readies;

impl<T: Told> Play<Option<T>, View<T::Entry>> for Readies {
    ghost then = { λ _ before _ after. Readied T.list before after };
}

/// A count of threads that may sleep, of which the rule says nothing.
pub(crate) struct Waits;

impl<T: Told> Play<Option<T>, View<T::Entry>> for Waits {
    ghost then = { λ _ before _ after. Stayed before after };
}

/// A copy with no number of its own, which draws numbers where the view did.
pub(crate) struct Hands;

impl<E> Split<View<E>> for Hands {
    ghost left = { idle };

    ghost right = { copy_of };
}

/// A copy with no number of its own. It draws numbers, as the view does.
pub(crate) struct Shares;

impl<E> Split<View<E>> for Shares {
    ghost left = { sharing };

    ghost right = { λ view. sharing (copy_of view) };
}

/// The longer list and the greater count, under the number of the first.
pub(crate) struct Hears;

impl<E> Join<View<E>> for Hears {
    ghost both = { joined };

    ghost spent = { gone };
}

/// The number that a split gave.
pub(crate) struct Notes;

impl<E> Join<View<E>> for Notes {
    ghost both = { noted };

    ghost spent = { gone };
}

/// The right to draw numbers.
pub(crate) struct Returns;

impl<E> Join<View<E>> for Returns {
    ghost both = { returned };

    ghost spent = { gone };
}
