// What a pass knows. It exists in proofs alone: no value of these types is made.
use std::collections::LinkedList;

/// Where a pass stands: without the turn, with it before the value is put in, with it, with it and the value
/// back in its place for the close, or taken in by another pass.
pub enum Stage {
    Away,
    Opening,
    Holds,
    Ready,
    Gone,
}

/// Whether a pass draws numbers: it alone, with others, or never.
#[derive(Clone, Copy, Debug, PartialEq, Eq)]
pub enum Drawing {
    Alone,
    Shared,
    Never,
}

/// `number` is its own where `numbered`, and else that of the pass that it is a copy of. `met` are the numbers of the
/// passes that it took in, each with the length of the list that that one had seen. `seen` is the list that it has
/// seen; of the last join, `mine` is the list that it had seen before and `heard` the shorter of both lists. `drawing`
/// says whether it draws numbers, `count` is a count of drawn numbers that it has read, and `given` the greatest number
/// that a split gave. `start`, `pair` and `most` are the list and the pair of the value at the opening and the number
/// of callers, which no step changes.
pub struct View<E> {
    pub stage: Stage,
    pub numbered: bool,
    pub number: u64,
    pub met: LinkedList<(u64, u64)>,
    pub seen: LinkedList<E>,
    pub mine: LinkedList<E>,
    pub heard: LinkedList<E>,
    pub drawing: Drawing,
    pub count: u64,
    pub given: Option<u64>,
    pub start: LinkedList<E>,
    pub pair: (u64, u64),
    pub most: u64,
}
