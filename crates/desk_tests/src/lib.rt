//! The tests of the desk: an engine whose calls append bytes, over the two keepers in memory.
#![tactic(auto)]

mod appends;
#[cfg(test)]
mod calls;
#[cfg(test)]
mod openings;

pub use appends::Appends;
