//! The fixed calls by which a program measures itself, at an empty history that nobody else has.
#![tactic(auto)]

mod ask;
mod calls;
mod table;
#[cfg(test)]
mod tests;

pub use calls::{WorkSummary, one_work, work};
