//! The tests of many connections: links in memory whose reads wait for what another link was answered; and what the
//! tests of the program have in common.
#![tactic(auto)]

mod links;
mod program;
#[cfg(test)]
mod turns;

pub use links::{Piece, TurnDoors, TurnLink, Visitor};
pub use program::{Ran, calls, no_files, words_of};
