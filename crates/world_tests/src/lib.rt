//! The tests of spreadsheets as they are kept, and of their ranges: what no clause says, as that a write succeeds,
//! and that a copy doesn't see it.
#![tactic(auto)]

#[cfg(test)]
mod books;
#[cfg(test)]
mod calculations;
#[cfg(test)]
mod common;
#[cfg(test)]
mod creations;
#[cfg(test)]
mod ranges;
#[cfg(test)]
mod values;
#[cfg(test)]
mod worlds;
#[cfg(test)]
mod writes;
