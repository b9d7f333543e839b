//! The tests of what every layer above shares: values as they are entered and shown, bands of lines,
//! A1 notation, and the references of formulas.
//!
//! The time in which a test is proved grows faster than its length: a test goes over a table, which is a
//! static so that the test doesn't build it, and what it calls for a row answers without `?`. Where memory
//! runs out an answer is wrong.
#![tactic(auto)]

#[cfg(test)]
mod bands;
#[cfg(test)]
mod common;
#[cfg(test)]
mod notation;
#[cfg(test)]
mod references;
#[cfg(test)]
mod values;
