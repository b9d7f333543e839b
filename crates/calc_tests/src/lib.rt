//! The tests of calculation: operators, functions, and formulas by their trees.
//!
//! The time in which a test is proved grows faster than its length: a test goes over a table, which is a
//! static so that the test doesn't build it, and what it calls for a row answers without `?`. Where memory
//! runs out an answer is wrong.
#![tactic(auto)]

#[cfg(test)]
mod calls;
#[cfg(test)]
mod common;
#[cfg(test)]
mod formulas;
#[cfg(test)]
mod look_ups;
#[cfg(test)]
mod numbers;
#[cfg(test)]
mod operators;
#[cfg(test)]
mod spreadsheet;
#[cfg(test)]
mod texts;
#[cfg(test)]
mod truths;
