//! The tests of the log on a disk that may crash.
//!
//! The time in which a test is proved grows faster than its length: a test goes over a table, which is a
//! static so that the test doesn't build it, and what it calls for a row answers without `?`. Where memory
//! runs out an answer is wrong.
#![tactic(auto)]

#[cfg(test)]
mod common;
#[cfg(test)]
mod journals;
