//! The tests of calls as JSON bodies say them, and of answers as JSON text.
//!
//! The time in which a test is proved grows faster than its length: a test goes over a table, which is a
//! static so that the test doesn't build it, and what it calls for a row answers without `?`. Where memory
//! runs out an answer is wrong.
#![tactic(auto)]

#[cfg(test)]
mod answers;
#[cfg(test)]
mod calls;
#[cfg(test)]
mod cells;
#[cfg(test)]
mod common;
#[cfg(test)]
mod creations;
#[cfg(test)]
mod data_filters;
#[cfg(test)]
mod filters;
#[cfg(test)]
mod found;
#[cfg(test)]
mod lines;
#[cfg(test)]
mod metadata;
#[cfg(test)]
mod protections;
#[cfg(test)]
mod ranges;
#[cfg(test)]
mod refusals;
#[cfg(test)]
mod sheet_lists;
#[cfg(test)]
mod sheets;
#[cfg(test)]
mod spreadsheets;
#[cfg(test)]
mod steps;
#[cfg(test)]
mod values;
