//! The tests of what holds the cells of a sheet: grids of cells, lists that are linked, and maps that
//! share their parts.
//!
//! The time in which a test is proved grows faster than its length: a test goes over a table, which is a
//! static so that the test doesn't build it, and what it calls for a row answers without `?`. Where memory
//! runs out an answer is wrong.
#![tactic(auto)]

#[cfg(test)]
mod cells;
#[cfg(test)]
mod common;
#[cfg(test)]
mod links;
#[cfg(test)]
mod maps;
#[cfg(test)]
mod sheets;
#[cfg(test)]
mod trees;
#[cfg(test)]
mod versions;
