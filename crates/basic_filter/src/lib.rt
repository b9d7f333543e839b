//! The basic filter of a sheet: which rows it hides, and how it follows the lines of its sheet.
#![tactic(auto)]

mod condition;
mod following;
mod hiding;
mod texts;
mod types;

pub use types::{Condition, Criterion, Filter};
