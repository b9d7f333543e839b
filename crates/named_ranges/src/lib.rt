//! The named ranges of a spreadsheet, in order of creation: their ids and names, and how they follow
//! the lines of the sheets.
#![tactic(auto)]

mod following;
mod laws;
mod list;
mod name;
mod range;

pub use laws::names_are_words;
pub use list::Names;
pub use range::{NameFault, NamedRange};
