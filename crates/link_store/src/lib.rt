//! Lists of items whose nodes stand in one slab and are linked by index: an item is added at the end
//! of a list, and taken out from anywhere in it, in a constant number of steps. Upon them the cells of
//! a sheet, each in a list of its row and in one of its column, whose changes of lines take steps that
//! don't grow with the number of items that stay.
#![tactic(auto)]

mod cell_change;
mod cells;
mod counted;
mod deletion;
mod entries;
mod grid;
mod line_change;
mod lines;
mod listing;
mod lists;
mod nodes;
mod store;

pub use entries::Entries;
pub use grid::LinkGrid;
pub use lists::Links;
