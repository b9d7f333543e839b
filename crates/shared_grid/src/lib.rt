//! The cells of a sheet whose copy copies no cell: versions of it share what they have in common.
#![tactic(auto)]

mod cells;
mod grid;
mod order;
mod shared;

pub use cells::Mark;
pub use grid::SharedGrid;
