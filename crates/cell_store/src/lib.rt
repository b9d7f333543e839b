//! The cells of a sheet: a finite map from places to items, which follows the sheet's lines.
#![tactic(auto)]

mod grid;
mod laws;
mod places;
mod store;
mod tree;
mod turning;

pub use grid::{Grid, MOST_FILLED, MOST_LINES};
pub use laws::tables_by_items;
pub use places::held_by_rows;
pub use store::CellStore;
pub use tree::TreeGrid;
pub use turning::turn;
