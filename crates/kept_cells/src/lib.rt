//! Which cells of a spreadsheet keep what was entered into them, whatever a user does: those that his request, write,
//! clear or append doesn't touch, and those that are protected from him. Laws, no code.
#![tactic(auto)]

mod laws;

pub use laws::{protected_cells_keep, untouched_cells_keep};
