//! The merged cells of a sheet: rectangles that have no cell in common, which follow the sheet's
//! rows and columns (Sheets API v4 reference, `merges` of Sheet).
#![tactic(auto)]

mod area;
mod fault;
mod follow;
mod laws;
mod lines;
mod merges;

pub use area::{has_many_cells, has_many_lines, line_count};
pub use fault::{Cut, MergeFault};
pub use laws::{followed_stay_merges, lists_are_same};
pub use lines::CoveredLines;
pub use merges::Merges;
