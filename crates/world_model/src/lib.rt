//! What a spreadsheet means: its sheets as grids of rows and columns that keep their names wherever they go, what
//! changes and writes make of it, and when what a program keeps by places stands for it.
#![tactic(auto)]

mod changing;
mod filters;
mod laws;
mod limits;
mod merges;
mod metadata;
mod protections;
mod ranges;
mod sheets;
mod staying;

pub use changing::{changes_apart, changes_in_turn, line_changes_are_changes, updates_are_changes};
pub use filters::{criteria_follow_columns, filter_is_set};
pub use laws::{
    changes_follow, changes_stay_sound, filled_within_places, formulas_counted, ids_find,
    replacements_follow, stands_for_apart, stands_for_some, updates_are_writes, updates_follow,
    writes_follow, writes_stay_sound,
};
pub use limits::{MOST_COLUMNS, MOST_PLACES, MOST_ROWS, MOST_SHEETS};
pub use merges::merges_are_set;
pub use metadata::{metadata_is_set, metadata_lines_follow};
pub use protections::{denials_by_name, inserts_keep_protected, protections_are_set};
pub use ranges::{ranges_added, ranges_changed, ranges_deleted, words_are_renamed};
pub use sheets::{books_made, sheets_added, sheets_deleted, sheets_hidden, sheets_titled};
pub use staying::left_cells_stay;
