//! The kinds of requests of a batch: what each touches, what it answers, and what it makes of the spreadsheet
//! (Google Sheets API v4 reference, spreadsheets.batchUpdate). Calls on a spreadsheet share with them how areas, lines
//! and items of metadata are named, and what a user is shown of a sheet and of a protected range.
#![tactic(auto)]

mod add_named_range;
mod add_protected_range;
mod add_sheet;
mod append_cells;
mod areas;
mod clear_basic_filter;
mod create_developer_metadata;
mod delete_developer_metadata;
mod delete_named_range;
mod delete_protected_range;
mod delete_sheet;
mod dimensions;
mod given;
mod laws;
mod merge_cells;
mod merging;
mod metadata;
mod protections;
mod requests;
mod set_basic_filter;
mod shown;
mod touching;
mod unmerge_cells;
mod update_cells;
mod update_developer_metadata;
mod update_named_range;
mod update_protected_range;
mod update_sheet_properties;

pub use areas::area_on;
pub use dimensions::{lines_area, whole_sheet};
pub use laws::requests_done_once;
pub use metadata::{copy_lookup, ids_found, items_seen, lookup_of, refusal_of};
pub use requests::done;
pub use shown::{shown_properties, shown_protection};
