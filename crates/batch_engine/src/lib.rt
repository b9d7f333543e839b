//! Calls of the API on the spreadsheets of a server: what each is answered, and what it makes of them
//! (Google Sheets API v4 reference).
#![tactic(auto)]

mod answers;
mod appends;
mod batch;
mod calls;
mod create;
mod filtered;
mod hidden_rows;
mod laws;
mod lists;
mod looks;
mod searches;
mod targets;
mod totals;

pub use calls::{Applied, Caller, Outcome, apply};
pub use laws::{calls_answered_once, looks_answered, protected_cells_stay, ranges_keep_others};
