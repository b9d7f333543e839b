//! Values of a spreadsheet's cells by ranges: what a range text names, reads, writes, appends and clears, and what
//! formulas see of the sheets (Google Sheets API v4 reference, spreadsheets.values).
#![tactic(auto)]

mod appending;
mod clearing;
mod cut;
mod denial;
mod entry;
mod filled;
mod given;
mod laws;
mod printed;
mod ranges;
mod rest;
mod sheets;
mod shown;
mod table;
mod uncovered;
mod values;
mod writing;

pub use appending::{append_values, rows_needed};
pub use clearing::{clear_values, empty_area};
pub use denial::{area_denial, areas_denial, fill_denial, write_denial};
pub use filled::row_behind;
pub use laws::{
    appends_once, areas_empty, cells_have_one_value, reads_answered, shows_once, updates_once,
    writes_once,
};
pub use printed::range_text;
pub use ranges::resolve;
pub use rest::empty_rest;
pub use sheets::BookCells;
pub use shown::{Shown, calculate_shown, read_values};
pub use values::value_in;
pub use writing::{WrittenCells, put_values, write_values};
