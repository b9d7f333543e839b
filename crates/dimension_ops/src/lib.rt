//! Spreadsheets as they are kept: a world of spreadsheets, their sheets, and what each holds.
#![tactic(auto)]

mod book;
mod creating;
mod following;
mod laws;
mod lines;
mod losing;
mod merging;
mod part;
mod properties;
mod ranges;
mod renaming;
mod rule;
mod sheet;
mod sheets;
mod world;

pub use book::Book;
pub use laws::{new_sheets_once, opening_stands};
pub use lines::{append_lines, change_sheet, insert_lines};
pub use properties::set_properties;
pub use ranges::{add_range, drop_range, update_range};
pub use rule::{Limit, Rule, RuleOr};
pub use sheet::Sheet;
pub use sheets::{add_sheet, drop_sheet};
pub use world::World;
