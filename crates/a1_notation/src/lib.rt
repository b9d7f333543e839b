//! A1 notation, the text form of ranges in the Google Sheets API v4 ("A1 notation"): a cell or an
//! area (`B2`, `A1:B2`, `A:B`, `1:2`, `A5:B`), behind a sheet's title and `!` or without one, a
//! sheet's title in quotes, or a word. Rows and columns are counted from 0.
#![tactic(auto)]

mod a1;
mod area;
mod class;
mod column;
mod corner;
mod laws;
mod quoted;
mod reading;
mod row;
mod title;
mod word;
mod writing;

pub use a1::{A1, A1Fault, Part};
pub use area::area_between;
pub use class::Class;
pub use column::{NAMED_COLUMNS, column_text, read_column};
pub use corner::Corner;
pub use laws::a1_laws;
pub use quoted::read_quoted;
pub use reading::read_a1;
pub use row::{NUMBERED_ROWS, read_row};
pub use title::quote_name;
pub use word::split_word;
pub use writing::write_a1;
