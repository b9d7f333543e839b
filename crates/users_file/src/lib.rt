//! The table of users, which a program reads from a file: which user each token names.
#![tactic(auto)]

mod fault;
mod laws;
mod reading;
mod repeats;
mod rows;
mod table;

pub use fault::UsersFault;
pub use laws::table_laws;
pub use reading::{LONGEST_TABLE, read_users};
