//! What the commands of the program do, for any engine: a conversation over a source and a sink, or connections that
//! come in at doors, with the files of a folder that their words name, and how each of them ends.
#![tactic(auto)]

mod finish;
mod replaying;
mod report;
mod running;
mod server;
mod users;
mod working;

pub use finish::{
    BAD_FILE, Finish, LONG_TALK, NO_MEMORY, READ_FAULT, TRUNCATED, UNAVAILABLE, USAGE, WRITE_FAULT,
};
pub use replaying::replay;
pub use report::say;
pub use running::run;
pub use server::{CALLERS, Wanted, serve};
pub use working::workload;
