//! The words of the program's command line: which command they are.
//!
//! A command begins with its name. Behind it stand its options, in any order, each at most once, as `--name value` or
//! as `--name=value`; the name `workload` has a number behind it, and no option. Words that are no command's are
//! refused first; the others are read by `clap`.
#![tactic(auto)]

mod command;
mod laws;
mod number;
mod reading;
mod word;

pub use command::{Command, command_of};
pub use laws::one_command;
