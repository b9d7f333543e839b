//! The program: its words are a command, which is done over the devices that it is given; and the devices of the
//! system.
#![tactic(auto)]

mod files;
mod program;
mod standard;
mod tcp;

pub use files::{FileFolder, FileKeeper};
pub use program::sheets_main;
pub use standard::{Input, Output};
pub use tcp::{TcpDoors, TcpFaults, TcpLink};
