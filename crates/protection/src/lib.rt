//! The protected ranges of a spreadsheet, in order of id: who may edit which cells, and how the
//! ranges follow the lines of the sheets.
#![tactic(auto)]

mod editors;
mod following;
mod ids;
mod indexed;
mod list;
mod orders;
mod patch;
mod range;
mod sweep;

pub use list::Protections;
pub use range::{Protection, ProtectionFault, ProtectionPatch};
