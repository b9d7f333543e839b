//! The spreadsheets of a server as an engine: each ask is an HTTP request line with a body, and the world is what the
//! accepted ones made (Google Sheets API v4 reference).
#![tactic(auto)]

mod asking;
mod dump;
mod fault;
mod laws;
mod sheets;
mod step;

pub use asking::Reading;
pub use fault::Fault;
pub use laws::asks_answered;
pub use sheets::Sheets;
