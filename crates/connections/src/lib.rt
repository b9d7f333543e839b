//! Connections over one history.
//!
//! [`converse`] serves one connection at a desk that many callers share, and [`converse_alone`] one at a desk that
//! nobody else has. [`Doors`] are where connections come in.
#![tactic(auto)]

mod alone;
mod caller;
mod doors;
mod memory;
mod ports;

pub use alone::{converse_alone, has_reply, one_reply};
pub use caller::converse;
pub use doors::Doors;
pub use memory::{MemoryDoors, Visit};
