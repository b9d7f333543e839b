//! Many connections by threads, over one history.
//!
//! [`serve_all`] accepts connections at doors, serves each by a thread of its own, and closes the desk.
#![tactic(auto)]

mod accepting;

pub use accepting::{Served, serve_all, steady_doors};
