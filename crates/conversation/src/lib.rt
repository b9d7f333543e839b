//! One connection, served by anyone who answers its requests.
#![tactic(auto)]

mod closing;
mod conversation;
mod ended;
mod laws;
mod replies;

pub use conversation::converse;
pub use ended::Ended;
pub use laws::cut_off_laws;
pub use replies::{Replies, Said};
