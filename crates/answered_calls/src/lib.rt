//! No call that asks for few enough is without an answer, and no such request without a reply. Laws, no code.
#![tactic(auto)]

mod laws;

pub use laws::{calls_answered, names_apart, requests_answered};
