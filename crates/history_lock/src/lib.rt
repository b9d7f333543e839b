//! A lock whose passes know one history.
//!
//! A [`Lock`] holds one value that tells a list of entries ([`Told`]), each with the number of the
//! caller that it is from. A [`Pass`] has a number of its own and knows a list that it has seen.
//! [`Lock::take`] trades a pass for the value and a [`Turn`]; [`Lock::leave`] trades them back.
//! The list only grows, and only the holder of a turn adds to it, under its own number. So all
//! that any pass has seen is a beginning of one list, and what a pass added itself it has seen.
#![tactic(auto)]

mod lock;
mod pass;
mod steps;
mod told;
mod view;

pub use lock::Lock;
pub use pass::{Pass, Spent, Turn};
pub use told::Told;
pub use view::Drawing;
