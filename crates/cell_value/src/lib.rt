//! What every layer above shares: texts, bytes and lists that contracts see as lists, the trait of
//! values that can be copied, the two failures that come from outside, want of memory and a failed
//! device, what a JSON value means that is entered into a cell, and the text that a value shows.
#![tactic(auto)]

mod cell;
mod duplicate;
mod entered;
mod failure;
mod follow;
mod follow_map;
mod given;
mod sequence;
mod shown;
mod steps;
mod texts;
mod typed;
mod update;

pub use cell::{Block, Cell, Kind, Render, SheetProperties, Value};
pub use duplicate::Duplicate;
pub use entered::{Bad, Input, LARGEST, LONGEST, Mode, read_entered, take_entered};
pub use failure::{Failed, NoMemory};
pub use follow::Follow;
pub use follow_map::follow_values;
pub use given::put_given;
pub use sequence::{Bytes, Items, Text};
pub use shown::show;
pub use steps::Steps;
pub use texts::is_among;
pub use typed::{are_digits, is_whole};
pub use update::Update;
