//! A finite map from 64-bit keys whose copy copies no item: versions of it share what they have in
//! common, and a write copies only the parts on the way to its key that another version shares.
#![tactic(auto)]

mod branch;
mod headed;
mod key;
mod leaf;
mod line;
mod map;
mod part;
mod places;
mod shared;

pub use key::Key;
pub use map::SharedMap;
