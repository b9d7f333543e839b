//! One history for many connections.
//!
//! An [`Engine`] answers calls on a world, one after another. A [`Desk`] shares one such world among many callers, each
//! with a [`Pass`]. Each call is made at a point of one list: the reply is what one thread would answer behind the
//! entries that stand before, and an accepted call adds an entry. A [`Keeper`] keeps the journal of the entries; where
//! it fails the call is answered 503, and the list gets a mark in place of the entry. A desk is opened with the history
//! whose journal its keeper has.
#![tactic(auto)]

mod desk;
mod engine;
mod entry;
mod fault;
mod history;
mod journal;
mod keeper;
mod laws;
mod memory;
mod noting;
mod reading;
mod replay;
mod state;

pub use desk::{Desk, Pass};
pub use engine::{Answered, Engine};
pub use entry::{Ask, Entry, Noted, Reply};
pub use fault::{JournalFault, OpenFault};
pub use history::{History, Summary};
pub use journal::entry_bytes;
pub use keeper::{Keeper, LoadFault, PutFault};
pub use laws::{one_history, one_reading, one_step, opens_again};
pub use memory::{MemoryKeeper, SteadyKeeper};
pub use replay::read_journal;
pub use state::{LONGEST_JOURNAL, State};
