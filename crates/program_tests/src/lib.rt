//! The tests of the program that need a device in memory: the read, the write, the load or the call of the doors that
//! fails, and the exact pieces of a stream; and those of the adapters over the system's devices. All else that the
//! program shows is tested from outside.
//!
//! The time in which a test is proved grows faster than its length: a test goes over a table, which is a
//! static so that the test doesn't build it, and what it calls for a row answers without `?`. Where memory
//! runs out an answer is wrong.
#![tactic(auto)]

#[cfg(test)]
mod checks;
#[cfg(test)]
mod doors;
#[cfg(test)]
mod files;
#[cfg(test)]
mod folders;
#[cfg(test)]
mod loads;
#[cfg(test)]
mod streams;
#[cfg(test)]
mod system;
#[cfg(test)]
mod tcp;
