//! The tests of the spreadsheets as an engine: asks on a desk over keepers in memory.
#![tactic(auto)]

#[cfg(test)]
mod calls;
