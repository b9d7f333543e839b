//! A basic filter that is asked of many rows.
#![tactic(auto)]

mod condition;
mod criterion;
mod row_filter;

pub use row_filter::RowFilter;
