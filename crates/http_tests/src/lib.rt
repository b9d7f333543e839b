//! Tests of the layer that reads requests out of streams and finds their calls, with values from outside.
#![tactic(auto)]

#[cfg(test)]
mod routes;
#[cfg(test)]
mod streams;
