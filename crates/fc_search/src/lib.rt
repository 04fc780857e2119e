//! A search over generations: what exact facets print is found first, then the coordinator makes the reply of what the shards
//! answer to the request with query facets in the place of exact ones. Messages come as bytes.
#![tactic(auto)]

mod coordinating;
mod laws;
mod questions;
mod replacing;
mod round;
mod schemas;
mod searching;

pub use fc_hooks::{FromList, NoProbe, Probe, RoundProbe, RoundRobin, Sent, Turns};
pub use searching::search;
