//! The top values of exact facets, found over generations: each shard is asked in at most three rounds, and answers in bytes.
#![tactic(auto)]

mod finding;
mod laws;
mod questions;
mod round;

pub use finding::{Found, find_tops};
