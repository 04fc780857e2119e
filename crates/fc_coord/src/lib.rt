//! The coordinator of a search: whom it asks for what, round after round, and the reply that the answers make.
#![tactic(auto)]

mod asks;
mod calls;
mod coord;
mod depth;
mod fitting;
mod reading;
mod reply;
mod rounds;
mod spot;
mod standing;
mod taking;
mod told_stats;
mod values;

pub use coord::Coord;
