//! Whom a search asks and tells: whose turn is next, and what each shard sent.
#![tactic(auto)]

mod probe;
mod round_probe;
mod turns;

pub use probe::{NoProbe, Probe};
pub use round_probe::{RoundProbe, Sent};
pub use turns::{FromList, RoundRobin, Turns};
