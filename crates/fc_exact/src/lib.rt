//! The values that exact facets print, found in at most three rounds of messages: what shards offer; the values from a count
//! on that is certain; and the counts of values of which some shard has not told.
#![tactic(auto)]

mod ask;
mod asks;
mod by_facet;
mod calls;
mod exact_core;
mod facets;
mod finding;
mod laws;
mod leasts;
mod ranks;
mod standing;
mod taking;
mod told;
mod tops;
mod totals;
mod values;
mod wants;

pub use ask::ExactAsk;
pub use exact_core::ExactCore;
pub use laws::{hearing_gives_tops, rounds_in_order};
