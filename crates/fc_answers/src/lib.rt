//! A shard's answer, as it is made segment by segment.
#![tactic(auto)]

mod law;

pub use law::{answers_from_sets, exact_answers_from_sets, least_tallies_list, tallies_list};
