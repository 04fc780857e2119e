//! What shards and the coordinator share: the order of a facet's buckets, what a shard lists and the candidates that are
//! chosen by it, and what shards are asked with the shape of their answers.
#![tactic(auto)]

mod ask;
mod bucket_shape;
mod candidates;
mod comparison;
mod first_ranks;
mod found;
mod listing;
mod nested_shape;
mod ranked;
mod ranking;
mod shape;
mod tops;
mod ways;

pub use ask::{Ask, Step, Taken, Want};
pub use candidates::{Candidate, Candidates};
pub use ranked::Ranked;
pub use ranking::{below_rank, page, rank_bound};
pub use shape::shaped;
pub use tops::{offered, top};
