//! What shards told, bucket by bucket: one tree for all shards, with the sums that say whether more can be told.
#![tactic(auto)]

mod adding;
mod fitting;
mod law;
mod listing;
mod steps;
mod sums;
mod teller;
mod tree;
mod ways;

pub use law::trees_tell;
pub use tree::ToldBucket;
