// What shards tell: buckets nested in one another.
use crate::{Key, Stats};

/// A bucket of a shard.
#[cycle(partial)]
#[derive(Debug, Drop)]
pub struct PartialBucket {
    pub key: Key,
    pub stats: Stats,
    /// One for each facet nested in its own, in the byte order of their names.
    pub nodes: Vec<PartialNode>,
}

/// What a shard tells of a facet inside a bucket.
#[cycle(partial)]
#[derive(Debug, Drop)]
pub struct PartialNode {
    /// In the order of their keys, which differ.
    pub buckets: Vec<PartialBucket>,
}

/// What a shard answers.
#[derive(Debug, Drop)]
pub struct Message {
    /// The root's, or one for each that was asked for, in that order.
    pub buckets: Vec<PartialBucket>,
}
