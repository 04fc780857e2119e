// What a shard is asked for exact facets.
use fc_refine::Want;
use std::sync::Arc;

/// What a shard is asked, of a request of exact facets alone.
#[derive(Debug, Drop)]
pub enum ExactAsk {
    /// What it offers.
    First,
    /// The values from a count on, and those without a value: one count for each facet.
    Least(Vec<u64>),
    /// Some buckets. They are shared by whoever asks and whoever answers.
    More(Arc<Vec<Want>>),
}
