// A shard that told a bucket.
use fc_partial::Stats;

/// What a shard told of a bucket.
#[derive(Debug, Drop)]
pub(crate) struct Teller {
    /// Its count and statistics there.
    pub(crate) stats: Stats,
    /// Whether it listed the bucket in the one around it; else it was asked for it.
    pub(crate) listed: bool,
}
