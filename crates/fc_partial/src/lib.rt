//! The statistics of buckets, tallies of them by key, and the messages in which shards tell of their
//! buckets.
#![tactic(auto)]

mod bucket;
mod cells;
mod document;
mod entries;
mod key;
mod longs;
mod singles;
mod statistics;
mod tally;

pub use bucket::{Message, PartialBucket, PartialNode};
pub use cells::Cells;
pub use key::Key;
pub use statistics::{StatValue, Stats};
pub use tally::Tally;
