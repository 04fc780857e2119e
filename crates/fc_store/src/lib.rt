//! The store of a shard: generations, published by one writer to readers that wait for nobody.
#![tactic(auto)]

mod charter;
mod generation;
mod left;
mod lent;
mod merging;
mod named;
mod reader;
mod rule;
mod store;
mod tiers;
mod writer;

pub use charter::Charter;
pub use generation::Generation;
pub use reader::{ShardReader, Told};
pub use store::open_shard;
pub use writer::ShardWriter;
