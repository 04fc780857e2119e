//! What a shard does in one segment for a bucket or a facet of its answer, and what it lists in the end.
#![tactic(auto)]

mod bases;
mod buckets;
mod choosing;
mod enclosing;
mod facets;
mod filling;
mod law;
mod listing;
mod listing_from;
mod rebuilding;
mod same_filters;
mod walking;

pub use bases::Bases;
pub use buckets::bucket_unit;
pub use enclosing::Enclosing;
pub use facets::facet_unit;
pub use law::walks_by_segment;
pub use listing::{listed, tally_of};
pub use listing_from::listed_from;
pub use walking::{domain_where, enclosing_along};
