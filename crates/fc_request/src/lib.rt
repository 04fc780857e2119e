//! Requests: what the JSON of a search asks, or its first fault.
#![tactic(auto)]

mod copying;
mod excluding;
mod fault;
mod node;
mod ranged;
mod ranges;
mod reading;
mod request;

pub use copying::copy_nodes;
pub use excluding::holds_exclusion;
pub use fault::RequestFault;
pub use fc_facet::{BlockStep, DateRange, Domain, Kind, QFault, Range, Show, Sort, SortKey, Terms};
pub use node::Node;
pub use ranged::RangeBuckets;
pub use ranges::{buckets_of_range, low_of_range};
pub use request::Request;
