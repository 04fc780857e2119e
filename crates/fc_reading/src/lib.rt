//! The reply of a request, computed from whatever answers the questions about its buckets.
#![tactic(auto)]

mod candidate;
mod kinds;
mod law;
mod offered;
mod part;
mod range;
mod reading;
mod reply;
mod terms;
mod tree;

pub use candidate::Candidate;
pub use law::valid_requests_are_countable;
pub use reading::BucketReading;
pub use reply::reply_over;
pub use terms::{asks_again, chosen_again, printed_values};
pub use tree::has_no_tag;
