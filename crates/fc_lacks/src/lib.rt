//! What lacks for a reply at a depth, computed from whatever answers the questions about its buckets.
#![tactic(auto)]

mod asking;
mod keyed;
mod lacks;
mod law;
mod walk;

pub use lacks::Lack;
pub use law::lacking_is_untold;
pub use walk::lacking;
