//! Requests with query facets in the place of exact ones, and their replies put together again.
#![tactic(auto)]

mod lists;
mod replacing;
mod request;
mod restoring;
mod row;

pub use replacing::replaced;
pub use request::{has_exact, only_exact};
pub use restoring::restored;
