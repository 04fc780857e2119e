//! The numbers of values and of buckets that a reply prints.
#![tactic(auto)]

mod asking;
mod folding;
mod number;
mod own;

pub use folding::fold;
