//! Which documents of a segment match a query, are in a request's base, and are in the domain of a facet.
#![tactic(auto)]

mod bases;
mod blocks;
mod changes;
mod columns;
mod longs;
mod matching;
mod texts;

pub use bases::base;
pub use changes::{keep_matching, step};
pub use matching::matches;
