//! The kinds of facet whose keys no dictionary gives: range and query facets.
#![tactic(auto)]

mod by_sets;
mod choice;
mod counting;
mod ends;
mod gaps;
mod inside;
mod keys;
mod query;
mod range;
mod selecting;
mod spans;

pub use ends::{GapEnds, bounds};
pub use keys::GapKeys;
pub use query::QueryKind;
pub use range::RangeKind;
