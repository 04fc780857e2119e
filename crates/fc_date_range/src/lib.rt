//! Range facets over dates as a kind: a bucket for each gap between dates.
#![tactic(auto)]

mod beside;
mod buckets;
mod choice;
mod counting;
mod dates;
mod gaps;
mod kind;
mod numbers;
mod selecting;
mod span;
mod spans;

pub use kind::DateRangeKind;
