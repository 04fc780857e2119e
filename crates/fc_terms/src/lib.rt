//! Terms facets as a kind: a bucket for each value of a field.
#![tactic(auto)]

mod density;
mod kind;
mod long_keys;
mod long_runs;
mod long_values;
mod longs;
mod missing;
mod numbers;
mod prefix;
mod repeated;
mod selecting;
mod text_postings;
mod text_runs;
mod texts;
mod values;

pub use kind::TermsKind;
