//! Segments: blocks as one column for each field, of a batch, or of other segments.
#![tactic(auto)]

mod builder;
mod column;
mod columns;
mod ids;
mod merged_columns;
mod merged_parents;
mod parents;
mod segment;
mod segment_core;

pub use column::Column;
pub use segment::Segment;
