//! Columns: the values of one field, position by position, made of documents by builders and of other
//! columns by mergers. Calls that answer a `Result` can answer want of memory; nothing else is refused.
#![tactic(auto)]

mod builder;
mod long;
mod long_merger;
mod merged_terms;
mod numbers;
mod term;
mod text;
mod text_merger;

pub use builder::TextBuilder;
pub use long::{LongBuilder, LongColumn};
pub use long_merger::LongMerger;
pub use text::TextColumn;
pub use text_merger::TextMerger;
