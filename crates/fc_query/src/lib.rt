//! Queries and filters, and how they are read from texts.
#![tactic(auto)]

mod characters;
mod classes;
mod copying;
mod descent;
mod fault;
mod faults;
mod filter;
mod lex;
mod meaning;
mod query;
mod text;
mod tokens;
mod trees;

pub use copying::{copy_filters, copy_names, copy_queries};
pub use fault::{FilterFault, QueryFault};
pub use filter::{Filter, are_tags, names_of, parts_of, read_filter};
pub use query::{Bound, Clause, Need, Query};
pub use text::parse;
