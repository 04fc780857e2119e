//! The words of the command line.
#![tactic(auto)]

mod options;
mod words;

pub use options::Options;
pub use words::read_words;
