//! The demo: a script of generated documents and one search over them.
#![tactic(auto)]

mod document;
mod lines;
mod script;

pub use script::demo;
