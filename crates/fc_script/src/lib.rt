//! Reading scripts: from the bytes of a script to its schema, sessions, batches and phases with their requests, or to its
//! first fault.
#![tactic(auto)]

mod counts;
mod gather;
mod limits;
mod read;
mod script;
mod script_reader;
mod windows;

pub use fc_lines::{LineFault, ScriptFault, fault_line};
pub use limits::{Limits, SCRIPT_BYTES, SCRIPT_LIMITS};
pub use script::{Phase, Script, Search};
