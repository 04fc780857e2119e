//! The lines of a script: from its bytes to the lines that say something, what each of them says by itself, and the line
//! that is written of a fault.
#![tactic(auto)]

mod fault;
mod line;
mod lines;
mod refusal_line;
mod schema_line;
mod value;

pub use fault::{LineFault, ScriptFault, at_line};
pub use line::{Line, begins_as_block, line_on};
pub use lines::Lines;
pub use refusal_line::fault_line;
pub use schema_line::schema_on;
