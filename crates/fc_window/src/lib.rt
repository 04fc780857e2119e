//! Lines of a script that are read ahead of their turn, side by side.
#![tactic(auto)]

mod slot;
mod window;

pub use slot::{Ahead, Slot};
pub use window::{WINDOW_LINES, fill, read_ahead};
