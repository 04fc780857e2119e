//! Date texts, gap texts and what is a gap later, by the calendar of `jiff`. No call takes memory.
#![tactic(auto)]

mod date;
mod date_text;
mod digits;
mod gap;
mod later;
mod moment;
mod parts;
mod written;

pub use date::{add_gap, canonical};
pub use date_text::DateText;
pub use gap::{Gap, Unit, read_gap};

#[cfg(test)]
mod tests;
