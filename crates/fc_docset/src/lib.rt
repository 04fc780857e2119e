//! Sets of positions below a length, as words of bits. A call that takes the allocator can answer want
//! of memory; nothing else is refused.
#![tactic(auto)]

mod iter;
mod neighbours;
mod set;
mod words;

pub use iter::Positions;
pub use neighbours::next_in_both;
pub use set::DocSet;
pub use words::{set_bits, word_count};
