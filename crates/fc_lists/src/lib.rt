//! The items of positions: gathered one position after another, and kept as lists that are read by
//! position or by number. Calls that answer a `Result` can answer want of memory; nothing else is refused.
#![tactic(auto)]

mod bits;
mod entries;
mod lists;
mod live;
mod numbered;
mod ordered;
mod rows;
mod sums;

pub use bits::mark;
pub use entries::{Entries, Entry};
pub use lists::Lists;
pub use live::{counts_of, place_of};
pub use ordered::in_order;
pub use rows::Rows;
