// The gaps of a range facet: their ends, what they hold, and which are near an integer.
mod ends;
mod holding;
mod near;

pub(crate) use ends::{high_end_of, low_end_of};
pub(crate) use holding::{holds_end, holds_high, holds_low, holds_start, is_in_gap, is_same};
pub(crate) use near::gaps_before;
