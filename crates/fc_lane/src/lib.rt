//! Kernels over lists of integers and words of bits: bit j of word i stands for place 64 i + j. Each takes no memory and refuses
//! nothing.
#![tactic(auto)]

mod between;
mod masked;
mod words;

pub use between::mask_between;
pub use masked::{masked_count, masked_max, masked_min, masked_sum};
pub use words::{and_not_words, and_words, count_bits, or_words};

#[cfg(test)]
mod tests;
