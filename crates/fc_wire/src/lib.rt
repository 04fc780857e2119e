//! Messages as bytes: numbers are little-endian and of fixed width, and each message has one
//! spelling.
#![tactic(auto)]

mod decoding;
mod encoding;
mod fault;
mod reading;
mod room;
mod writing;

pub use decoding::decode;
pub use encoding::encode;
pub use fault::WireFault;
