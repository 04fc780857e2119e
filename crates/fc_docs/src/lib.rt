//! Documents, blocks, operations and batches, and how a block is read from JSON.
#![tactic(auto)]

mod block;
mod decimal;
mod direct;
mod document;
mod fault;
mod read;

pub use block::{Batch, Block, Op};
pub use decimal::decimal_name;
pub use direct::{integer_of, read_directly};
pub use document::{Document, Fields};
pub use fault::DocFault;
pub use read::read_block;
