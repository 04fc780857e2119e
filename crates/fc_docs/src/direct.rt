// Blocks without a fault, read from the tokens of their text, with no tree of it.
mod block;
mod fields;
mod item;
mod values;

pub use block::read_directly;
pub use item::integer_of;
