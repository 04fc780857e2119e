// From the bytes of a script to the lines that say something.
mod cut;
mod said;

pub use cut::Lines;
pub(crate) use said::LINE_LIMIT;
