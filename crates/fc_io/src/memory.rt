//! A source and a sink in memory, whose calls fail where the caller says so.
mod calls;
mod sink;
mod source;

pub use sink::MemSink;
pub use source::MemSource;
