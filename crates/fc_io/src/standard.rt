//! The outer ends: a reader and a writer of std as a source and a sink.
mod sink;
mod source;

pub use sink::StdSink;
pub use source::StdSource;
