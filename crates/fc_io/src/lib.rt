//! Where bytes come from and where they go: sources and sinks that count their faults.
#![tactic(auto)]

mod memory;
mod reading;
mod sink;
mod source;
mod standard;
mod writing;

pub use memory::{MemSink, MemSource};
pub use reading::{AllRead, read_all};
pub use sink::{Put, Sink};
pub use source::{Got, Source};
pub use standard::{StdSink, StdSource};
pub use writing::{WriteEnd, write_all};
