//! The searches of a phase in threads: a worker for each shard, which publishes its commits, and one for each session, which
//! answers its searches over what it pins.
#![tactic(auto)]

mod answering;
mod asks;
mod ended;
mod gate;
mod index_worker;
mod making;
mod phase;
mod search_line;
mod searches;
mod session_worker;
mod stores;
mod weaving;
mod worker;

pub use answering::{Answered, answer};
pub use gate::{Gate, NoGate};
pub use index_worker::IndexWorker;
pub use phase::{PhaseEnd, run_searches};
pub use session_worker::SessionWorker;
pub use stores::Opening;
pub use worker::Worker;
