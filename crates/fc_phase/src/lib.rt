//! One shard's answer to what it is asked, made in turns of one segment of one job each.
#![tactic(auto)]

mod course;
mod future;
mod least_progress;
mod progress;
mod turn;

pub use future::PhaseFuture;
pub use turn::Turn;
