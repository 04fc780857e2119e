//! A shard's answer that is partly built: one unit more, which is one segment of one job, and what follows it.
#![tactic(auto)]

mod asked;
mod building;
mod enclosing;
mod going;
mod jobs;
mod leasts;
mod units;

pub use asked::{asked_count, asked_node, shared};
pub use building::Building;
pub use going::{Gone, top_job, unit_done};
pub use jobs::{FacetJob, Job, TopJob};
pub use leasts::{LeastBuilding, LeastGone, ListJob, Lists, least_unit};
