//! A message that is partly built: a stack of facets, each with one bucket open.
#![tactic(auto)]

mod law;
mod level;
mod nodes;

pub use law::jobs_are_counted;
pub use level::{Level, Next, job_ended, top_ended};
pub use nodes::{facet_count, next_facet};
