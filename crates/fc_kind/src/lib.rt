//! The interface of a kind of facet: what it collects in a segment, and which documents it selects there.
#![tactic(auto)]

mod adding;
mod kind;
mod kinds;
mod law;
mod name;
mod set_statistics;
mod statistics;

pub use adding::add_documents;
pub use kind::FacetKind;
pub use kinds::{covers, kinds_of, the_kind};
pub use law::collecting_joins;
pub use name::{KindName, name_of};
pub use set_statistics::set_stats;
pub use statistics::{document_value, document_values, stats_at, value_at_all};
