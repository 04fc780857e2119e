//! Kinds of facet and domain changes with their parameters, and the faults of a request.
#![tactic(auto)]

mod copying;
mod domain;
mod fault;
mod kind;

pub use domain::{BlockStep, Domain};
pub use fault::QFault;
pub use kind::{AnyRange, DateRange, Kind, Range, Show, Sort, SortKey, Terms};
