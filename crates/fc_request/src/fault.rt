// The faults of a request, with the facets that they are in.
use fc_base::Name;
use fc_facet::QFault;
use thiserror::Error;

/// The first fault of a request, and where it is.
#[derive(Debug, Drop, Error, PartialEq, Eq)]
#[error("{fault}")]
pub struct RequestFault {
    /// The names of the facets from the outermost to the one at fault; none outside facets.
    pub at: Vec<Name>,
    pub fault: QFault,
}
