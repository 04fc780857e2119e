// Domain changes.
ghost use Rattle.std.specs.Prelude.{◌≡◌};
ghost use Rattle.fc_spec.specs.requests.Shape.{stays as stays_of};
ghost use Rattle.fc_facet.specs.KindView.{domain_view};

use fc_base::Name;
use fc_query::Query;

/// How a facet changes its domain: first the tags that it leaves out, then the step between children and
/// parents, then its own filters. (Guide: JSON Faceting Domain Changes)
#[derive(Debug, Drop, PartialEq, Eq)]
pub struct Domain {
    /// Where there are any, the domain begins with the documents of the request's query and of the filters that have
    /// none of these tags and none that a facet around excludes; inside facets, with those of them that match the
    /// filters of each facet around and are in its bucket.
    pub exclude: Vec<Name>,
    pub block: BlockStep,
    /// What is kept must match each of these.
    pub filters: Vec<Query>,
}

/// A step inside blocks.
#[derive(Debug, Drop, PartialEq, Eq)]
pub enum BlockStep {
    Stay,
    /// To the parents that match, from themselves or their children.
    Parents(Query),
    /// To the children, from the parents that match.
    Children(Query),
}

impl Domain {
    /// Whether it has no block step.
    pub fn stays(&self) -> bool
        ensures { result ≡ stays_of (domain_view self.now) }
    {
        matches!(self.block, BlockStep::Stay)
    }
}
