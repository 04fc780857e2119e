// Jobs: top buckets and facets, of which the first segments are done.
use fc_base::Stat;
use fc_docset::DocSet;
use fc_partial::{Key, Stats, Tally};
use fc_request::Node;

/// A bucket by itself: the root's, or one that was asked for.
#[derive(Drop)]
pub struct TopJob<'a> {
    /// Its node and its key there.
    pub node: &'a Node,
    pub key: Key,
    /// The node's domain, segment by segment; whole where the job before had the same.
    pub domain: Vec<DocSet>,
    /// How many segments are done.
    pub at: usize,
    pub stats: Vec<Stat>,
    /// Over the segments that are done.
    pub over: Stats,
}

/// A facet in the bucket that is open.
#[derive(Drop)]
pub struct FacetJob<'a> {
    pub node: &'a Node,
    /// Its domain, of the segments that are done.
    pub domain: Vec<DocSet>,
    pub tally: Tally,
}

/// What is under way.
#[derive(Drop)]
pub enum Job<'a> {
    Top(TopJob<'a>),
    Facet(FacetJob<'a>),
}
