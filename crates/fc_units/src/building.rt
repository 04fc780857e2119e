// An answer that is partly built.
use crate::jobs::Job;
use fc_docset::DocSet;
use fc_levels::Level;
use fc_partial::PartialBucket;

/// An answer that is partly built: whole top buckets, the facets that are open in the next one, and the job under way.
#[derive(Drop)]
pub struct Building<'a> {
    /// Of what wants begin with: the base, in the segments that were looked at.
    pub roots: Vec<DocSet>,
    pub buckets: Vec<PartialBucket>,
    pub levels: Vec<Level<'a>>,
    pub job: Job<'a>,
}
