// Facets around a bucket.
use fc_partial::Key;
use fc_request::Node;

/// A facet around a bucket, with the key of its own bucket there.
#[derive(Debug, Drop)]
pub struct Enclosing<'a, 'b> {
    /// The facet.
    pub node: &'a Node,
    /// Of its bucket there.
    pub key: &'b Key,
}
