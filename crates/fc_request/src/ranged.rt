// Which buckets range facets have.

/// How many gaps a range facet has, over integers or over dates, and which of the buckets beside them it asks for.
#[derive(Clone, Copy, Debug, PartialEq, Eq)]
pub struct RangeBuckets {
    /// At most 10,000.
    pub gaps: u32,
    pub before: bool,
    pub between: bool,
    pub after: bool,
}
