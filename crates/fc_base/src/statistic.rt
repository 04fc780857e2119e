// Statistics of fields.
use crate::FieldId;

/// What is asked of the values of a field. (Guide: JSON Facet API, "Stat Facet Functions")
#[derive(Clone, Copy, Debug, PartialEq, Eq)]
pub enum StatKind {
    /// The sum of all values; of integers.
    Sum,
    /// The least value; of integers.
    Min,
    /// The greatest value; of integers.
    Max,
    /// How many values there are.
    CountVals,
    /// How many documents have no value.
    Missing,
}

/// A statistic of the documents of a bucket: what is asked, and the field.
#[derive(Clone, Copy, Debug, PartialEq, Eq)]
pub struct Stat {
    pub of: StatKind,
    pub field: FieldId,
}
