// Queries.
use fc_base::{FieldId, Val};

/// Which documents match. (Guide: Standard Query Parser)
#[cycle(query)]
#[derive(Debug, Drop, PartialEq, Eq)]
pub enum Query {
    /// Every document.
    All,
    /// Those that have a value in the field.
    Has(FieldId),
    /// Those that have this value in the field.
    Is(FieldId, Val),
    /// Those that have a value in the field between the two bounds, the lower one first.
    Between(FieldId, Bound, Bound),
    /// Those that match each required clause and no forbidden one, and an optional one where there
    /// is one and none is required.
    Group(Vec<Clause>),
}

/// An end of a range: no bound, or a value that is in the range or not.
#[derive(Debug, Drop, PartialEq, Eq)]
pub enum Bound {
    Unbounded,
    Including(Val),
    Excluding(Val),
}

/// A clause of a group: what it asks of a document, and whether that is needed.
#[cycle(query)]
#[derive(Debug, Drop, PartialEq, Eq)]
pub struct Clause {
    pub need: Need,
    pub query: Query,
}

/// Required, forbidden, or optional.
#[derive(Clone, Copy, Debug, PartialEq, Eq)]
pub enum Need {
    Must,
    MustNot,
    May,
}
