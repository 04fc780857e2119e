// The faults of a query text and of a filter.
ghost use Rattle.std.specs.Prelude.{◌≡◌};
ghost use Rattle.fc_base.specs.declared.error.Refusal.TheVariants.{Fault};

use fc_base::Refusal;
use thiserror::Error;

/// What is wrong with a query text: the first of these that stands anywhere in it.
#[derive(Clone, Copy, Debug, Error, PartialEq, Eq)]
pub enum QueryFault {
    /// It is not by the grammar, or opens more than 64 parentheses at once.
    #[error("query-syntax")]
    Syntax,
    /// AND and OR stand in one group.
    #[error("mixed-operators")]
    MixedOperators,
    /// A name is no field's.
    #[error("unknown-field")]
    UnknownField,
    /// A value or an end of an integer field is none.
    #[error("bad-value")]
    BadValue,
}

impl From<QueryFault> for Refusal<QueryFault> {
    ghost from_gives = { λ fault refusal. refusal ≡ Fault fault };

    fn from(fault: QueryFault) -> Self {
        Refusal::Fault(fault)
    }
}

/// What is wrong with a filter.
#[derive(Clone, Copy, Debug, Error, PartialEq, Eq)]
pub enum FilterFault {
    /// It is neither a text nor an object of one member, a text whose key begins with `#`.
    #[error("bad-parameter")]
    Shape,
    /// Its tags or its query text are at fault.
    #[error("{0}")]
    Query(QueryFault),
}
