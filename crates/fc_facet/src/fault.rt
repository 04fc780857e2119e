// The faults of a request, without the facets that they are in.
ghost use Rattle.std.specs.Prelude.{◌≡◌, codes};
ghost use Rattle.fc_spec.specs.requests.RequestFault.{fault_name, fault_number};
ghost use Rattle.fc_spec.specs.requests.RequestReading.{filter_fault};
ghost use Rattle.fc_spec.specs.requests.RequestWalk.{query_fault};
ghost use Rattle.fc_base.specs.declared.error.Refusal.TheVariants.{Fault};

use fc_base::Refusal;
use fc_query::{FilterFault, QueryFault};
use thiserror::Error;

/// What is wrong with a request.
#[derive(Clone, Copy, Debug, Error, PartialEq, Eq)]
pub enum QFault {
    /// The request, a `facet` or what stands for its members is no object.
    #[error("not-an-object")]
    NotAnObject,
    /// A member is none of those that may stand there.
    #[error("unknown-key")]
    UnknownKey,
    /// A query text is not by the grammar.
    #[error("query-syntax")]
    QuerySyntax,
    /// AND and OR stand in one group of a query text.
    #[error("mixed-operators")]
    MixedOperators,
    /// A name is no field's.
    #[error("unknown-field")]
    UnknownField,
    /// A value or an end of an integer field in a query text is none.
    #[error("bad-value")]
    BadValue,
    /// A facet is neither a text nor an object.
    #[error("bad-command")]
    BadCommand,
    /// A facet's `type` is none of `terms`, `range`, `query` and `func`.
    #[error("unknown-type")]
    UnknownType,
    /// A parameter that has to be there is not.
    #[error("missing-parameter")]
    MissingParameter,
    /// A parameter is not of its form, or its number is outside its limits.
    #[error("bad-parameter")]
    BadParameter,
    /// A sort names neither `count` nor `index` nor a statistic directly under the facet.
    #[error("unknown-sort")]
    UnknownSort,
    /// A text is no statistic.
    #[error("bad-statistic")]
    BadStatistic,
    /// A field of texts stands where one of integers has to, or the other way round.
    #[error("wrong-field-type")]
    WrongFieldType,
    /// A facet is named `count` or `val`.
    #[error("reserved-name")]
    ReservedName,
    /// A facet inside one with a block step excludes tags.
    #[error("nested-exclude")]
    NestedExclude,
    /// There are more than 64 facets and statistics, or more than eight around each other, or a range has more than 10,000
    /// buckets.
    #[error("too-large")]
    TooLarge,
}

impl QFault {
    ghost use Rattle.fc_facet.specs.FaultView.{fault_view};

    /// Its number, from 1.
    pub fn number(self) -> u32
        ensures { result ≡ fault_number (fault_view self) }
    {
        match self {
            QFault::NotAnObject => 1,
            QFault::UnknownKey => 2,
            QFault::QuerySyntax => 3,
            QFault::MixedOperators => 4,
            QFault::UnknownField => 5,
            QFault::BadValue => 6,
            QFault::BadCommand => 7,
            QFault::UnknownType => 8,
            QFault::MissingParameter => 9,
            QFault::BadParameter => 10,
            QFault::UnknownSort => 11,
            QFault::BadStatistic => 12,
            QFault::WrongFieldType => 13,
            QFault::ReservedName => 14,
            QFault::NestedExclude => 15,
            QFault::TooLarge => 16,
        }
    }

    /// Its name.
    pub fn name(self) -> &'static str
        ensures { result.now ≡ fault_name (fault_view self) }
    {
        match self {
            QFault::NotAnObject => "not-an-object",
            QFault::UnknownKey => "unknown-key",
            QFault::QuerySyntax => "query-syntax",
            QFault::MixedOperators => "mixed-operators",
            QFault::UnknownField => "unknown-field",
            QFault::BadValue => "bad-value",
            QFault::BadCommand => "bad-command",
            QFault::UnknownType => "unknown-type",
            QFault::MissingParameter => "missing-parameter",
            QFault::BadParameter => "bad-parameter",
            QFault::UnknownSort => "unknown-sort",
            QFault::BadStatistic => "bad-statistic",
            QFault::WrongFieldType => "wrong-field-type",
            QFault::ReservedName => "reserved-name",
            QFault::NestedExclude => "nested-exclude",
            QFault::TooLarge => "too-large",
        }
    }
}

impl From<QFault> for Refusal<QFault> {
    ghost from_gives = { λ fault refusal. refusal ≡ Fault fault };

    fn from(fault: QFault) -> Self {
        Refusal::Fault(fault)
    }
}

// What a query text's fault is in a request.
impl From<QueryFault> for QFault {
    ghost use Rattle.fc_query.specs.QueryView.{query_fault_view};
    ghost use Rattle.fc_facet.specs.FaultView.{fault_view};

    ghost from_gives = { λ text fault. fault_view fault ≡ query_fault (query_fault_view text) };

    fn from(text: QueryFault) -> Self {
        match text {
            QueryFault::Syntax => QFault::QuerySyntax,
            QueryFault::MixedOperators => QFault::MixedOperators,
            QueryFault::UnknownField => QFault::UnknownField,
            QueryFault::BadValue => QFault::BadValue,
        }
    }
}

// What a filter's fault is in a request.
impl From<FilterFault> for QFault {
    ghost use Rattle.fc_query.specs.FilterView.{filter_fault_view};
    ghost use Rattle.fc_facet.specs.FaultView.{fault_view};

    ghost from_gives = { λ filter fault. fault_view fault ≡ filter_fault (filter_fault_view filter) };

    fn from(filter: FilterFault) -> Self {
        match filter {
            FilterFault::Shape => QFault::BadParameter,
            FilterFault::Query(text) => QFault::from(text),
        }
    }
}
