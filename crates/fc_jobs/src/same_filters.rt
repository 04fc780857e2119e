// Whether filters are the same.
ghost use Rattle.std.specs.Prelude.{◌≡◌, IsTrue, map};
ghost use Rattle.fc_query.specs.QueryView.{bound_view, clauses_view, query_view};
ghost use Rattle.fc_jobs.specs.FilterLists.{queries_in};

use fc_query::{Bound, Clause, Query};

// Whether two ends of ranges are the same.
fn is_same_bound(one: &Bound, other: &Bound) -> bool
    ensures { IsTrue result → bound_view one.now ≡ bound_view other.now }
{
    match (one, other) {
        (Bound::Unbounded, Bound::Unbounded) => true,
        (Bound::Including(one), Bound::Including(other)) => one == other,
        (Bound::Excluding(one), Bound::Excluding(other)) => one == other,
        _ => false,
    }
}

// Whether clauses are the same, in their order.
#[cycle(same)]
fn are_same_clauses(ones: &[Clause], others: &[Clause]) -> bool
    ensures { IsTrue result → clauses_view ones.now ≡ clauses_view others.now }
{
    if ones.len() != others.len() {
        return false;
    }
    for (at, one) in ones.iter().enumerate() {
        let other = &others[at];
        if one.need != other.need || !is_same(&one.query, &other.query) {
            return false;
        }
    }
    true
}

// Whether two queries are the same, clause by clause.
#[cycle(same)]
fn is_same(one: &Query, other: &Query) -> bool
    ensures { IsTrue result → query_view one.now ≡ query_view other.now }
{
    match (one, other) {
        (Query::All, Query::All) => true,
        (Query::Has(one), Query::Has(other)) => one == other,
        (Query::Is(one, value), Query::Is(other, other_value)) => {
            one == other && value == other_value
        }
        (Query::Between(one, low, high), Query::Between(other, other_low, other_high)) => {
            one == other && is_same_bound(low, other_low) && is_same_bound(high, other_high)
        }
        (Query::Group(ones), Query::Group(others)) => are_same_clauses(ones, others),
        _ => false,
    }
}

// Whether queries are the same, in their order.
fn are_same_queries(ones: &[Query], others: &[Query]) -> bool
    ensures { IsTrue result → map query_view ones.now ≡ map query_view others.now }
{
    if ones.len() != others.len() {
        return false;
    }
    for (at, one) in ones.iter().enumerate() {
        if !is_same(one, &others[at]) {
            return false;
        }
    }
    true
}

/// Whether lists of filters are the same, in their order: an answer of no says nothing of what they match.
pub(crate) fn are_same(ones: &[&[Query]], others: &[&[Query]]) -> bool
    ensures { IsTrue result → queries_in ones.now ≡ queries_in others.now }
{
    if ones.len() != others.len() {
        return false;
    }
    for (at, one) in ones.iter().enumerate() {
        if !are_same_queries(one, others[at]) {
            return false;
        }
    }
    true
}
