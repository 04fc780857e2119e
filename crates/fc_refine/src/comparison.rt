// The order of what is ranked.
ghost use Rattle.std.specs.Prelude.{◌≡◌};
ghost use Rattle.fc_spec.specs.requests.Ranks as definition;
ghost use Rattle.fc_facet.specs.KindView.{sort_view};

use crate::Ranked;
use fc_facet::{Sort, SortKey};
use fc_partial::StatValue;
use std::cmp::Ordering;

// The other way round where descending.
fn directed(descending: bool, order: Ordering) -> Ordering
    ensures { result ≡ definition.directed descending order }
{
    if descending { order.reverse() } else { order }
}

// What is there before what is absent, in both directions.
fn present_first(descending: bool, a: Option<i64>, b: Option<i64>) -> Ordering
    ensures { result ≡ definition.present_first descending a b }
{
    match (a, b) {
        (None, None) => Ordering::Equal,
        (None, Some(_)) => Ordering::Greater,
        (Some(_), None) => Ordering::Less,
        (Some(a), Some(b)) => directed(descending, a.cmp(&b)),
    }
}

// The statistic of this number, where it is there.
fn statistic_of<T: Ranked>(number: u32, item: &T) -> Option<i64>
    ensures { result ≡ definition.statistic_of number (T.entry item.now) }
{
    match item.stats().values.get(number as usize) {
        Some(StatValue::Number(value)) => Some(*value),
        Some(StatValue::Extreme(value)) => *value,
        None => None,
    }
}

// By the key of the sort.
fn compare_keys<T: Ranked>(sort: Sort, a: &T, b: &T) -> Ordering
    ensures { result
        ≡ definition.sort_key_cmp (sort_view sort).by sort.descending (T.entry a.now) (T.entry b.now) }
{
    match sort.by {
        SortKey::Count => directed(sort.descending, a.stats().count.cmp(&b.stats().count)),
        SortKey::Index => directed(sort.descending, a.val().cmp(b.val())),
        SortKey::Stat(number) => present_first(
            sort.descending,
            statistic_of(number, a),
            statistic_of(number, b),
        ),
    }
}

// By the key, and where that ties in index order.
pub(crate) fn compare<T: Ranked>(sort: Sort, a: &T, b: &T) -> Ordering
    ensures { result ≡ definition.entry_cmp (sort_view sort) (T.entry a.now) (T.entry b.now) }
{
    compare_keys(sort, a, b).then_with(|| a.val().cmp(b.val()))
}
