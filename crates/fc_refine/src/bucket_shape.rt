// The shape of a facet's buckets, without what is nested in them.
ghost use Rattle.std.specs.Prelude.{◌≡◌, None, length, map, option_map};
ghost use Rattle.fc_spec.specs.messages.Held.{listed_values};
ghost use Rattle.fc_spec.specs.messages.MessageShape as definition;
ghost use Rattle.fc_spec.specs.requests.Ranks.{offered_bound};
ghost use Rattle.fc_spec.specs.requests.Buckets as buckets;
ghost use Rattle.fc_spec.specs.requests.Shape.{holds_exclusion as holds_exclusion_of};
ghost use Rattle.fc_spec.specs.requests.Request.{stats_of};
ghost use Rattle.fc_base.specs.StatisticView.{stat_kind_view, stat_view};
ghost use Rattle.fc_base.specs.View.{val_view};
ghost use Rattle.fc_partial.specs.BucketView.{buckets_view};
ghost use Rattle.fc_partial.specs.StatsView.{stats_view};
ghost use Rattle.fc_partial.specs.View.{key_view, stat_value_view};
ghost use Rattle.fc_request.specs.FacetNode.{kind_view};
ghost use Rattle.fc_request.specs.NodeView.{node_view, nodes_view};
ghost use Rattle.fc_request.specs.Ranged.{IsRange};
ghost use Rattle.fc_refine.specs.CountableRanges.{IsCountable};
ghost use Rattle.fc_refine.specs.Leaving.{LeavesValues};

use crate::offered;
use fc_base::{Name, Stat, StatKind, Val};
use fc_partial::{Key, PartialBucket, StatValue, Stats};
use fc_request::{Kind, Node, buckets_of_range, holds_exclusion};

// Whether the statistic is a least or greatest value.
fn is_extreme(of: StatKind) -> bool
    ensures { result ≡ definition.is_extreme (stat_kind_view of) }
{
    match of {
        StatKind::Min | StatKind::Max => true,
        StatKind::Sum | StatKind::CountVals | StatKind::Missing => false,
    }
}

fn value_fits(stat: Stat, value: StatValue) -> bool
    ensures { result ≡ definition.value_fits (stat_view stat) (stat_value_view value) }
{
    match value {
        StatValue::Number(_) => !is_extreme(stat.of),
        StatValue::Extreme(_) => is_extreme(stat.of),
    }
}

// What a node leaves of values: one less where it is a statistic.
fn values_left<'v>(node: &Node, values: &'v [StatValue]) -> Option<&'v [StatValue]>
    ensures { LeavesValues (node_view node.now) (map stat_value_view values.now)
        (option_map (λ left. map stat_value_view left.now) result) }
{
    let Kind::Stat(stat) = &node.kind else {
        return Some(values);
    };
    let (value, left) = values.split_first()?;
    if value_fits(*stat, *value) {
        Some(left)
    } else {
        None
    }
}

/// Whether there is one value for each statistic among the nodes, in order.
pub(crate) fn values_fit(nodes: &[Node], values: &[StatValue]) -> bool
    ensures { result ≡ definition.values_fit (stats_of (nodes_view nodes.now)) (map stat_value_view values.now) }
{
    let mut left = values;
    for node in nodes {
        match values_left(node, left) {
            Some(rest) => left = rest,
            None => return false,
        }
    }
    left.is_empty()
}

fn has_prefix(prefix: Option<&Name>, val: &Val) -> bool
    ensures { result ≡ buckets.has_prefix (option_map (λ p. p.now) prefix.entry) (val_view val.now) }
{
    match (prefix, val) {
        (None, _) => true,
        (Some(prefix), Val::Text(text)) => text.bytes().starts_with(prefix.bytes()),
        (Some(_), Val::Long(_)) => false,
    }
}

// Whether it is a key of a range facet.
fn is_key_of_range(kind: &Kind, key: &Key) -> bool
    requires { IsRange (kind_view kind.now) }
    ensures { result ≡ buckets.is_key_of (kind_view kind.now) (key_view key.now) }
{
    let buckets = buckets_of_range(kind);
    match key {
        Key::Gap(gap) => *gap < buckets.gaps,
        Key::Before => buckets.before,
        Key::Between => buckets.between,
        Key::After => buckets.after,
        Key::Value(_) | Key::Missing | Key::Whole => false,
    }
}

// Whether it is a key of a facet of this kind.
fn is_key_of(kind: &Kind, key: &Key) -> bool
    requires { IsCountable (kind_view kind.now) }
    ensures { result ≡ buckets.is_key_of (kind_view kind.now) (key_view key.now) }
{
    match (kind, key) {
        (Kind::Terms(terms), Key::Value(val)) => has_prefix(terms.prefix.as_ref(), val),
        (Kind::Terms(terms), Key::Missing) => terms.missing,
        (Kind::Range(_) | Kind::DateRange(_), key) => is_key_of_range(kind, key),
        (Kind::Query(_) | Kind::Stat(_), Key::Whole) => true,
        _ => false,
    }
}

fn ascends(last: Option<&Key>, key: &Key) -> bool
    ensures { result ≡ definition.key_ascends (option_map (λ k. key_view k.now) last.entry) (key_view key.now) }
{
    match last {
        Some(last) => last.cmp(key).is_lt(),
        None => true,
    }
}

// Whether there is a document, where the key needs one in a facet with these nodes.
fn count_fits(nodes: &[Node], key: &Key, stats: &Stats) -> bool
    ensures { result ≡ definition.count_fits (holds_exclusion_of (nodes_view nodes.now)) (key_view key.now)
        (stats_view stats.now) }
{
    if 1 <= stats.count {
        return true;
    }
    match key {
        Key::Whole => true,
        Key::Value(_) => false,
        _ => holds_exclusion(nodes),
    }
}

fn bucket_fits(kind: &Kind, nodes: &[Node], last: Option<&Key>, key: &Key, stats: &Stats) -> bool
    requires { IsCountable (kind_view kind.now) }
    ensures { result ≡ definition.bucket_fits (kind_view kind.now) (nodes_view nodes.now)
        (option_map (λ k. key_view k.now) last.entry) (key_view key.now) (stats_view stats.now) }
{
    ascends(last, key)
        && is_key_of(kind, key)
        && count_fits(nodes, key, stats)
        && values_fit(nodes, &stats.values)
}

/// Whether the buckets of a facet with these nodes have ascending keys of it, documents where they need them, and its
/// statistics.
pub(crate) fn buckets_fit(kind: &Kind, nodes: &[Node], all: &[PartialBucket]) -> bool
    requires { IsCountable (kind_view kind.now) }
    ensures { result ≡ definition.buckets_fit (kind_view kind.now) (nodes_view nodes.now) (buckets_view all.now) None }
{
    let mut last = None;
    for bucket in all {
        if !bucket_fits(kind, nodes, last, &bucket.key, &bucket.stats) {
            return false;
        }
        last = Some(&bucket.key);
    }
    true
}

// How many buckets are of values.
fn value_count(all: &[PartialBucket]) -> usize
    ensures { result ≡ length (listed_values (buckets_view all.now)) }
{
    let mut count = 0;
    for bucket in all {
        if let Key::Value(_) = &bucket.key {
            count += 1;
        }
    }
    count
}

/// Whether a terms facet has no more values than a shard offers, and a query facet its bucket.
pub(crate) fn is_complete(kind: &Kind, all: &[PartialBucket]) -> bool
    ensures { result ≡ definition.is_complete offered_bound (kind_view kind.now) (buckets_view all.now) }
{
    match kind {
        Kind::Terms(terms) => match offered(terms) {
            Some(most) => value_count(all) as u64 <= most,
            None => true,
        },
        Kind::Range(_) | Kind::DateRange(_) => true,
        Kind::Query(_) => !all.is_empty(),
        Kind::Stat(_) => !all.is_empty(),
    }
}
