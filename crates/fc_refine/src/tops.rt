// What a shard lists of a terms facet.
ghost use Rattle.std.specs.Prelude.{◌≡◌, ◌∷◌, [], ◌++◌, All, IfOk, IsTrue, OnOk, map};
ghost use Rattle.std.specs.Map.{keys_of};
ghost use Rattle.fc_spec.specs.requests.Ranks as definition;
ghost use Rattle.fc_spec.specs.requests.Request.{stats_of};
ghost use Rattle.fc_refine.specs.Entries.{HaveAscendingValues};
ghost use Rattle.fc_refine.specs.ValuedView.{valued_entry};
ghost use Rattle.fc_facet.specs.declared.kind.Kind.TheVariants as variant;
ghost use Rattle.fc_facet.specs.KindView.{sort_view, terms_view};
ghost use Rattle.fc_partial.specs.BucketView.{bare, bucket_view, buckets_view};
ghost use Rattle.fc_partial.specs.Tallying.{IsTally};
ghost use Rattle.fc_request.specs.FacetNode.{IsTerms, kind_of};
ghost use Rattle.fc_request.specs.NodeView.{inner_view};
ghost use Rattle.fc_refine.specs.Tops.{bare_of, entries_in, is_value_or_missing, of_entry, others_of_tally, top_of, values_of_tally};

use crate::{Ranked, below_rank, rank_bound};
use fc_base::{Val, WantMemory};
use fc_partial::{Key, PartialBucket, Stats, Tally};
use fc_request::{Kind, Node, Sort, Terms};
use std::alloc::Global;

/// How many values a shard lists of a terms facet at most, where the facet has a limit: offset, limit and over-request
/// together. (Guide: JSON Facet API, "Terms Facet", `overrequest`)
pub fn offered(terms: &Terms) -> Option<u64>
    ensures { result ≡ definition.offered_bound (terms_view terms.now) }
{
    rank_bound(terms.offset, terms.limit, terms.overrequest)
}

// A value with the count and the statistics of its bucket.
#[derive(Drop)]
struct Valued {
    val: Val,
    stats: Stats,
}

impl Ranked for Valued {
    ghost entry = { valued_entry };

    fn val(&self) -> &Val {
        &self.val
    }

    fn stats(&self) -> &Stats {
        &self.stats
    }
}

// Puts a bucket among the values or among the others.
fn put(
    alloc: Global,
    values: &mut Vec<Valued>,
    others: &mut Vec<PartialBucket>,
    bucket: PartialBucket,
) -> Result<(), WantMemory>
    ensures values { OnOk result (map valued_entry values.new.items
        ≡ map valued_entry values.old.items ++ values_of_tally (entries_in (buckets_view (bucket ∷ [])))) }
    ensures others { OnOk result (map bucket_view others.new.items
        ≡ map bucket_view others.old.items ++ map bare_of (others_of_tally (entries_in (buckets_view (bucket ∷ []))))) }
{
    let PartialBucket {
        key,
        stats,
        nodes: _,
    } = bucket;
    match key {
        Key::Value(val) => values.push(Valued { val, stats })?,
        other => others.push(PartialBucket {
            key: other,
            stats,
            nodes: Vec::new(alloc),
        })?,
    }
    Ok(())
}

// The values in their order, and the others in theirs.
fn split(
    alloc: Global,
    buckets: Vec<PartialBucket>,
) -> Result<(Vec<Valued>, Vec<PartialBucket>), WantMemory>
    ensures values { IfOk result (λ both. map valued_entry both.0.items ≡ values_of_tally (entries_in (buckets_view buckets.items))) }
    ensures others { IfOk result (λ both. map bucket_view both.1.items ≡ map bare_of (others_of_tally (entries_in (buckets_view buckets.items)))) }
{
    let mut values = Vec::new(alloc);
    let mut others = Vec::new(alloc);
    for bucket in buckets {
        put(alloc, &mut values, &mut others, bucket)?;
    }
    Ok((values, others))
}

// The buckets of values, with nothing nested.
fn buckets_of(alloc: Global, values: Vec<Valued>) -> Result<Vec<PartialBucket>, WantMemory>
    ensures { IfOk result (λ buckets. map bucket_view buckets.items ≡ map bare_of (map of_entry (map valued_entry values.items))) }
{
    let mut buckets = Vec::with_capacity(alloc, values.len())?;
    for value in values {
        buckets.push(PartialBucket {
            key: Key::Value(value.val),
            stats: value.stats,
            nodes: Vec::new(alloc),
        })?;
    }
    Ok(buckets)
}

// Of buckets the values of the first ranks, and behind them what is no value.
fn listed(
    alloc: Global,
    sort: Sort,
    bound: Option<u64>,
    buckets: Vec<PartialBucket>,
) -> Result<Vec<PartialBucket>, WantMemory>
    requires { HaveAscendingValues (values_of_tally (entries_in (buckets_view buckets.items))) }
    ensures { IfOk result (λ list. buckets_view list.items ≡ bare (top_of (sort_view sort) bound (entries_in (buckets_view buckets.items)))) }
{
    let (values, others) = split(alloc, buckets)?;
    let first = below_rank(sort, bound, values)?;
    let mut list = buckets_of(alloc, first)?;
    let mut others = others;
    list.append(&mut others)?;
    Ok(list)
}

/// Of a terms facet's tally the values of the first ranks, at most so many, all where there is no bound; and the bucket
/// of the documents without a value, where it is there. The buckets stand in the order of their keys, with nothing nested.
/// (Guide: JSON Facet API, "Terms Facet", `sort`)
pub fn top(
    alloc: Global,
    node: &Node,
    tally: Tally,
    at_most: Option<u64>,
) -> Result<Vec<PartialBucket>, WantMemory>
    requires terms { IsTerms (kind_of node.now) }
    requires stats { tally.stats ≡ stats_of (inner_view node.now) }
    requires keys { All (λ key. IsTrue (is_value_or_missing key)) (keys_of tally.entries) }
    ensures buckets { IfOk result (λ buckets. (terms : Terms) → kind_of node.now ≡ variant.Terms terms →
        buckets_view buckets.items ≡ bare (top_of (sort_view terms.sort) at_most tally.entries)) }
    ensures tally { IsTally tally }
{
    let buckets = tally.into_buckets()?;
    match &node.kind {
        Kind::Terms(terms) => {
            let list = listed(alloc, terms.sort, at_most, buckets)?;
            Ok(list)
        }
        _ => unreachable!(),
    }
}
