// What is listed of a facet from a count on.
ghost use Rattle.std.specs.Prelude.{◌≡◌, All, IfOk, IsTrue};
ghost use Rattle.std.specs.List.{filter};
ghost use Rattle.std.specs.Map.{keys_of};
ghost use Rattle.fc_spec.specs.requests.Buckets.{is_key_of};
ghost use Rattle.fc_spec.specs.requests.Request as definition;
ghost use Rattle.fc_spec.specs.requests.Request.{stats_of};
ghost use Rattle.fc_facet.specs.KindView.{terms_view};
ghost use Rattle.fc_refine.specs.CountableRanges.{IsCountable};
ghost use Rattle.fc_partial.specs.BucketView.{bare, bucket_view, buckets_view};
ghost use Rattle.fc_partial.specs.Tallying.{IsTally};
ghost use Rattle.fc_request.specs.FacetNode.{has_buckets, kind_of, kind_view};
ghost use Rattle.fc_request.specs.NodeView.{inner_view};
ghost use Rattle.fc_answers.specs.LeastListed.{is_of_least, least_of};

use crate::filling::bucket_of;
use crate::listing::{adds_missing, listed};
use fc_base::WantMemory;
use fc_facet::Terms;
use fc_partial::{Key, PartialBucket, Tally};
use fc_request::{Kind, Node};
use std::alloc::Global;

// Whether a bucket is no value's, or has at least this count.
fn is_of_least(bucket: &PartialBucket, least: u64) -> bool
    ensures { result ≡ is_of_least least ((bucket_view bucket.now).key, (bucket_view bucket.now).stats) }
{
    !matches!(&bucket.key, Key::Value(_)) || bucket.stats.count >= least
}

// Those of the buckets, in their order.
fn kept(
    alloc: Global,
    buckets: Vec<PartialBucket>,
    least: u64,
) -> Result<Vec<PartialBucket>, WantMemory>
    ensures { IfOk result (λ list. list.items
        ≡ filter (λ b. is_of_least least ((bucket_view b).key, (bucket_view b).stats)) buckets.items) }
{
    let mut list = Vec::new(alloc);
    for bucket in buckets {
        if is_of_least(&bucket, least) {
            list.push(bucket)?;
        }
    }
    Ok(list)
}

// The values of at least this count, and behind them what is no value.
fn values_kept(alloc: Global, tally: Tally, least: u64) -> Result<Vec<PartialBucket>, WantMemory>
    ensures list { IfOk result (λ list. buckets_view list.items ≡ bare (filter (is_of_least least) tally.entries)) }
    ensures tally { IsTally tally }
{
    let buckets = tally.into_buckets()?;
    let list = kept(alloc, buckets, least)?;
    Ok(list)
}

// What is listed of a terms facet.
fn values_from(
    alloc: Global,
    node: &Node,
    terms: &Terms,
    tally: Tally,
    least: u64,
) -> Result<Vec<PartialBucket>, WantMemory>
    requires { tally.stats ≡ stats_of (inner_view node.now) }
    ensures list { IfOk result (λ list. buckets_view list.items
        ≡ bare (least_of (definition.terms (terms_view terms.now)) (inner_view node.now) least tally.entries)) }
    ensures tally { IsTally tally }
{
    let adds = adds_missing(node, terms, &tally);
    if !adds {
        let list = values_kept(alloc, tally, least)?;
        return Ok(list);
    }
    let missing = bucket_of(alloc, &tally, Key::Missing)?;
    let mut list = values_kept(alloc, tally, least)?;
    list.push(missing)?;
    Ok(list)
}

/// What a shard lists of a facet from a count on, by its tally: of a terms facet the values of at least this count, and those without
/// a value; of another facet what it lists otherwise. In the order of their keys, with nothing nested.
pub fn listed_from(
    alloc: Global,
    node: &Node,
    tally: Tally,
    least: u64,
) -> Result<Vec<PartialBucket>, WantMemory>
    requires facet { IsTrue (has_buckets (kind_of node.now)) }
    requires countable { IsCountable (kind_view (kind_of node.now)) }
    requires stats { tally.stats ≡ stats_of (inner_view node.now) }
    requires keys { All (λ key. IsTrue (is_key_of (kind_view (kind_of node.now)) key)) (keys_of tally.entries) }
    ensures listed { IfOk result (λ list. buckets_view list.items
        ≡ bare (least_of (kind_view (kind_of node.now)) (inner_view node.now) least tally.entries)) }
    ensures tally { IsTally tally }
{
    match &node.kind {
        Kind::Terms(terms) => {
            let list = values_from(alloc, node, terms, tally, least)?;
            Ok(list)
        }
        Kind::Range(_) | Kind::DateRange(_) => {
            let list = listed(alloc, node, tally)?;
            Ok(list)
        }
        Kind::Query(_) => {
            let list = listed(alloc, node, tally)?;
            Ok(list)
        }
        Kind::Stat(_) => unreachable!(),
    }
}
