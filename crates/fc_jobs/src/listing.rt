// What is listed of a facet.
ghost use Rattle.std.specs.Prelude.{◌≡◌, [], All, IfOk, IsTrue};
ghost use Rattle.std.specs.Map.{keys_of};
ghost use Rattle.fc_spec.specs.requests.Buckets.{is_key_of};
ghost use Rattle.fc_spec.specs.requests.Request as definition;
ghost use Rattle.fc_spec.specs.requests.Request.{stats_of};
ghost use Rattle.fc_query.specs.QueryView.{query_view};
ghost use Rattle.fc_facet.specs.KindView.{terms_view};
ghost use Rattle.fc_facet.specs.declared.kind.Kind.TheVariants as variant;
ghost use Rattle.fc_refine.specs.CountableRanges.{IsCountable};
ghost use Rattle.fc_partial.specs.BucketView.{bare, bucket_view, buckets_view};
ghost use Rattle.fc_partial.specs.Tallying.{IsTally};
ghost use Rattle.fc_request.specs.FacetNode.{has_buckets, kind_of, kind_view};
ghost use Rattle.fc_request.specs.NodeView.{inner_view};
ghost use Rattle.fc_request.specs.Ranged.{IsRange};
ghost use Rattle.fc_answers.specs.Listed.{listed_of};
ghost use Rattle.fc_answers.specs.LeastListed.{adds_missing};

use crate::filling::{bucket_of, filled, range_keys};
use fc_base::WantMemory;
use fc_facet::Terms;
use fc_partial::{Key, PartialBucket, Tally};
use fc_query::Query;
use fc_refine::{offered, top};
use fc_request::{Kind, Node};
use std::alloc::Global;

/// A tally of a facet's buckets that has none yet.
pub fn tally_of(alloc: Global, node: &Node) -> Result<Tally, WantMemory>
    ensures { IfOk result (λ tally. tally ≡ record { stats = stats_of (inner_view node.now); entries = [] }) }
{
    let stats = node.stats(alloc)?;
    let tally = Tally::new(alloc, stats)?;
    Ok(tally)
}

/// Whether missing is listed though no document lacks a value.
pub(crate) fn adds_missing(node: &Node, terms: &Terms, tally: &Tally) -> bool
    ensures adds { result ≡ adds_missing (terms_view terms.now) (inner_view node.now) tally.now.entries }
    ensures tally { IsTally tally.now }
{
    let there = tally.get(&Key::Missing).is_some();
    terms.missing && node.holds_exclusion() && !there
}

// What is listed of a terms facet.
fn values_listed(
    alloc: Global,
    node: &Node,
    terms: &Terms,
    tally: Tally,
) -> Result<Vec<PartialBucket>, WantMemory>
    requires terms { kind_of node.now ≡ variant.Terms terms.now }
    requires stats { tally.stats ≡ stats_of (inner_view node.now) }
    requires keys { All (λ key. IsTrue (is_key_of (kind_view (kind_of node.now)) key)) (keys_of tally.entries) }
    ensures list { IfOk result (λ list. buckets_view list.items
        ≡ bare (listed_of (definition.terms (terms_view terms.now)) (inner_view node.now) tally.entries)) }
    ensures tally { IsTally tally }
{
    let adds = adds_missing(node, terms, &tally);
    if !adds {
        let list = top(alloc, node, tally, offered(terms))?;
        return Ok(list);
    }
    let missing = bucket_of(alloc, &tally, Key::Missing)?;
    let mut list = top(alloc, node, tally, offered(terms))?;
    list.push(missing)?;
    Ok(list)
}

// What is listed of a range facet.
fn ranges_listed(alloc: Global, node: &Node, tally: Tally) -> Result<Vec<PartialBucket>, WantMemory>
    requires range { IsRange (kind_view (kind_of node.now)) }
    requires stats { tally.stats ≡ stats_of (inner_view node.now) }
    ensures list { IfOk result (λ list. buckets_view list.items
        ≡ bare (listed_of (kind_view (kind_of node.now)) (inner_view node.now) tally.entries)) }
    ensures tally { IsTally tally }
{
    if !node.holds_exclusion() {
        let list = tally.into_buckets()?;
        return Ok(list);
    }
    let none = tally.neutral()?;
    let keys = range_keys(alloc, &node.kind)?;
    let list = filled(alloc, &tally, keys, &none)?;
    Ok(list)
}

// The bucket of a query facet, which may have no document.
fn whole_listed(
    alloc: Global,
    node: &Node,
    query: &Query,
    tally: &Tally,
) -> Result<Vec<PartialBucket>, WantMemory>
    requires { tally.now.stats ≡ stats_of (inner_view node.now) }
    ensures list { IfOk result (λ list. buckets_view list.items
        ≡ bare (listed_of (definition.query (query_view query.now)) (inner_view node.now) tally.now.entries)) }
    ensures tally { IsTally tally.now }
{
    let bucket = bucket_of(alloc, tally, Key::Whole)?;
    let mut list = Vec::new(alloc);
    list.push(bucket)?;
    Ok(list)
}

/// What a shard lists of a facet, by its tally: of a terms facet the values that it offers, and those without a value; of a range
/// facet each bucket that is not empty; of a query facet the one that it has. Of a facet that holds one that excludes tags each
/// bucket but a value's is listed, whether it is empty or not. In the order of their keys, with nothing nested. The gaps of a
/// range can be counted, as those of any facet that was read.
pub fn listed(alloc: Global, node: &Node, tally: Tally) -> Result<Vec<PartialBucket>, WantMemory>
    requires facet { IsTrue (has_buckets (kind_of node.now)) }
    requires countable { IsCountable (kind_view (kind_of node.now)) }
    requires stats { tally.stats ≡ stats_of (inner_view node.now) }
    requires keys { All (λ key. IsTrue (is_key_of (kind_view (kind_of node.now)) key)) (keys_of tally.entries) }
    ensures listed { IfOk result (λ list. buckets_view list.items
        ≡ bare (listed_of (kind_view (kind_of node.now)) (inner_view node.now) tally.entries)) }
    ensures keys { IfOk result (λ list. All (λ b. IsTrue (is_key_of (kind_view (kind_of node.now)) (bucket_view b).key)) list.items) }
    ensures tally { IsTally tally }
{
    match &node.kind {
        Kind::Terms(terms) => {
            let list = values_listed(alloc, node, terms, tally)?;
            Ok(list)
        }
        Kind::Range(_) | Kind::DateRange(_) => {
            let list = ranges_listed(alloc, node, tally)?;
            Ok(list)
        }
        Kind::Query(query) => {
            let list = whole_listed(alloc, node, query, &tally)?;
            Ok(list)
        }
        Kind::Stat(_) => unreachable!(),
    }
}
