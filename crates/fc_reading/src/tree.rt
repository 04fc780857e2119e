// The tree of a reply.
ghost use Rattle.std.specs.Prelude.{◌≡◌, suc, ◌==◌, None, Some, IfOk, IfSome, IsTrue, All, is_some, map, option_map, slice_get, if◌then◌else◌};
ghost use Rattle.fc_spec.specs.requests.Request as request;
ghost use Rattle.fc_spec.specs.requests.Statistics as statistics;
ghost use Rattle.fc_spec.specs.replies.Distributed as definition;
ghost use Rattle.fc_spec.specs.replies.Printed as print;
ghost use Rattle.fc_spec.specs.replies.Reading.{stats_on};
ghost use Rattle.fc_spec.specs.documents.Val.{Text};
ghost use Rattle.fc_spec.specs.words.Lists.{is_empty};
ghost use Rattle.fc_spec.specs.replies.Reply as reply;
ghost use Rattle.fc_partial.specs.StatsView.{stats_view};
ghost use Rattle.fc_partial.specs.View.{stat_value_view};
ghost use Rattle.fc_reply.specs.ReplyView.{body_view, bucket_view, buckets_view, facet_over, facet_view as printed_facet_view, facets_view, row_body};
ghost use Rattle.fc_request.specs.NodeStatistics.{statistic_of_node};
ghost use Rattle.fc_request.specs.NodeView.{inner_view, node_view};
ghost use Rattle.fc_request.specs.FacetNode.{facet_view, has_buckets, kind_of, kind_view};
ghost use Rattle.fc_refine.specs.CountableRanges.{AreCountable, IsCountable};
ghost use Rattle.fc_reading.specs.Distinct.{AreDistinct};
ghost use Rattle.fc_reading.specs.Parts.{AreCounted, bucket_with, IsCounted, part_view, parts_view, row_with};
ghost use Rattle.fc_reading.specs.Tree.{AreCountedIn, count_in, HasValue, inside, node_before, put_printed, statistics_after};

use crate::BucketReading;
use crate::kinds::printed;
use crate::part::{Part, Parts, Printed};
use fc_base::{Name, WantMemory};
use fc_facet::Kind;
use fc_partial::{StatValue, Stats};
use fc_reply::{ReplyBody, ReplyBucket, ReplyBuckets, ReplyFacet};
use fc_request::Node;
use std::alloc::Global;

// What a statistic prints of a bucket, by its number among the statistics.
fn number_of(stats: &Stats, number: usize) -> Option<i64>
    ensures { (v : statistics.StatValue) → slice_get (stats_view stats.now).values number ≡ Some v
        → result ≡ (if stats.now.count == 0 then None else statistics.shown v) }
{
    if stats.count == 0 {
        return None;
    }
    match stats.values.get(number) {
        Some(StatValue::Number(number)) => Some(*number),
        Some(StatValue::Extreme(value)) => *value,
        None => None,
    }
}

// What a statistic prints of a bucket, as the body of a facet.
fn number_body(stats: &Stats, number: usize) -> Option<ReplyBody>
    ensures { (v : statistics.StatValue) (name : Text) (more : reply.Facets)
        → slice_get (stats_view stats.now).values number ≡ Some v
        → facet_over (option_map (λ body. body_view body name) result) more
        ≡ print.statistic_part (stats.now.count == 0) name (statistics.shown v) more }
{
    match number_of(stats, number) {
        Some(number) => Some(ReplyBody::Number(number)),
        None => None,
    }
}

// Whether a node is a statistic.
fn is_statistic(node: &Node) -> bool
    ensures { result ≡ is_some (statistic_of_node (node_view node.now).1) }
{
    matches!(&node.kind, Kind::Stat(_))
}

/// Whether a facet excludes no tag.
pub fn has_no_tag(tags: &[Name]) -> bool
    ensures { result ≡ is_empty tags.now }
{
    tags.is_empty()
}

// A printed bucket with the facets in it.
#[cycle(replying)]
fn bucket<R: BucketReading>(
    alloc: Global,
    reading: &R,
    node: &Node,
    part: Part<R::Bucket>,
) -> Result<ReplyBucket, WantMemory>
    requires countable { AreCountable (inner_view node.now) }
    requires counted { IsCounted (R.reading reading.now) R.held (request.stats_of (inner_view node.now)) part }
    ensures { IfOk result (λ bucket. bucket_view bucket ≡ bucket_with (count_in (R.reading reading.now))
        (inside (R.reading reading.now) (inner_view node.now)) (part_view R.held reply.listed part.entry)) }
{
    let facets = facets(
        alloc,
        reading,
        node,
        &part.shards,
        &part.bucket,
        &part.stats,
    )?;
    Ok(ReplyBucket {
        val: part.val,
        count: part.stats.count,
        facets,
    })
}

// Printed buckets, each with the facets in it.
#[cycle(replying)]
fn buckets<R: BucketReading>(
    alloc: Global,
    reading: &R,
    node: &Node,
    parts: Vec<Part<R::Bucket>>,
) -> Result<Vec<ReplyBucket>, WantMemory>
    requires countable { AreCountable (inner_view node.now) }
    requires counted { All (IsCounted (R.reading reading.now) R.held (request.stats_of (inner_view node.now))) parts.items }
    ensures { IfOk result (λ buckets. map bucket_view buckets.items ≡ map (λ part. bucket_with (count_in (R.reading reading.now))
        (inside (R.reading reading.now) (inner_view node.now)) (part_view R.held reply.listed part)) parts.entry.items) }
{
    let mut list = Vec::with_capacity(alloc, parts.len())?;
    for part in parts {
        list.push(bucket(alloc, reading, node, part)?)?;
    }
    Ok(list)
}

// A printed bucket with the facets in it, where there is one.
#[cycle(replying)]
fn bucket_beside<R: BucketReading>(
    alloc: Global,
    reading: &R,
    node: &Node,
    part: Option<Part<R::Bucket>>,
) -> Result<Option<ReplyBucket>, WantMemory>
    requires countable { AreCountable (inner_view node.now) }
    requires counted { IfSome part (IsCounted (R.reading reading.now) R.held (request.stats_of (inner_view node.now))) }
    ensures { IfOk result (λ bucket. option_map bucket_view bucket ≡ option_map (λ part. bucket_with (count_in (R.reading reading.now))
        (inside (R.reading reading.now) (inner_view node.now)) (part_view R.held reply.listed part)) part.entry) }
{
    match part {
        Some(part) => Ok(Some(bucket(alloc, reading, node, part)?)),
        None => Ok(None),
    }
}

// The row of a terms or range facet, without a number beside it.
#[cycle(replying)]
fn row<R: BucketReading>(
    alloc: Global,
    reading: &R,
    node: &Node,
    parts: Parts<R::Bucket>,
) -> Result<ReplyBuckets, WantMemory>
    requires countable { AreCountable (inner_view node.now) }
    requires counted { AreCounted (R.reading reading.now) R.held (request.stats_of (inner_view node.now)) parts }
    ensures { IfOk result (λ row. buckets_view row ≡ row_body None (row_with (count_in (R.reading reading.now))
        (inside (R.reading reading.now) (inner_view node.now)) (parts_view R.held parts.entry))) }
{
    let list = buckets(alloc, reading, node, parts.list)?;
    let missing = bucket_beside(alloc, reading, node, parts.missing)?;
    let before = bucket_beside(alloc, reading, node, parts.before)?;
    let between = bucket_beside(alloc, reading, node, parts.between)?;
    let after = bucket_beside(alloc, reading, node, parts.after)?;
    Ok(ReplyBuckets {
        list,
        missing,
        before,
        between,
        after,
        number: None,
    })
}

// What is in a facet that has buckets.
#[cycle(replying)]
fn body<R: BucketReading>(
    alloc: Global,
    reading: &R,
    node: &Node,
    printed: Printed<R::Bucket>,
) -> Result<ReplyBody, WantMemory>
    requires countable { AreCountable (inner_view node.now) }
    requires counted { AreCountedIn (R.reading reading.now) R.held (request.stats_of (inner_view node.now)) printed }
    ensures { IfOk result (λ body. (name : Text) (more : reply.Facets) → body_view body name more
        ≡ put_printed (count_in (R.reading reading.now)) (inside (R.reading reading.now) (inner_view node.now)) R.held name printed.entry more) }
{
    match printed {
        Printed::Many(parts) => {
            let row = row(alloc, reading, node, parts)?;
            Ok(ReplyBody::Many(row))
        }
        Printed::One(part) => {
            let bucket = bucket(alloc, reading, node, part)?;
            Ok(ReplyBody::One(bucket))
        }
    }
}

// What a facet prints in a bucket, where it prints something.
#[cycle(replying)]
fn buckets_body<R: BucketReading>(
    alloc: Global,
    reading: &R,
    number: usize,
    node: &Node,
    shards: &[u32],
    around: &R::Bucket,
    count: u64,
) -> Result<Option<ReplyBody>, WantMemory>
    requires facet { IsTrue (has_buckets (kind_of node.now)) }
    requires kind { IsCountable (kind_view (kind_of node.now)) }
    requires countable { AreCountable (inner_view node.now) }
    requires count { count ≡ (R.reading reading.now).count_on shards.now (R.held around.now) }
    requires distinct { AreDistinct shards.now }
    ensures { IfOk result (λ body. (more : reply.Facets) → facet_over (option_map (λ body. body_view body (facet_view node.now).name) body) more
        ≡ print.facet_part (count == 0) (facet_view node.now) (definition.dist_buckets (R.reading reading.now) (facet_view node.now)
        (inner_view node.now) (inside (R.reading reading.now) (inner_view node.now)) shards.now
        ((R.reading reading.now).domain_on number (facet_view node.now) shards.now (R.held around.now)) more) more) }
{
    if count == 0 && has_no_tag(&node.domain.exclude) {
        return Ok(None);
    }
    let domain = reading.domain_on(alloc, number, node, shards, around)?;
    let printed = printed(alloc, reading, node, shards, &domain)?;
    let body = body(alloc, reading, node, printed)?;
    Ok(Some(body))
}

// What a node prints in a bucket, where it prints something: a facet by its number among the nodes, a
// statistic by its number among the statistics.
#[cycle(replying)]
fn facet<R: BucketReading>(
    alloc: Global,
    reading: &R,
    number: usize,
    statistic: usize,
    node: &Node,
    shards: &[u32],
    around: &R::Bucket,
    stats: &Stats,
) -> Result<Option<ReplyFacet>, WantMemory>
    requires countable { AreCountable (node_before (node_view node.now) request.no_nodes) }
    requires count { stats.now.count ≡ (R.reading reading.now).count_on shards.now (R.held around.now) }
    requires value { HasValue (R.reading reading.now) shards.now (R.held around.now) (stats_view stats.now) (node_view node.now) statistic }
    requires distinct { AreDistinct shards.now }
    ensures { IfOk result (λ facet. (rest : request.Nodes) → facet_over (option_map printed_facet_view facet)
        (definition.dist_facets (R.reading reading.now) rest (suc number) (statistics_after (node_view node.now) statistic) shards.now (R.held around.now))
        ≡ definition.dist_facets (R.reading reading.now) (node_before (node_view node.now) rest) number statistic shards.now (R.held around.now)) }
{
    let body = match &node.kind {
        Kind::Stat(_) => number_body(stats, statistic),
        _ => buckets_body(alloc, reading, number, node, shards, around, stats.count)?,
    };
    match body {
        Some(body) => Ok(Some(ReplyFacet {
            name: node.name.copy(alloc)?,
            body,
        })),
        None => Ok(None),
    }
}

/// What the nodes nested in one print in a bucket.
#[cycle(replying)]
pub(crate) fn facets<R: BucketReading>(
    alloc: Global,
    reading: &R,
    node: &Node,
    shards: &[u32],
    around: &R::Bucket,
    stats: &Stats,
) -> Result<Vec<ReplyFacet>, WantMemory>
    requires countable { AreCountable (inner_view node.now) }
    requires counted { stats_view stats.now ≡ stats_on (R.reading reading.now) (request.stats_of (inner_view node.now)) shards.now (R.held around.now) }
    requires distinct { AreDistinct shards.now }
    ensures { IfOk result (λ facets. facets_view facets.items
        ≡ definition.dist_facets (R.reading reading.now) (inner_view node.now) 0 0 shards.now (R.held around.now)) }
{
    let mut printed = Vec::new(alloc);
    let mut statistics = 0;
    for (number, nested) in node.nodes.iter().enumerate() {
        if let Some(facet) = facet(
            alloc, reading, number, statistics, nested, shards, around, stats,
        )? {
            printed.push(facet)?;
        }
        if is_statistic(nested) {
            statistics += 1;
        }
    }
    Ok(printed)
}
