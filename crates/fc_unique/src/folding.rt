// Folding a reply, facet by facet.
ghost use Rattle.std.specs.Prelude.{◌≡◌, ℕ, ◌==◌, IfOk, OnOk, Option, map, option_map};
ghost use Rattle.fc_spec.specs.documents.Val.{Text};
ghost use Rattle.fc_spec.specs.replies.Folded as definition;
ghost use Rattle.fc_spec.specs.replies.Reply as replies;
ghost use Rattle.fc_facet.specs.KindView.{show_view};
ghost use Rattle.fc_reply.specs.ReplyView.{body_view, bucket_view, buckets_view, facet_over, facet_view, facets_over, facets_view, reply_view, row_body, row_view};
ghost use Rattle.fc_request.specs.NodeView.{nodes_view};
ghost use Rattle.fc_request.specs.RequestView.{request_view};
ghost use Rattle.fc_unique.specs.Folding.{first_folded};

use crate::asking::asks_numbers;
use crate::number::{listed_in, number_behind};
use crate::own::own_facet;
use fc_base::WantMemory;
use fc_facet::Show;
use fc_reply::{Reply, ReplyBody, ReplyBucket, ReplyBuckets, ReplyFacet};
use fc_request::{Node, Request};
use std::alloc::Global;
use std::collections::VecDeque;

// Adds a facet, where there is one.
fn add(facet: Option<ReplyFacet>, made: &mut Vec<ReplyFacet>) -> Result<(), WantMemory>
    ensures { OnOk result ((more : replies.Facets) → facets_over (map facet_view made.new.items) more
        ≡ facets_over (map facet_view made.old.items) (facet_over (option_map facet_view facet) more)) }
{
    match facet {
        Some(facet) => {
            made.push(facet)?;
            Ok(())
        }
        None => Ok(()),
    }
}

// A bucket with these nodes.
#[cycle(folding)]
fn folded_bucket(
    alloc: Global,
    nodes: &[Node],
    bucket: ReplyBucket,
) -> Result<ReplyBucket, WantMemory>
    ensures { IfOk result (λ folded. bucket_view folded ≡ definition.folded_bucket (nodes_view nodes.now) (bucket_view bucket)) }
{
    let ReplyBucket { val, count, facets } = bucket;
    let facets = folded_facets(alloc, nodes, count == 0, facets)?;
    Ok(ReplyBucket { val, count, facets })
}

// Buckets with these nodes, in their order.
#[cycle(folding)]
fn folded_list(
    alloc: Global,
    nodes: &[Node],
    list: Vec<ReplyBucket>,
) -> Result<Vec<ReplyBucket>, WantMemory>
    ensures { IfOk result (λ folded. map bucket_view folded.items
        ≡ map (definition.folded_bucket (nodes_view nodes.now)) (map bucket_view list.items)) }
{
    let mut folded = Vec::with_capacity(alloc, list.len())?;
    for bucket in list {
        folded.push(folded_bucket(alloc, nodes, bucket)?)?;
    }
    Ok(folded)
}

// A bucket with these nodes, where there is one.
#[cycle(folding)]
fn folded_beside(
    alloc: Global,
    nodes: &[Node],
    bucket: Option<ReplyBucket>,
) -> Result<Option<ReplyBucket>, WantMemory>
    ensures { IfOk result (λ folded. option_map bucket_view folded
        ≡ option_map (definition.folded_bucket (nodes_view nodes.now)) (option_map bucket_view bucket)) }
{
    match bucket {
        Some(bucket) => {
            let bucket = folded_bucket(alloc, nodes, bucket)?;
            Ok(Some(bucket))
        }
        None => Ok(None),
    }
}

// The buckets of a facet, with these nodes nested in it and this number beside them.
#[cycle(folding)]
fn folded_row(
    alloc: Global,
    nodes: &[Node],
    number: Option<u64>,
    buckets: ReplyBuckets,
) -> Result<ReplyBuckets, WantMemory>
    ensures { IfOk result (λ folded. buckets_view folded
        ≡ row_body number (definition.folded_row (nodes_view nodes.now) (row_view buckets))) }
{
    let ReplyBuckets {
        list,
        missing,
        before,
        between,
        after,
        number: _number,
    } = buckets;
    if !asks_numbers(nodes) {
        return Ok(ReplyBuckets {
            list,
            missing,
            before,
            between,
            after,
            number,
        });
    }
    let list = folded_list(alloc, nodes, list)?;
    let missing = folded_beside(alloc, nodes, missing)?;
    let before = folded_beside(alloc, nodes, before)?;
    let between = folded_beside(alloc, nodes, between)?;
    let after = folded_beside(alloc, nodes, after)?;
    Ok(ReplyBuckets {
        list,
        missing,
        before,
        between,
        after,
        number,
    })
}

// What is printed of a facet's buckets, where they show this and the number stands behind them.
#[cycle(folding)]
fn shown(
    alloc: Global,
    show: Show,
    inner: &[Node],
    number: Option<u64>,
    buckets: ReplyBuckets,
) -> Result<Option<ReplyBody>, WantMemory>
    ensures { IfOk result (λ shown. (name : Text) (rest more : replies.Facets)
        → facet_over (option_map (λ body. body_view body name) shown) more
        ≡ first_folded (show_view show) (nodes_view inner.now) number (buckets_view buckets name rest) more) }
{
    if let Some(own) = buckets.number {
        let row = folded_row(alloc, inner, Some(own), buckets)?;
        return Ok(Some(ReplyBody::Many(row)));
    }
    match show {
        Show::Buckets => {
            let row = folded_row(alloc, inner, number, buckets)?;
            Ok(Some(ReplyBody::Many(row)))
        }
        Show::Number => Ok(Some(ReplyBody::Number(listed_in(&buckets) as i64))),
        Show::Beside => Ok(None),
    }
}

// What is printed of a facet, where it shows this and the number stands behind it.
#[cycle(folding)]
fn folded_body(
    alloc: Global,
    show: Show,
    inner: &[Node],
    number: Option<u64>,
    body: ReplyBody,
) -> Result<Option<ReplyBody>, WantMemory>
    ensures { IfOk result (λ folded. (name : Text) (rest more : replies.Facets)
        → facet_over (option_map (λ body. body_view body name) folded) more
        ≡ first_folded (show_view show) (nodes_view inner.now) number (body_view body name rest) more) }
{
    match body {
        ReplyBody::Number(number) => Ok(Some(ReplyBody::Number(number))),
        ReplyBody::Many(buckets) => {
            let body = shown(alloc, show, inner, number, buckets)?;
            Ok(body)
        }
        ReplyBody::One(bucket) => {
            let bucket = folded_bucket(alloc, inner, bucket)?;
            Ok(Some(ReplyBody::One(bucket)))
        }
    }
}

// The same, under its name.
#[cycle(folding)]
fn folded_facet(
    alloc: Global,
    show: Show,
    inner: &[Node],
    number: Option<u64>,
    facet: ReplyFacet,
) -> Result<Option<ReplyFacet>, WantMemory>
    ensures { IfOk result (λ folded. (rest more : replies.Facets) → facet_over (option_map facet_view folded) more
        ≡ first_folded (show_view show) (nodes_view inner.now) number (facet_view facet rest) more) }
{
    let ReplyFacet { name, body } = facet;
    match folded_body(alloc, show, inner, number, body)? {
        Some(body) => Ok(Some(ReplyFacet { name, body })),
        None => Ok(None),
    }
}

// The facets of a bucket with these nodes, which may be empty.
#[cycle(folding)]
fn folded_facets(
    alloc: Global,
    nodes: &[Node],
    is_empty: bool,
    facets: Vec<ReplyFacet>,
) -> Result<Vec<ReplyFacet>, WantMemory>
    ensures { IfOk result (λ folded. facets_view folded.items
        ≡ definition.folded_facets is_empty (nodes_view nodes.now) (facets_view facets.items)) }
{
    if nodes.is_empty() {
        return Ok(facets);
    }
    let mut folded = Vec::with_capacity(alloc, facets.len())?;
    let mut left = VecDeque::from_vec(facets);
    let mut behind = nodes;
    while let Some(facet) = left.pop_front() {
        let own = own_facet(behind, is_empty, &facet);
        let number = number_behind(own.behind, &left);
        let facet = folded_facet(alloc, own.show, own.inner, number, facet)?;
        add(facet, &mut folded)?;
        behind = own.behind;
    }
    Ok(folded)
}

/// The reply to a request in which the numbers of values and of buckets are asked for by facets of their own, with these numbers
/// in their places: that of a facet's buckets in its place, or beside the buckets of the facet before it. Buckets are moved and
/// not copied; where no number is asked for, the reply is as it was.
pub fn fold(alloc: Global, request: &Request, reply: Reply) -> Result<Reply, WantMemory>
    ensures { IfOk result (λ folded. reply_view folded
        ≡ definition.folded (request_view request.now) (reply_view reply)) }
{
    if !asks_numbers(&request.root.nodes) {
        return Ok(reply);
    }
    let Reply { root } = reply;
    let root = folded_bucket(alloc, &request.root.nodes, root)?;
    Ok(Reply { root })
}
