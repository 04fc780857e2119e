// A reply to the request with query facets in the place of exact ones, put together again.
ghost use Rattle.std.specs.Prelude.{◌≡◌, ◌&&◌, Bool, IfOk, IsTrue, List, OnOk, map, option_map};
ghost use Rattle.fc_spec.specs.documents.Val as values;
ghost use Rattle.fc_spec.specs.requests.Request as requests;
ghost use Rattle.fc_spec.specs.requests.RequestReading.{with_node};
ghost use Rattle.fc_spec.specs.replies.Reply as replies;
ghost use Rattle.fc_spec.specs.replies.Restored as definition;
ghost use Rattle.fc_spec.specs.replies.Tops as top_lists;
ghost use Rattle.fc_spec.specs.words.Lists.{is_empty as is_empty_list};
ghost use Rattle.fc_facet.specs.KindView.{terms_view};
ghost use Rattle.fc_request.specs.FacetNode.{facet_view as asked_facet, has_buckets, kind_of, kind_view};
ghost use Rattle.fc_request.specs.NodeView.{node_view, nodes_view};
ghost use Rattle.fc_request.specs.RequestView.{request_view};
ghost use Rattle.fc_reply.specs.ReplyView.{facet_view, facets_over, facets_view, reply_view};
ghost use Rattle.fc_replaced.specs.ExactParts.{is_exact as is_exact_of};
ghost use Rattle.fc_replaced.specs.Fronts.{facet_over};
ghost use Rattle.fc_replaced.specs.TopsView.{tops_view, vals_view};

use crate::lists::{first_list, lists_after};
use crate::request::{exact_terms, is_exact};
use crate::row::row;
use fc_base::{Name, Val, WantMemory};
use fc_facet::{Kind, Terms};
use fc_reply::{Reply, ReplyBody, ReplyBucket, ReplyFacet};
use fc_request::{Node, Request};
use std::alloc::Global;
use std::collections::VecDeque;

// Whether two names are the same.
fn is_same(name: &Name, other: &Name) -> bool
    ensures { result ≡ values.same_text name.now other.now }
{
    name.cmp(other).is_eq()
}

// Whether a facet is a number of that name.
fn is_number(name: &Name, facet: &ReplyFacet) -> bool
    ensures { (more : replies.Facets) → result ≡ definition.is_number_of name.now (facet_view facet.now more) }
{
    match &facet.body {
        ReplyBody::Number(_) => is_same(name, &facet.name),
        _ => false,
    }
}

// Whether the first facet is a number of that name.
fn is_number_first(name: &Name, left: &VecDeque<ReplyFacet>) -> bool
    ensures { result ≡ definition.is_number_of name.now (facets_view left.now.items) }
{
    match left.front() {
        Some(facet) => is_number(name, facet),
        None => false,
    }
}

// Takes the first facet.
fn next_facet(left: &mut VecDeque<ReplyFacet>) -> Option<ReplyFacet>
    ensures facet { (more : replies.Facets) → facet_over (option_map facet_view result) more
        ≡ definition.with_first (facets_view left.old.items) more }
    ensures left { facets_view left.new.items ≡ definition.after_first (facets_view left.old.items) }
{
    left.pop_front()
}

// Takes the number of that name, where it is first.
fn next_number(name: &Name, left: &mut VecDeque<ReplyFacet>) -> Option<ReplyFacet>
    ensures { (rest : requests.Nodes) (s : requests.Stat) (vss : List (List values.Val)) (empty : Bool)
        → facet_over (option_map facet_view result) (definition.restored_facets rest vss empty (facets_view left.new.items))
        ≡ definition.restored_facets (requests.statistic name.now s rest) vss empty (facets_view left.old.items) }
{
    if is_number_first(name, left) {
        next_facet(left)
    } else {
        None
    }
}

// What an exact facet prints, from the facets of its buckets.
fn exact_facet(
    alloc: Global,
    name: &Name,
    terms: &Terms,
    vals: &[Val],
    left: &mut VecDeque<ReplyFacet>,
) -> Result<ReplyFacet, WantMemory>
    ensures facet { IfOk result (λ facet. (more : replies.Facets) → facet_view facet more ≡ replies.many name.now
        (definition.row_from (terms_view terms.now) (top_lists.top_keys (terms_view terms.now) (vals_view vals.now))
        (facets_view left.old.items)) more) }
    ensures left { OnOk result (facets_view left.new.items ≡ definition.after_keys
        (top_lists.top_keys (terms_view terms.now) (vals_view vals.now)) (facets_view left.old.items)) }
{
    let row = row(alloc, terms, vals, left)?;
    Ok(ReplyFacet {
        name: name.copy(alloc)?,
        body: ReplyBody::Many(row),
    })
}

// What a facet that has buckets prints, where these are its top values.
fn shown_facet(
    alloc: Global,
    node: &Node,
    vals: &[Val],
    left: &mut VecDeque<ReplyFacet>,
) -> Result<Option<ReplyFacet>, WantMemory>
    ensures facet { IfOk result (λ facet. (more : replies.Facets) → facet_over (option_map facet_view facet) more
        ≡ definition.restored_facet (kind_view (kind_of node.now)) (asked_facet node.now).name (vals_view vals.now)
        (facets_view left.old.items) more) }
    ensures left { OnOk result (facets_view left.new.items ≡ definition.after_facet
        (kind_view (kind_of node.now)) (vals_view vals.now) (facets_view left.old.items)) }
{
    match exact_terms(&node.kind) {
        Some(terms) => {
            let facet = exact_facet(alloc, &node.name, terms, vals, left)?;
            Ok(Some(facet))
        }
        None => Ok(next_facet(left)),
    }
}

fn has_no_tag(tags: &[Name]) -> bool
    ensures { result ≡ is_empty_list tags.now }
{
    tags.is_empty()
}

// Whether a facet is not printed in a bucket that is empty or not.
fn is_hidden(node: &Node, is_empty: bool) -> bool
    ensures { result ≡ (is_empty && is_empty_list (asked_facet node.now).change.exclude) }
{
    if !is_empty {
        return false;
    }
    has_no_tag(&node.domain.exclude)
}

// What a facet that has buckets prints in a bucket that is empty or not.
fn facet(
    alloc: Global,
    node: &Node,
    vals: &[Val],
    is_empty: bool,
    left: &mut VecDeque<ReplyFacet>,
) -> Result<Option<ReplyFacet>, WantMemory>
    requires { IsTrue (has_buckets (kind_of node.now)) }
    ensures { IfOk result (λ facet. (rest : requests.Nodes) (vss : List (List values.Val))
        → top_lists.first_list vss ≡ vals_view vals.now → facet_over (option_map facet_view facet)
        (definition.restored_facets rest (top_lists.lists_after (is_exact_of (node_view node.now)) vss) is_empty (facets_view left.new.items))
        ≡ definition.restored_facets (with_node (node_view node.now).0 (node_view node.now).1 rest) vss is_empty (facets_view left.old.items)) }
{
    if is_hidden(node, is_empty) {
        return Ok(None);
    }
    let shown = shown_facet(alloc, node, vals, left)?;
    Ok(shown)
}

// What a node prints in a bucket that is empty or not, where these are its top values.
fn printed(
    alloc: Global,
    node: &Node,
    vals: &[Val],
    is_empty: bool,
    left: &mut VecDeque<ReplyFacet>,
) -> Result<Option<ReplyFacet>, WantMemory>
    ensures { IfOk result (λ facet. (rest : requests.Nodes) (vss : List (List values.Val))
        → top_lists.first_list vss ≡ vals_view vals.now → facet_over (option_map facet_view facet)
        (definition.restored_facets rest (top_lists.lists_after (is_exact_of (node_view node.now)) vss) is_empty (facets_view left.new.items))
        ≡ definition.restored_facets (with_node (node_view node.now).0 (node_view node.now).1 rest) vss is_empty (facets_view left.old.items)) }
{
    match &node.kind {
        Kind::Stat(_) => Ok(next_number(&node.name, left)),
        _ => facet(alloc, node, vals, is_empty, left),
    }
}

// Adds what a node prints in a bucket that is empty or not, where these are its top values.
fn add_printed(
    alloc: Global,
    node: &Node,
    vals: &[Val],
    is_empty: bool,
    left: &mut VecDeque<ReplyFacet>,
    made: &mut Vec<ReplyFacet>,
) -> Result<(), WantMemory>
    ensures { OnOk result ((rest : requests.Nodes) (vss : List (List values.Val))
        → top_lists.first_list vss ≡ vals_view vals.now → facets_over (map facet_view made.new.items)
        (definition.restored_facets rest (top_lists.lists_after (is_exact_of (node_view node.now)) vss) is_empty (facets_view left.new.items))
        ≡ facets_over (map facet_view made.old.items)
        (definition.restored_facets (with_node (node_view node.now).0 (node_view node.now).1 rest) vss is_empty (facets_view left.old.items))) }
{
    match printed(alloc, node, vals, is_empty, left)? {
        Some(facet) => {
            made.push(facet)?;
            Ok(())
        }
        None => Ok(()),
    }
}

// What the nodes print in a bucket that is empty or not.
fn restored_facets(
    alloc: Global,
    nodes: &[Node],
    tops: &[Vec<Val>],
    is_empty: bool,
    facets: Vec<ReplyFacet>,
) -> Result<Vec<ReplyFacet>, WantMemory>
    ensures { IfOk result (λ made. facets_view made.items ≡ definition.restored_facets
        (nodes_view nodes.now) (tops_view tops.now) is_empty (facets_view facets.items)) }
{
    let mut made = Vec::with_capacity(alloc, nodes.len())?;
    let mut left = VecDeque::from_vec(facets);
    let mut lists = tops;
    for node in nodes {
        let vals = first_list(lists);
        add_printed(alloc, node, vals, is_empty, &mut left, &mut made)?;
        lists = lists_after(is_exact(node), lists);
    }
    Ok(made)
}

/// The reply to a request, from that to the request with query facets in the place of its exact facets: the buckets of the
/// query facets that stand in the place of an exact facet are the buckets of its row, each with its value. Buckets are moved
/// and not copied. Where a facet of the reply is not of the replaced request, a row ends before it.
pub fn restored(
    alloc: Global,
    request: &Request,
    tops: &[Vec<Val>],
    reply: Reply,
) -> Result<Reply, WantMemory>
    ensures { IfOk result (λ whole. reply_view whole
        ≡ definition.restored (request_view request.now) (tops_view tops.now) (reply_view reply)) }
{
    let Reply { root } = reply;
    let ReplyBucket { val, count, facets } = root;
    let facets = restored_facets(alloc, &request.root.nodes, tops, count == 0, facets)?;
    Ok(Reply {
        root: ReplyBucket { val, count, facets },
    })
}
