// The number that stands behind a facet.
ghost use Rattle.std.specs.Prelude.{◌≡◌, ◌<◌, ◌^◌};
ghost use Rattle.fc_spec.specs.requests.Request.{number_beside};
ghost use Rattle.fc_spec.specs.requests.Spread.{show_first};
ghost use Rattle.fc_spec.specs.replies.Folded as definition;
ghost use Rattle.fc_spec.specs.replies.Reply as replies;
ghost use Rattle.fc_reply.specs.ReplyView.{facet_view, facets_view, row_view};
ghost use Rattle.fc_request.specs.NodeView.{nodes_view};
ghost use Rattle.fc_unique.specs.Folding.{is_beside};

use crate::asking::show;
use fc_facet::Show;
use fc_reply::{ReplyBody, ReplyBuckets, ReplyFacet};
use fc_request::Node;
use std::collections::VecDeque;

// Whether the number of the first node's buckets stands beside those of the facet before it.
fn stands_beside(nodes: &[Node]) -> bool
    ensures { result ≡ is_beside (show_first (nodes_view nodes.now)) }
{
    match nodes.first() {
        Some(node) => matches!(show(&node.kind), Show::Beside),
        None => false,
    }
}

/// How many buckets a facet has in its list.
pub(crate) fn listed_in(buckets: &ReplyBuckets) -> u64
    ensures count { result ≡ definition.listed_in (row_view buckets.now) }
    ensures small { result < 2 ^ 63 }
{
    buckets.list.len() as u64
}

// The same, where no number stands beside them yet; of what has no list none.
fn listed_of(facet: &ReplyFacet) -> Option<u64>
    ensures { (more : replies.Facets) → result ≡ definition.number_for number_beside (facet_view facet.now more) }
{
    match &facet.body {
        ReplyBody::Many(buckets) => match buckets.number {
            Some(_) => None,
            None => Some(listed_in(buckets)),
        },
        _ => None,
    }
}

/// The number that the facet in front has beside its buckets, where these nodes and these facets of the reply are behind it.
pub(crate) fn number_behind(nodes: &[Node], left: &VecDeque<ReplyFacet>) -> Option<u64>
    ensures { result ≡ definition.number_for (show_first (nodes_view nodes.now)) (facets_view left.now.items) }
{
    if !stands_beside(nodes) {
        return None;
    }
    match left.front() {
        Some(facet) => listed_of(facet),
        None => None,
    }
}
