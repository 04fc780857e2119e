// Which facet of a request stands at a place of a reply.
ghost use Rattle.std.specs.Prelude.{◌≡◌, ◌-◌, ◌≤◌};
ghost use Rattle.fc_spec.specs.requests.Spread.{show_first};
ghost use Rattle.fc_spec.specs.replies.Folded as definition;
ghost use Rattle.fc_spec.specs.replies.Reply as replies;
ghost use Rattle.fc_spec.specs.words.Lists.{is_empty as is_empty_list};
ghost use Rattle.fc_facet.specs.KindView.{domain_view, show_view};
ghost use Rattle.fc_reply.specs.ReplyView.{facet_view};
ghost use Rattle.fc_request.specs.NodeView.{node_view, nodes_view};
ghost use Rattle.fc_unique.specs.Folding.{first_folded, is_printed as is_printed_of};
ghost use Rattle.fc_unique.specs.Sizes.{node_total};

use crate::asking::show;
use fc_base::Name;
use fc_facet::{Domain, Kind, Show};
use fc_reply::{ReplyBody, ReplyFacet};
use fc_request::Node;

/// What a facet of a request shows, the nodes nested in it, and those behind it.
#[derive(Clone, Copy)]
pub(crate) struct Own<'r> {
    pub(crate) show: Show,
    pub(crate) inner: &'r [Node],
    pub(crate) behind: &'r [Node],
}

// Whether a facet excludes no tag.
fn has_no_tag(change: &Domain) -> bool
    ensures { result ≡ is_empty_list (domain_view change.now).exclude }
{
    let exclude: &[Name] = &change.exclude;
    exclude.is_empty()
}

// Whether a node is a facet that is printed in a bucket, which may be empty.
fn is_printed(node: &Node, is_empty: bool) -> bool
    ensures { result ≡ is_printed_of is_empty (node_view node.now) }
{
    match &node.kind {
        Kind::Stat(_) => false,
        _ => !(is_empty && has_no_tag(&node.domain)),
    }
}

// The first of the nodes that is a facet which is printed in a bucket, which may be empty.
fn first_printed<'r>(nodes: &'r [Node], is_empty: bool) -> Own<'r>
    ensures show { show_view result.show ≡ show_first (definition.from_printed is_empty (nodes_view nodes.now)) }
    ensures inner { nodes_view result.inner.now ≡ definition.inner_of (definition.from_printed is_empty (nodes_view nodes.now)) }
    ensures behind { nodes_view result.behind.now ≡ definition.rest_of (definition.from_printed is_empty (nodes_view nodes.now)) }
{
    for (at, node) in nodes.iter().enumerate() {
        if is_printed(node, is_empty) {
            return Own {
                show: show(&node.kind),
                inner: &node.nodes,
                behind: &nodes[at + 1..],
            };
        }
    }
    Own {
        show: Show::Buckets,
        inner: &[],
        behind: &[],
    }
}

/// The facet of the request that stands at a place of the reply in a bucket, which may be empty, where these nodes are left. A
/// statistic's number stands for itself, and so does a facet that none of the nodes asks for.
pub(crate) fn own_facet<'r>(nodes: &'r [Node], is_empty: bool, facet: &ReplyFacet) -> Own<'r>
    ensures folded { (more : replies.Facets) → definition.folded_facets is_empty (nodes_view nodes.now) (facet_view facet.now more)
        ≡ first_folded (show_view result.show) (nodes_view result.inner.now)
        (definition.number_for (show_first (nodes_view result.behind.now)) more) (facet_view facet.now more)
        (definition.folded_facets is_empty (nodes_view result.behind.now) more) }
    ensures inner { node_total (nodes_view result.inner.now) ≤ node_total (nodes_view nodes.now) - 1 }
    ensures behind { node_total (nodes_view result.behind.now) ≤ node_total (nodes_view nodes.now) }
{
    match &facet.body {
        ReplyBody::Number(_) => Own {
            show: Show::Buckets,
            inner: &[],
            behind: nodes,
        },
        ReplyBody::Many(_) | ReplyBody::One(_) => first_printed(nodes, is_empty),
    }
}
