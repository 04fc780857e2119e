// At which depths facets ask again.
ghost use Rattle.std.specs.Prelude.{◌≡◌};
ghost use Rattle.fc_spec.specs.requests.Request.{no_nodes};
ghost use Rattle.fc_request.specs.NodeView.{node_view, nodes_view};
ghost use Rattle.fc_reading.specs.Tree.{node_before};
ghost use Rattle.fc_lacks.specs.Asking.{asks_at as asks_at_of};

use fc_facet::Kind;
use fc_reading::asks_again;
use fc_request::Node;

// Whether the node, or one under it, is such a terms facet.
#[cycle(asking)]
fn node_asks(node: &Node, depth: u32) -> bool
    ensures { result ≡ asks_at_of depth (node_before (node_view node.now) no_nodes) }
{
    match &node.kind {
        Kind::Terms(terms) => {
            if depth == 0 {
                asks_again(node, terms)
            } else {
                asks_at(&node.nodes, depth - 1)
            }
        }
        Kind::Range(_) | Kind::DateRange(_) | Kind::Query(_) => asks_at(&node.nodes, depth),
        Kind::Stat(_) => false,
    }
}

/// Whether one of the terms facets that have so many terms facets around them asks again.
#[cycle(asking)]
pub(crate) fn asks_at(nodes: &[Node], depth: u32) -> bool
    ensures { result ≡ asks_at_of depth (nodes_view nodes.now) }
{
    for node in nodes {
        if node_asks(node, depth) {
            return true;
        }
    }
    false
}
