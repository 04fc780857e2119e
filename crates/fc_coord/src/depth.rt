// How deep terms facets nest.
ghost use Rattle.std.specs.Prelude.{◌≡◌, ◌<◌, ◌^◌};
ghost use Rattle.fc_spec.specs.requests.Request.{no_nodes};
ghost use Rattle.fc_spec.specs.requests.RequestReading.{with_node};
ghost use Rattle.fc_spec.specs.messages.Lacks as definition;
ghost use Rattle.fc_request.specs.NodeView.{node_view, nodes_view};

use fc_request::{Kind, Node};

// How many terms facets stand around each other at most, with the node itself.
#[cycle(depth)]
fn node_depth(node: &Node) -> u32
    requires { definition.terms_depth (with_node (node_view node.now).0 (node_view node.now).1 no_nodes) < 2 ^ 32 }
    ensures { result ≡ definition.terms_depth (with_node (node_view node.now).0 (node_view node.now).1 no_nodes) }
{
    match &node.kind {
        Kind::Terms(_) => 1 + terms_depth(&node.nodes),
        Kind::Range(_) | Kind::DateRange(_) | Kind::Query(_) => terms_depth(&node.nodes),
        Kind::Stat(_) => 0,
    }
}

/// How many terms facets stand around each other at most.
#[cycle(depth)]
pub(crate) fn terms_depth(nodes: &[Node]) -> u32
    requires { definition.terms_depth (nodes_view nodes.now) < 2 ^ 32 }
    ensures { result ≡ definition.terms_depth (nodes_view nodes.now) }
{
    let mut deepest = 0;
    for node in nodes {
        deepest = node_depth(node).max(deepest);
    }
    deepest
}
