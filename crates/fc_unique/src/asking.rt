// Whether numbers are asked for.
ghost use Rattle.std.specs.Prelude.{◌≡◌};
ghost use Rattle.fc_spec.specs.requests.Request.{no_nodes};
ghost use Rattle.fc_spec.specs.requests.RequestReading.{with_node};
ghost use Rattle.fc_spec.specs.requests.Spread.{show_of};
ghost use Rattle.fc_facet.specs.KindView.{show_view};
ghost use Rattle.fc_request.specs.FacetNode.{kind_view};
ghost use Rattle.fc_request.specs.NodeView.{node_view, nodes_view};
ghost use Rattle.fc_unique.specs.Asking.{asks_numbers as asks_numbers_of, shows_number as shows_number_of};

use fc_facet::{Kind, Show};
use fc_request::Node;

/// What is printed of a node.
pub(crate) fn show(kind: &Kind) -> Show
    ensures { show_view result ≡ show_of (kind_view kind.now) }
{
    match kind {
        Kind::Terms(terms) => terms.show,
        _ => Show::Buckets,
    }
}

// Whether a number is printed of a node.
fn shows_number(kind: &Kind) -> bool
    ensures { result ≡ shows_number_of (show_of (kind_view kind.now)) }
{
    match show(kind) {
        Show::Buckets => false,
        Show::Number | Show::Beside => true,
    }
}

// Whether the node, or one that is nested in it at any depth, asks for a number.
#[cycle(asking)]
fn asks_number(node: &Node) -> bool
    ensures { result ≡ asks_numbers_of (with_node (node_view node.now).0 (node_view node.now).1 no_nodes) }
{
    match &node.kind {
        Kind::Stat(_) => false,
        kind => {
            if shows_number(kind) {
                true
            } else {
                asks_numbers(&node.nodes)
            }
        }
    }
}

/// Whether one of the nodes, at any depth, asks for a number.
#[cycle(asking)]
pub(crate) fn asks_numbers(nodes: &[Node]) -> bool
    ensures { result ≡ asks_numbers_of (nodes_view nodes.now) }
{
    for node in nodes {
        if asks_number(node) {
            return true;
        }
    }
    false
}
