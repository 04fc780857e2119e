// The nodes where a way leads.
ghost use Rattle.std.specs.Prelude.{◌≡◌};
ghost use Rattle.fc_spec.specs.messages.Message.{way_of};
ghost use Rattle.fc_request.specs.NodeView.{nodes_view};
ghost use Rattle.fc_refine.specs.AskView.{want_view, way_view};
ghost use Rattle.fc_refine.specs.Along as along;
ghost use Rattle.fc_refine.specs.CountableRanges.{AreCountable};

use crate::{Step, Want};
use fc_request::{Kind, Node};

// The nodes nested in the facet of a number; none where there is no such facet.
fn nodes_in(nodes: &[Node], number: usize) -> &[Node]
    ensures { nodes_view result.now ≡ along.nodes_in number (nodes_view nodes.now) }
{
    match nodes.get(number) {
        Some(node) => match &node.kind {
            Kind::Stat(_) => &[],
            _ => &node.nodes,
        },
        None => &[],
    }
}

// Those where a way leads.
fn nodes_along<'a>(nodes: &'a [Node], way: &[Step]) -> &'a [Node]
    ensures { nodes_view result.now ≡ along.nodes_along (nodes_view nodes.now) (way_view way.now) }
{
    let mut inside = nodes;
    for step in way {
        inside = nodes_in(inside, step.node as usize);
    }
    inside
}

/// The nodes nested in a wanted bucket's own.
pub(crate) fn wanted_nodes<'a>(nodes: &'a [Node], want: &Want) -> &'a [Node]
    ensures { nodes_view result.now ≡ along.nodes_along (nodes_view nodes.now) (way_of (want_view want.now)) }
{
    let around = nodes_along(nodes, want.way());
    nodes_in(around, want.node as usize)
}
