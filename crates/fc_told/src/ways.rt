// Where ways lead: the nodes there, and the bucket.
ghost use Rattle.std.specs.Prelude.{◌≡◌, option_map};
ghost use Rattle.fc_spec.specs.messages.Message.{way_of};
ghost use Rattle.fc_partial.specs.View.{key_view};
ghost use Rattle.fc_refine.specs.Along as along;
ghost use Rattle.fc_refine.specs.AskView.{want_view, way_view};
ghost use Rattle.fc_request.specs.NodeView.{nodes_view};
ghost use Rattle.fc_told.specs.Trees as trees;
ghost use Rattle.fc_told.specs.TreeView.{tree_there, tree_view};

use crate::ToldBucket;
use fc_partial::Key;
use fc_refine::{Step, Want};
use fc_request::{Kind, Node};

/// The nodes nested in the facet of a number; none where there is no such facet.
pub(crate) fn nodes_in(nodes: &[Node], number: usize) -> &[Node]
    ensures { nodes_view result.now ≡ along.nodes_in number (nodes_view nodes.now) }
{
    match nodes.get(number) {
        Some(node) => match &node.kind {
            Kind::Stat(_) => &[],
            _ => &node.nodes,
        },
        None => &[],
    }
}

// Those where a way leads.
fn nodes_along<'a>(nodes: &'a [Node], way: &[Step]) -> &'a [Node]
    ensures { nodes_view result.now ≡ along.nodes_along (nodes_view nodes.now) (way_view way.now) }
{
    let mut inside = nodes;
    for step in way {
        inside = nodes_in(inside, step.node as usize);
    }
    inside
}

/// The nodes nested in a wanted bucket's own.
pub(crate) fn wanted_nodes<'a>(nodes: &'a [Node], want: &Want) -> &'a [Node]
    ensures { nodes_view result.now ≡ along.nodes_along (nodes_view nodes.now) (way_of (want_view want.now)) }
{
    let around = nodes_along(nodes, want.way());
    nodes_in(around, want.node as usize)
}

/// The bucket of a key of the node at a place, in one that may not be there.
pub(crate) fn child_of<'a>(
    told: Option<&'a ToldBucket>,
    number: usize,
    key: &Key,
) -> Option<&'a ToldBucket>
    ensures { tree_there (option_map (λ bucket. bucket.now) result)
        ≡ trees.child (record { node = number; key = key_view key.now }) (tree_there (option_map (λ bucket. bucket.now) told.entry)) }
{
    match told {
        Some(bucket) => bucket.child(number, key),
        None => None,
    }
}

// The bucket where a way leads.
fn bucket_along<'a>(told: &'a ToldBucket, way: &[Step]) -> Option<&'a ToldBucket>
    ensures { tree_there (option_map (λ bucket. bucket.now) result) ≡ trees.at (way_view way.now) (tree_view told.now) }
{
    let mut there = Some(told);
    for step in way {
        there = child_of(there, step.node as usize, &step.key);
    }
    there
}

/// A wanted bucket.
pub(crate) fn wanted_bucket<'a>(told: &'a ToldBucket, want: &Want) -> Option<&'a ToldBucket>
    ensures { tree_there (option_map (λ bucket. bucket.now) result) ≡ trees.at (way_of (want_view want.now)) (tree_view told.now) }
{
    let around = bucket_along(told, want.way());
    child_of(around, want.node as usize, &want.key)
}
