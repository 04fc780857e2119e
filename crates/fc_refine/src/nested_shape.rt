// The shape of what is nested in buckets.
ghost use Rattle.std.specs.Prelude.{◌≡◌, option_map};
ghost use Rattle.fc_spec.specs.messages.MessageShape as definition;
ghost use Rattle.fc_spec.specs.requests.Ranks.{offered_bound};
ghost use Rattle.fc_partial.specs.BucketView.{buckets_view, rows_view};
ghost use Rattle.fc_request.specs.NodeView.{node_view, nodes_view};
ghost use Rattle.fc_spec.specs.requests.Request.{no_nodes};
ghost use Rattle.fc_spec.specs.requests.RequestReading.{with_node};
ghost use Rattle.fc_refine.specs.CountableRanges.{AreCountable};
ghost use Rattle.fc_refine.specs.Leaving.{LeavesRows};

use crate::bucket_shape::{buckets_fit, is_complete};
use fc_partial::{PartialBucket, PartialNode};
use fc_request::{Kind, Node};

// What a node leaves of lists of buckets: one less where it is a facet.
#[cycle(shape)]
fn rows_left<'r>(node: &Node, rows: &'r [PartialNode]) -> Option<&'r [PartialNode]>
    requires { AreCountable (with_node (node_view node.now).0 (node_view node.now).1 no_nodes) }
    ensures { LeavesRows (node_view node.now) (rows_view rows.now) (option_map (λ left. rows_view left.now) result) }
{
    if let Kind::Stat(_) = &node.kind {
        return Some(rows);
    }
    let (row, left) = rows.split_first()?;
    let all = &row.buckets;
    if !is_complete(&node.kind, all) {
        return None;
    }
    if !buckets_fit(&node.kind, &node.nodes, all) {
        return None;
    }
    if !insides_fit(&node.nodes, all) {
        return None;
    }
    Some(left)
}

/// Whether there is a list of buckets of its shape for each facet among the nodes, in order.
#[cycle(shape)]
pub(crate) fn rows_fit(nodes: &[Node], rows: &[PartialNode]) -> bool
    requires { AreCountable (nodes_view nodes.now) }
    ensures { result ≡ definition.rows_fit offered_bound (rows_view rows.now) (nodes_view nodes.now) }
{
    let mut left = rows;
    for node in nodes {
        match rows_left(node, left) {
            Some(rest) => left = rest,
            None => return false,
        }
    }
    left.is_empty()
}

// Whether what is nested in each of the buckets has its shape.
#[cycle(shape)]
fn insides_fit(nodes: &[Node], all: &[PartialBucket]) -> bool
    requires { AreCountable (nodes_view nodes.now) }
    ensures { result ≡ definition.insides_fit offered_bound (buckets_view all.now) (nodes_view nodes.now) }
{
    for bucket in all {
        if !rows_fit(nodes, &bucket.nodes) {
            return false;
        }
    }
    true
}
