// Facets among nodes.
ghost use Rattle.std.specs.Prelude.{◌≡◌, ◌∷◌, [], IsTrue, MatchOption};
ghost use Rattle.fc_request.specs.FacetNode.{has_buckets, kind_of};
ghost use Rattle.fc_request.specs.NodeView.{nodes_view};
ghost use Rattle.fc_levels.specs.Facets.{facet_count, facets_of, nested_view};

use fc_request::{Kind, Node};

fn is_facet(node: &Node) -> bool
    ensures { result ≡ has_buckets (kind_of node.now) }
{
    !matches!(&node.kind, Kind::Stat(_))
}

/// The first facet of the nodes, with the nodes behind it. Statistics are passed over.
pub fn next_facet(nodes: &[Node]) -> Option<(&Node, &[Node])>
    ensures facet { MatchOption result (facets_of (nodes_view nodes.now) ≡ [])
        (λ next. IsTrue (has_buckets (kind_of next.0.now))) }
    ensures next { MatchOption result (facets_of (nodes_view nodes.now) ≡ [])
        (λ next. facets_of (nodes_view nodes.now) ≡ nested_view next.0.now ∷ facets_of (nodes_view next.1.now)) }
{
    let mut left = nodes;
    while let Some((node, behind)) = left.split_first() {
        if is_facet(node) {
            return Some((node, behind));
        }
        left = behind;
    }
    None
}

/// How many of the nodes are facets.
pub fn facet_count(nodes: &[Node]) -> usize
    ensures { result ≡ facet_count (nodes_view nodes.now) }
{
    nodes.iter().filter(|node| is_facet(node)).count()
}
