// Whether facets exclude tags.
ghost use Rattle.std.specs.Prelude.{◌≡◌};
ghost use Rattle.fc_spec.specs.words.Lists.{is_empty};
ghost use Rattle.fc_spec.specs.requests.Request.{no_nodes};
ghost use Rattle.fc_spec.specs.requests.RequestReading.{with_node};
ghost use Rattle.fc_spec.specs.requests.Shape.{holds_exclusion as holds_exclusion_of, no_exclusions};
ghost use Rattle.fc_facet.specs.KindView.{domain_view};
ghost use Rattle.fc_request.specs.NodeView.{node_view, nodes_view};

use crate::Node;
use fc_base::Name;
use fc_facet::{Domain, Kind};

// Whether the change excludes no tag.
fn excludes_none(change: &Domain) -> bool
    ensures { result ≡ is_empty (domain_view change.now).exclude }
{
    let exclude: &[Name] = &change.exclude;
    exclude.is_empty()
}

// Whether the node is no facet that excludes tags, and holds none.
#[cycle(excluding)]
fn node_excludes_none(node: &Node) -> bool
    ensures { result ≡ no_exclusions (with_node (node_view node.now).0 (node_view node.now).1 no_nodes) }
{
    match &node.kind {
        Kind::Stat(_) => true,
        _ => {
            if excludes_none(&node.domain) {
                exclude_none(&node.nodes)
            } else {
                false
            }
        }
    }
}

// Whether no facet among the nodes, at any depth, excludes tags.
#[cycle(excluding)]
fn exclude_none(nodes: &[Node]) -> bool
    ensures { result ≡ no_exclusions (nodes_view nodes.now) }
{
    for node in nodes {
        if !node_excludes_none(node) {
            return false;
        }
    }
    true
}

/// Whether a facet with these nodes nested in it holds, at any depth, one that excludes tags.
pub fn holds_exclusion(nodes: &[Node]) -> bool
    ensures { result ≡ holds_exclusion_of (nodes_view nodes.now) }
{
    !exclude_none(nodes)
}

impl Node {
    ghost use Rattle.fc_request.specs.NodeView.{inner_view};

    /// Whether it holds, at any depth, a facet that excludes tags.
    pub fn holds_exclusion(&self) -> bool
        ensures { result ≡ holds_exclusion_of (inner_view self.now) }
    {
        holds_exclusion(&self.nodes)
    }
}
