// The request of the exact facets alone.
ghost use Rattle.std.specs.Prelude.{◌≡◌, IfOk, OnOk, map, not, option_map};
ghost use Rattle.fc_spec.specs.requests.Request as requests;
ghost use Rattle.fc_spec.specs.requests.RequestReading.{with_node};
ghost use Rattle.fc_spec.specs.requests.Shape as shape;
ghost use Rattle.fc_spec.specs.replies.Tops as definition;
ghost use Rattle.fc_facet.specs.KindView.{terms_view};
ghost use Rattle.fc_request.specs.FacetNode.{kind_view};
ghost use Rattle.fc_request.specs.NodeView.{node_view, nodes_view};
ghost use Rattle.fc_request.specs.RequestView.{request_view, IsRoot};
ghost use Rattle.fc_replaced.specs.ExactParts.{exact_of, is_exact as is_exact_of, nodes_over};

use fc_base::WantMemory;
use fc_facet::{Kind, Terms};
use fc_request::{Node, Request};
use std::alloc::Global;

// Whether a terms facet is exact.
fn is_exact_terms(terms: &Terms) -> bool
    ensures { result ≡ shape.is_exact (requests.terms (terms_view terms.now)) }
{
    terms.exact && terms.limit.is_some()
}

/// The terms facet, where it is exact.
pub(crate) fn exact_terms(kind: &Kind) -> Option<&Terms>
    ensures { option_map (λ terms. terms_view terms.now) result ≡ exact_of (kind_view kind.now) }
{
    match kind {
        Kind::Terms(terms) => {
            if is_exact_terms(terms) {
                Some(terms)
            } else {
                None
            }
        }
        Kind::Range(_) | Kind::DateRange(_) | Kind::Query(_) | Kind::Stat(_) => None,
    }
}

/// Whether the node is an exact facet.
pub(crate) fn is_exact(node: &Node) -> bool
    ensures { result ≡ is_exact_of (node_view node.now) }
{
    exact_terms(&node.kind).is_some()
}

// Whether one of the nodes is an exact facet.
fn is_one_exact(nodes: &[Node]) -> bool
    ensures { result ≡ not (shape.no_exact (nodes_view nodes.now)) }
{
    for node in nodes {
        if is_exact(node) {
            return true;
        }
    }
    false
}

/// Whether some facet of the root is exact.
pub fn has_exact(request: &Request) -> bool
    ensures { result ≡ not (shape.no_exact (request_view request.now).nodes) }
{
    is_one_exact(&request.root.nodes)
}

// Adds a node without the nodes nested in it, where it is an exact facet.
fn add_exact(alloc: Global, node: &Node, exact: &mut Vec<Node>) -> Result<(), WantMemory>
    ensures { OnOk result ((rest : requests.Nodes) → nodes_over (map node_view exact.new.items) (definition.exact_nodes rest)
        ≡ nodes_over (map node_view exact.old.items) (definition.exact_nodes (with_node (node_view node.now).0 (node_view node.now).1 rest))) }
{
    if !is_exact(node) {
        return Ok(());
    }
    let bare = node.with_nodes(alloc, Vec::new(alloc))?;
    exact.push(bare)?;
    Ok(())
}

// The exact facets among the nodes, without the nodes nested in them.
fn exact_nodes(alloc: Global, nodes: &[Node]) -> Result<Vec<Node>, WantMemory>
    ensures { IfOk result (λ exact. nodes_view exact.items ≡ definition.exact_nodes (nodes_view nodes.now)) }
{
    let mut exact = Vec::new(alloc);
    for node in nodes {
        add_exact(alloc, node, &mut exact)?;
    }
    Ok(exact)
}

/// The request of the exact facets of the root alone: its query, its filters, and those facets in their order, without what
/// is nested in them.
pub fn only_exact(alloc: Global, request: &Request) -> Result<Request, WantMemory>
    ensures request { IfOk result (λ exact. request_view exact ≡ definition.only_exact (request_view request.now)) }
    ensures root { IfOk result (λ exact. IsRoot exact.root) }
{
    let nodes = exact_nodes(alloc, &request.root.nodes)?;
    let exact = request.with_nodes(alloc, nodes)?;
    Ok(exact)
}
