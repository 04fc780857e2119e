// Copies of nodes and requests.
ghost use Rattle.std.specs.Prelude.{◌≡◌, IfOk};
ghost use Rattle.fc_request.specs.Nested.{with_nested};
ghost use Rattle.fc_request.specs.NodeView.{node_view, nodes_view};
ghost use Rattle.fc_request.specs.RequestView.{request_view, IsRoot};

use crate::request::root;
use crate::{Node, Request};
use fc_base::WantMemory;
use fc_query::copy_filters;
use std::alloc::Global;

impl Node {
    /// The same facet with these nodes nested in it.
    pub fn with_nodes(&self, alloc: Global, nodes: Vec<Node>) -> Result<Node, WantMemory>
        ensures { IfOk result (λ node.
            node_view node ≡ with_nested (node_view self.now) (nodes_view nodes.items)) }
    {
        let name = self.name.copy(alloc)?;
        let domain = self.domain.copy(alloc)?;
        let kind = self.kind.copy(alloc)?;
        Ok(Node {
            name,
            domain,
            kind,
            nodes,
        })
    }

    /// Another node that is the same, with those nested in it.
    #[cycle(copying)]
    pub fn copy(&self, alloc: Global) -> Result<Node, WantMemory>
        ensures { IfOk result (λ copy. node_view copy ≡ node_view self.now) }
    {
        let nodes = copy_nodes(alloc, &self.nodes)?;
        let node = self.with_nodes(alloc, nodes)?;
        Ok(node)
    }
}

/// Nodes that are the same, in their order.
#[cycle(copying)]
pub fn copy_nodes(alloc: Global, nodes: &[Node]) -> Result<Vec<Node>, WantMemory>
    ensures { IfOk result (λ copies. nodes_view copies.items ≡ nodes_view nodes.now) }
{
    let mut copies = Vec::with_capacity(alloc, nodes.len())?;
    for node in nodes {
        copies.push(node.copy(alloc)?)?;
    }
    Ok(copies)
}

impl Request {
    /// A request of the same query and filters, with these outermost nodes.
    pub fn with_nodes(&self, alloc: Global, nodes: Vec<Node>) -> Result<Request, WantMemory>
        ensures same { IfOk result (λ request.
            request_view request ≡ record (request_view self.now) { nodes = nodes_view nodes.items }) }
        ensures root { IfOk result (λ request. IsRoot request.root) }
    {
        let query = self.query.copy(alloc)?;
        let filters = copy_filters(alloc, &self.filters)?;
        let root = root(alloc, nodes)?;
        Ok(Request {
            query,
            filters,
            root,
        })
    }
}
