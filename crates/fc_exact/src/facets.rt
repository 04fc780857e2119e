// The facets of a request, with what was told of them.
ghost use Rattle.std.specs.Prelude.{◌≡◌, All, IfOk, map, option_map};
ghost use Rattle.fc_refine.specs.Grouped.{Ascend};
ghost use Rattle.fc_request.specs.FacetNode.{kind_view};
ghost use Rattle.fc_request.specs.NodeView.{node_view, nodes_view};
ghost use Rattle.fc_exact.specs.ToldFacets.{facets_in, kind_of_node};
ghost use Rattle.fc_exact.specs.ToldView.{facet_view};
ghost use Rattle.fc_exact.specs.View.{told_view};

use crate::by_facet::told_by_facet;
use crate::told::ToldCount;
use crate::values::{ToldValue, told_values};
use fc_base::WantMemory;
use fc_request::{Kind, Node};
use std::alloc::Global;

/// A facet with its values in index order.
#[derive(Drop)]
pub(crate) struct ToldFacet<'a> {
    pub(crate) kind: &'a Kind,
    pub(crate) values: Vec<ToldValue<'a>>,
}

// The kind of a node, where it is a facet.
fn facet_kind(node: &Node) -> Option<&Kind>
    ensures { option_map (λ kind. kind_view kind.now) result ≡ kind_of_node (node_view node.now).1 }
{
    match &node.kind {
        Kind::Stat(_) => None,
        kind => Some(kind),
    }
}

/// Each facet among nodes, in their order.
pub(crate) fn told_facets<'a>(
    alloc: Global,
    nodes: &'a [Node],
    told: &'a [ToldCount],
) -> Result<Vec<ToldFacet<'a>>, WantMemory>
    ensures facets { IfOk result (λ facets. map facet_view facets.items
        ≡ facets_in (map told_view told.now) (nodes_view nodes.now) 0) }
    ensures ascend { IfOk result (λ facets. All (λ facet. Ascend (facet_view facet).1) facets.items) }
{
    let lists = told_by_facet(alloc, told, nodes.len())?;
    let mut facets = Vec::new(alloc);
    for node in nodes {
        let Some(kind) = facet_kind(node) else {
            continue;
        };
        let values = told_values(alloc, &lists[facets.len()])?;
        facets.push(ToldFacet { kind, values })?;
    }
    Ok(facets)
}
