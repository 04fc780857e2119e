// The request with query facets in the place of exact ones.
ghost use Rattle.std.specs.Prelude.{◌≡◌, IfOk, OnOk, map};
ghost use Rattle.fc_spec.specs.queries.Query as queries;
ghost use Rattle.fc_spec.specs.requests.Request as requests;
ghost use Rattle.fc_spec.specs.requests.Buckets as buckets;
ghost use Rattle.fc_spec.specs.requests.RequestReading.{of_facet, with_node};
ghost use Rattle.fc_spec.specs.replies.Printed.{asked};
ghost use Rattle.fc_spec.specs.replies.Tops as definition;
ghost use Rattle.fc_base.specs.View.{val_view};
ghost use Rattle.fc_facet.specs.KindView.{domain_view, terms_view};
ghost use Rattle.fc_query.specs.QueryView.{query_view};
ghost use Rattle.fc_request.specs.FacetNode.{facet_view};
ghost use Rattle.fc_request.specs.NodeView.{inner_view, node_view, nodes_view};
ghost use Rattle.fc_request.specs.RequestView.{request_view, IsRoot};
ghost use Rattle.fc_request.specs.declared.node.Node.{out-Node};
ghost use Rattle.fc_replaced.specs.ExactParts.{nodes_over, replaced_node};
ghost use Rattle.fc_replaced.specs.TopsView.{tops_view, vals_view};

use crate::lists::{first_list, lists_after};
use crate::request::{exact_terms, is_exact};
use fc_base::{FieldId, Val, WantMemory};
use fc_facet::{Kind, Terms};
use fc_query::{Clause, Need, Query};
use fc_request::{Node, Request, copy_nodes};
use std::alloc::Global;

// What the documents without a value in the field match.
fn without_value(alloc: Global, field: FieldId) -> Result<Query, WantMemory>
    ensures { IfOk result (λ query. query_view query
        ≡ queries.group (queries.clause queries.must_not (queries.has field.0) queries.no_clauses)) }
{
    let mut clauses = Vec::with_capacity(alloc, 1)?;
    clauses.push(Clause {
        need: Need::MustNot,
        query: Query::Has(field),
    })?;
    Ok(Query::Group(clauses))
}

// What the documents with this value in the field match.
fn with_value(alloc: Global, field: FieldId, val: &Val) -> Result<Query, WantMemory>
    ensures { IfOk result (λ query. query_view query ≡ queries.is field.0 (val_view val.now)) }
{
    let val = val.copy(alloc)?;
    Ok(Query::Is(field, val))
}

// A query facet of the same name and domain, with the same nodes nested in it.
fn query_facet(alloc: Global, node: &Node, query: Query) -> Result<Node, WantMemory>
    ensures { IfOk result (λ facet. node_view facet ≡ (
      (out-Node node.now).name,
      of_facet (domain_view (out-Node node.now).domain) (requests.query (query_view query)) (inner_view node.now),
    )) }
{
    let name = node.name.copy(alloc)?;
    let domain = node.domain.copy(alloc)?;
    let nodes = copy_nodes(alloc, &node.nodes)?;
    Ok(Node {
        name,
        domain,
        kind: Kind::Query(query),
        nodes,
    })
}

// Adds a query facet of the same name and domain, with the same nodes nested in it.
fn add_query(
    alloc: Global,
    node: &Node,
    query: Query,
    nodes: &mut Vec<Node>,
) -> Result<(), WantMemory>
    ensures { OnOk result ((more : requests.Nodes) → nodes_over (map node_view nodes.new.items) more
        ≡ nodes_over (map node_view nodes.old.items)
        (requests.facet (record (facet_view node.now) { kind = requests.query (query_view query) }) (inner_view node.now) more)) }
{
    let facet = query_facet(alloc, node, query)?;
    nodes.push(facet)?;
    Ok(())
}

// Adds a query facet for each of the values.
fn add_values(
    alloc: Global,
    node: &Node,
    terms: &Terms,
    vals: &[Val],
    nodes: &mut Vec<Node>,
) -> Result<(), WantMemory>
    ensures { OnOk result ((more : requests.Nodes) → nodes_over (map node_view nodes.new.items) more
        ≡ nodes_over (map node_view nodes.old.items) (definition.key_nodes (facet_view node.now) (terms_view terms.now)
        (inner_view node.now) (map buckets.value (vals_view vals.now)) more)) }
{
    for val in vals {
        let query = with_value(alloc, terms.field, val)?;
        add_query(alloc, node, query, nodes)?;
    }
    Ok(())
}

// Adds a query facet for the documents without a value, where these have a bucket.
fn add_missing(
    alloc: Global,
    node: &Node,
    terms: &Terms,
    nodes: &mut Vec<Node>,
) -> Result<(), WantMemory>
    ensures { OnOk result ((more : requests.Nodes) → nodes_over (map node_view nodes.new.items) more
        ≡ nodes_over (map node_view nodes.old.items) (definition.key_nodes (facet_view node.now) (terms_view terms.now)
        (inner_view node.now) (asked terms.now.missing buckets.missing) more)) }
{
    if !terms.missing {
        return Ok(());
    }
    let query = without_value(alloc, terms.field)?;
    add_query(alloc, node, query, nodes)?;
    Ok(())
}

// Adds a query facet for each of the buckets that an exact facet prints, where these are its top values.
fn add_keys(
    alloc: Global,
    node: &Node,
    terms: &Terms,
    vals: &[Val],
    nodes: &mut Vec<Node>,
) -> Result<(), WantMemory>
    ensures { OnOk result ((more : requests.Nodes) → nodes_over (map node_view nodes.new.items) more
        ≡ nodes_over (map node_view nodes.old.items) (definition.key_nodes (facet_view node.now) (terms_view terms.now)
        (inner_view node.now) (definition.top_keys (terms_view terms.now) (vals_view vals.now)) more)) }
{
    add_values(alloc, node, terms, vals, nodes)?;
    add_missing(alloc, node, terms, nodes)?;
    Ok(())
}

// Adds a node that is the same.
fn add_same(alloc: Global, node: &Node, nodes: &mut Vec<Node>) -> Result<(), WantMemory>
    ensures { OnOk result ((more : requests.Nodes) → nodes_over (map node_view nodes.new.items) more
        ≡ nodes_over (map node_view nodes.old.items) (with_node (node_view node.now).0 (node_view node.now).1 more)) }
{
    let copy = node.copy(alloc)?;
    nodes.push(copy)?;
    Ok(())
}

// Adds what stands in the place of a node: the query facets of an exact facet, else the same node.
fn add_replaced(
    alloc: Global,
    node: &Node,
    vals: &[Val],
    nodes: &mut Vec<Node>,
) -> Result<(), WantMemory>
    ensures { OnOk result ((more : requests.Nodes) → nodes_over (map node_view nodes.new.items) more
        ≡ nodes_over (map node_view nodes.old.items) (replaced_node (node_view node.now) (vals_view vals.now) more)) }
{
    match exact_terms(&node.kind) {
        Some(terms) => add_keys(alloc, node, terms, vals, nodes),
        None => add_same(alloc, node, nodes),
    }
}

// The nodes with query facets in the place of exact ones, with one list of top values for each of these.
fn replaced_nodes(alloc: Global, nodes: &[Node], tops: &[Vec<Val>]) -> Result<Vec<Node>, WantMemory>
    ensures { IfOk result (λ made. nodes_view made.items
        ≡ definition.replaced_nodes (nodes_view nodes.now) (tops_view tops.now)) }
{
    let mut made = Vec::with_capacity(alloc, nodes.len())?;
    let mut left = tops;
    for node in nodes {
        let vals = first_list(left);
        add_replaced(alloc, node, vals, &mut made)?;
        left = lists_after(is_exact(node), left);
    }
    Ok(made)
}

/// The request with query facets in the place of the exact facets of the root: for each exact facet one of its name and
/// domain, with the same nodes nested in it, for each of its top values in their order, and one for the documents without a
/// value where these have a bucket. Each exact facet takes one list of `tops`, in the order of the facets; where there is no
/// list for it, it has no top values.
pub fn replaced(alloc: Global, request: &Request, tops: &[Vec<Val>]) -> Result<Request, WantMemory>
    ensures request { IfOk result (λ made. request_view made
        ≡ definition.replaced (request_view request.now) (tops_view tops.now)) }
    ensures root { IfOk result (λ made. IsRoot made.root) }
{
    let nodes = replaced_nodes(alloc, &request.root.nodes, tops)?;
    let made = request.with_nodes(alloc, nodes)?;
    Ok(made)
}
