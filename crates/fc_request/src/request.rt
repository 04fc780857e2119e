// Requests.
ghost use Rattle.std.specs.Prelude.{◌≡◌, [], map, IfOk};
ghost use Rattle.serde_json.specs.View.{view, members_view};
ghost use Rattle.fc_spec.specs.queries.Query.{all};
ghost use Rattle.fc_spec.specs.requests.Request.{query};
ghost use Rattle.fc_spec.specs.requests.DomainReading.{no_change};
ghost use Rattle.fc_spec.specs.requests.RequestReading.{of_facet, own as own_of, request_of};
ghost use Rattle.fc_spec.specs.requests.ValidRequests.{IsValidRequest};
ghost use Rattle.fc_spec.specs.scripts.JsonValues.{HasAscendingKeys, HasNumbers};
ghost use Rattle.fc_base.specs.Answers.{Answers};
ghost use Rattle.fc_query.specs.FilterView.{filter_view};
ghost use Rattle.fc_query.specs.QueryView.{query_view};
ghost use Rattle.fc_facet.specs.FaultView.{fault_view};
ghost use Rattle.fc_request.specs.FaultView.{request_fault_view};
ghost use Rattle.fc_request.specs.Heads as heads;
ghost use Rattle.fc_request.specs.NodeView.{node_view, nodes_view};
ghost use Rattle.fc_request.specs.RequestView.{request_view, IsRoot};

use crate::reading::{node, nodes_in, own};
use crate::{Node, RequestFault};
use fc_base::json::member;
use fc_base::{Refusal, Schema, WantMemory};
use fc_facet::{Kind, QFault};
use fc_parameters::{check_names, filters_in, main_query, no_change, zero_in};
use fc_query::{Filter, Query};
use serde_json::{Map, Value};
use std::alloc::Global;

/// What a search asks.
#[derive(Debug, Drop)]
pub struct Request {
    /// Which documents the root domain holds, where they match each filter too.
    pub query: Query,
    pub filters: Vec<Filter>,
    /// The outermost nodes, inside a node of an empty name that changes no domain and has every document.
    pub root: Node,
}

impl Request {
    /// Reads an object of `query`, `filter`, `limit` and `facet`, each of which may be absent. The first fault counts,
    /// with the names of the facets from the outermost to the one at fault: members that are not known before those that
    /// are; then the query, the filters in their order, the limit, and the facets in the byte order of their names, each
    /// with all that is nested in it. A `unique`, and the number that `numBuckets` asks for, are nodes of their own, which show
    /// it; such a node behind a facet is not counted where nodes are at most 64. (Guide: JSON Request API; JSON Facet API)
    pub fn read(
        alloc: Global,
        schema: &Schema,
        json: &Value,
    ) -> Result<Request, Refusal<RequestFault>>
        ensures answer { Answers request_view request_fault_view result
            (request_of schema.now (view json.now)) }
        ensures root { IfOk result (λ request. IsRoot request.root) }
        // of JSON that a text spells
        ensures valid { IfOk result (λ request.
            HasNumbers (view json.now) → HasAscendingKeys (view json.now) →
            IsValidRequest schema.now (request_view request)) }
    {
        match json.as_object() {
            Some(members) => read_members(alloc, schema, members),
            None => Err(Refusal::Fault(own(alloc, QFault::NotAnObject))),
        }
    }
}

// The query and the filters of a request, whose members are known, and which asks for no documents.
fn request_head(
    alloc: Global,
    schema: &Schema,
    members: &Map<String, Value>,
) -> Result<(Query, Vec<Filter>), Refusal<QFault>>
    ensures { Answers (λ parts. (query_view parts.0, map filter_view parts.1.items)) fault_view result
        (heads.request_head schema.now (members_view members.now.entries)) }
{
    check_names(members, &["query", "filter", "limit", "facet"])?;
    let query = main_query(alloc, schema, member(members, "query"))?;
    let filters = filters_in(alloc, schema, member(members, "filter"))?;
    zero_in(member(members, "limit"))?;
    Ok((query, filters))
}

// The same, a fault of which is outside facets.
fn head_in(
    alloc: Global,
    schema: &Schema,
    members: &Map<String, Value>,
) -> Result<(Query, Vec<Filter>), Refusal<RequestFault>>
    ensures { Answers (λ parts. (query_view parts.0, map filter_view parts.1.items)) request_fault_view result
        (own_of (heads.request_head schema.now (members_view members.now.entries))) }
{
    match request_head(alloc, schema, members) {
        Ok(parts) => Ok(parts),
        Err(Refusal::Memory) => Err(Refusal::Memory),
        Err(Refusal::Fault(fault)) => Err(Refusal::Fault(own(alloc, fault))),
    }
}

// The node around the outermost ones.
pub(crate) fn root(alloc: Global, nodes: Vec<Node>) -> Result<Node, WantMemory>
    ensures { IfOk result (λ root.
        node_view root ≡ ([], of_facet no_change (query all) (nodes_view nodes.items))) }
{
    node(alloc, "", no_change(alloc), Kind::Query(Query::All), nodes)
}

fn read_members(
    alloc: Global,
    schema: &Schema,
    members: &Map<String, Value>,
) -> Result<Request, Refusal<RequestFault>>
    ensures answer { Answers request_view request_fault_view result
        (heads.request_parts schema.now (members_view members.now.entries)) }
    ensures root { IfOk result (λ request. IsRoot request.root) }
{
    let (query, filters) = head_in(alloc, schema, members)?;
    let nodes = nodes_in(alloc, schema, members)?;
    let root = root(alloc, nodes)?;
    Ok(Request {
        query,
        filters,
        root,
    })
}
