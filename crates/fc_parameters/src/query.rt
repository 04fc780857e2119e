// Queries of texts.
ghost use Rattle.std.specs.Prelude.{option_map};
ghost use Rattle.serde_json.specs.View.{view, members_view};
ghost use Rattle.fc_spec.specs.queries.Query.{all};
ghost use Rattle.fc_spec.specs.requests.DomainReading as reading;
ghost use Rattle.fc_spec.specs.requests.FacetReading as facet;
ghost use Rattle.fc_spec.specs.requests.Request as definition;
ghost use Rattle.fc_spec.specs.requests.RequestWalk.{said_or};
ghost use Rattle.fc_base.specs.Answers.{Answers};
ghost use Rattle.fc_query.specs.QueryView.{query_view};
ghost use Rattle.fc_facet.specs.FaultView.{fault_view};

use crate::words::{required, text_in};
use fc_base::{Refusal, Schema};
use fc_facet::QFault;
use fc_query::{Query, parse};
use serde_json::{Map, Value};
use std::alloc::Global;

/// The query of a text.
pub(crate) fn query_in(alloc: Global, schema: &Schema, text: &str) -> Result<Query, Refusal<QFault>>
    ensures { Answers query_view fault_view result (reading.query_in schema.now text.now) }
{
    match parse(alloc, schema, text) {
        Ok(query) => Ok(query),
        Err(Refusal::Memory) => Err(Refusal::Memory),
        Err(Refusal::Fault(fault)) => Err(Refusal::Fault(QFault::from(fault))),
    }
}

/// The query of a value that has to be a text.
pub(crate) fn text_query(
    alloc: Global,
    schema: &Schema,
    json: &Value,
) -> Result<Query, Refusal<QFault>>
    ensures { Answers query_view fault_view result (reading.text_query schema.now (view json.now)) }
{
    let text = text_in(json)?;
    query_in(alloc, schema, text)
}

/// The query of a request; every document where none is named.
pub fn main_query(
    alloc: Global,
    schema: &Schema,
    json: Option<&Value>,
) -> Result<Query, Refusal<QFault>>
    ensures { Answers query_view fault_view result
        (said_or (reading.text_query schema.now) all (option_map (λ json. view json.now) json.entry)) }
{
    match json {
        Some(json) => text_query(alloc, schema, json),
        None => Ok(Query::All),
    }
}

/// The query of a query facet. (Guide: JSON Facet API, "Query Facet")
pub fn query_part(
    alloc: Global,
    schema: &Schema,
    members: &Map<String, Value>,
) -> Result<Query, Refusal<QFault>>
    ensures { Answers (λ query. definition.query (query_view query)) fault_view result
        (facet.query_part schema.now (members_view members.now.entries)) }
{
    let json = required(members, "q")?;
    text_query(alloc, schema, json)
}
