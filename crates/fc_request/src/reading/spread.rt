// Facets that show numbers: of a field's values, and of a facet's buckets beside them.
ghost use Rattle.std.specs.Prelude.{◌≡◌, ◌++◌, ◌+◌, ◌≤◌, List, Option, length, map, IfOk, option_map};
ghost use Rattle.std.specs.Option.{option_to_list};
ghost use Rattle.serde_json.specs.View.{view};
ghost use Rattle.fc_spec.specs.requests.RequestReading as walk;
ghost use Rattle.fc_spec.specs.requests.Spread as spread;
ghost use Rattle.fc_facet.specs.KindView.{domain_view, show_view, terms_view};
ghost use Rattle.fc_request.specs.Beside.{numbers_behind, shown_beside, with_numbers};
ghost use Rattle.fc_request.specs.NodeView.{node_view};

use crate::Node;
use fc_base::json::member;
use fc_base::{FieldId, Name, WantMemory};
use fc_facet::{Domain, Kind, Show, Sort, SortKey, Terms};
use serde_json::Value;
use std::alloc::Global;

// The values of a field that begin with the prefix and have the count.
fn values_of(field: FieldId, mincount: u32, prefix: Option<Name>, show: Show) -> Terms
    ensures { terms_view result
        ≡ record (spread.number_terms field.0) { mincount = mincount; prefix = prefix; show = show_view show } }
{
    Terms {
        field,
        offset: 0,
        limit: None,
        sort: Sort {
            by: SortKey::Index,
            descending: false,
        },
        mincount,
        missing: false,
        prefix,
        refine: false,
        exact: false,
        overrequest: 0,
        overrefine: 0,
        show,
    }
}

/// Every value of the field.
pub(crate) fn number_terms(field: FieldId) -> Terms
    ensures { terms_view result ≡ spread.number_terms field.0 }
{
    values_of(field, 1, None, Show::Number)
}

// The values that have a bucket in the facet.
fn beside_terms(alloc: Global, terms: &Terms) -> Result<Terms, WantMemory>
    ensures { IfOk result (λ beside. terms_view beside ≡ spread.beside_terms (terms_view terms.now)) }
{
    let copy = terms.copy(alloc)?;
    Ok(values_of(copy.field, copy.mincount, copy.prefix, Show::Beside))
}

fn is_true(json: Option<&Value>) -> bool
    ensures { result ≡ walk.is_true (option_map (λ json. view json.now) json.entry) }
{
    match json {
        Some(json) => matches!(json, Value::Bool(true)),
        None => false,
    }
}

/// Whether a command asks for the number of its facet's buckets.
pub(crate) fn asks_number(json: &Value) -> bool
    ensures { result ≡ walk.asks_number (view json.now) }
{
    match json {
        Value::Object(members) => is_true(member(members, "numBuckets")),
        _ => false,
    }
}

// The facet that shows the number of these buckets beside them.
fn shown_beside(
    alloc: Global,
    name: &Name,
    domain: &Domain,
    terms: &Terms,
) -> Result<Option<Node>, WantMemory>
    ensures { IfOk result (λ beside. map node_view (option_to_list beside)
        ≡ shown_beside (show_view terms.now.show) name.now (domain_view domain.now) (terms_view terms.now)) }
{
    match terms.show {
        Show::Buckets => Ok(Some(Node {
            name: name.copy(alloc)?,
            domain: domain.copy(alloc)?,
            kind: Kind::Terms(beside_terms(alloc, terms)?),
            nodes: Vec::new(alloc),
        })),
        Show::Number | Show::Beside => Ok(None),
    }
}

// What stands behind a node, where its number is asked for.
fn number_behind(alloc: Global, node: &Node, asked: bool) -> Result<Option<Node>, WantMemory>
    ensures { IfOk result (λ beside. map node_view (option_to_list beside)
        ≡ numbers_behind asked (node_view node.now).0 (node_view node.now).1) }
{
    if !asked {
        return Ok(None);
    }
    match &node.kind {
        Kind::Terms(terms) => shown_beside(alloc, &node.name, &node.domain, terms),
        _ => Ok(None),
    }
}

// The node at the end, where there is one.
fn push_some(nodes: &mut Vec<Node>, node: Option<Node>) -> Result<(), WantMemory>
    ensures { IfOk result (λ _. nodes.new.items ≡ nodes.old.items ++ option_to_list node) }
{
    match node {
        Some(node) => Ok(nodes.push(node)?),
        None => Ok(()),
    }
}

/// The node at the end, and behind it the facet that shows its number, where that is asked for.
pub(crate) fn push_with_number(
    alloc: Global,
    nodes: &mut Vec<Node>,
    node: Node,
    asked: bool,
) -> Result<(), WantMemory>
    ensures read { IfOk result (λ _.
        map node_view nodes.new.items ≡ map node_view nodes.old.items ++ with_numbers asked (node_view node)) }
    ensures few { IfOk result (λ _. length nodes.new.items ≤ length nodes.old.items + 2) }
{
    let beside = number_behind(alloc, &node, asked)?;
    nodes.push(node)?;
    push_some(nodes, beside)
}
