// Nodes, one behind another, each with those nested in it.
ghost use Rattle.std.specs.Prelude.{◌+◌, ◌*◌, ◌≤◌, length, ◌≡◌, ◌<◌, ◌&&◌, [], false, IfOk, MatchResult, OnOk, option_map};
ghost use Rattle.std.specs.Result.{ForOk};
ghost use Rattle.serde_json.specs.View.{view, members_view};
ghost use Rattle.fc_spec.specs.requests.Request as definition;
ghost use Rattle.fc_spec.specs.requests.Request.{stay};
ghost use Rattle.fc_spec.specs.requests.Shape.{stays};
ghost use Rattle.fc_spec.specs.requests.RequestWalk.{inside as inside_of, outside};
ghost use Rattle.fc_spec.specs.requests.RequestReading as walk;
ghost use Rattle.fc_base.specs.Answers.{Answers};
ghost use Rattle.fc_base.specs.StatisticView.{stat_view};
ghost use Rattle.fc_facet.specs.FaultView.{fault_view};
ghost use Rattle.fc_request.specs.FaultView.{request_fault_view};
ghost use Rattle.fc_request.specs.HeadView.{head_view, kind_head_view};
ghost use Rattle.fc_request.specs.Heads as heads;
ghost use Rattle.fc_facet.specs.KindView.{domain_view, terms_view};
ghost use Rattle.fc_request.specs.NodeView.{node_of, node_view, nodes_view};

use super::head::{Head, KindHead, node_head};
use super::sort::{allows_exact, sort_in};
use super::spread::{asks_number, push_with_number};
use crate::{Node, RequestFault};
use fc_base::json::member;
use fc_base::{Name, Refusal, Schema, Stat, WantMemory};
use fc_facet::{Domain, Kind, QFault, Terms};
use fc_parameters::no_change;
use serde_json::{Map, Value};
use std::alloc::Global;

// A fault outside the facets around it.
pub(crate) fn own(alloc: Global, fault: QFault) -> RequestFault
    ensures { request_fault_view result ≡ outside (fault_view fault) }
{
    RequestFault {
        at: Vec::new(alloc),
        fault,
    }
}

// The fault inside the facet of this name.
fn inside(alloc: Global, name: &str, mut fault: RequestFault) -> Result<RequestFault, WantMemory>
    ensures { IfOk result (λ around.
        request_fault_view around ≡ inside_of name.now (request_fault_view fault)) }
{
    let name = Name::new(alloc, name)?;
    fault.at.insert(0, name)?;
    Ok(fault)
}

pub(crate) fn node(
    alloc: Global,
    name: &str,
    domain: Domain,
    kind: Kind,
    nodes: Vec<Node>,
) -> Result<Node, WantMemory>
    ensures { IfOk result (λ node.
        node_view node ≡ (name.now, node_of (domain_view domain) kind (nodes_view nodes.items))) }
{
    Ok(Node {
        name: Name::new(alloc, name)?,
        domain,
        kind,
        nodes,
    })
}

// The terms facet, outermost or nested, by its sort.
fn sorted(
    outermost: bool,
    mut terms: Terms,
    nodes: &[Node],
    sort: Option<&Value>,
) -> Result<Terms, Refusal<QFault>>
    requires { length nodes.now ≤ 128 }
    ensures { Answers (λ terms. definition.terms (terms_view terms)) fault_view result
        (heads.kind_behind outermost (heads.unsorted (terms_view terms) (option_map (λ json. view json.now) sort.entry)) (nodes_view nodes.now)) }
{
    let sort = sort_in(nodes, sort)?;
    if !allows_exact(outermost, terms.exact, sort) {
        return Err(Refusal::Fault(QFault::BadParameter));
    }
    terms.sort = sort;
    Ok(terms)
}

// A facet, outermost or nested, behind the nodes nested in it.
fn facet_node(
    alloc: Global,
    outermost: bool,
    name: &str,
    domain: Domain,
    kind: KindHead<'_>,
    nodes: Vec<Node>,
) -> Result<Node, Refusal<QFault>>
    requires { length nodes.items ≤ 128 }
    ensures { Answers node_view fault_view result
        (heads.facet_behind outermost name.now (domain_view domain) (kind_head_view kind.entry) (nodes_view nodes.items)) }
{
    match kind {
        KindHead::Terms(terms, sort) => {
            let terms = sorted(outermost, terms, &nodes, sort)?;
            Ok(node(alloc, name, domain, Kind::Terms(terms), nodes)?)
        }
        KindHead::Number(terms) => Ok(node(alloc, name, domain, Kind::Terms(terms), nodes)?),
        KindHead::Range(range) => Ok(node(alloc, name, domain, Kind::Range(range), nodes)?),
        KindHead::Query(query) => Ok(node(alloc, name, domain, Kind::Query(query), nodes)?),
        KindHead::DateRange(range) => {
            Ok(node(alloc, name, domain, Kind::DateRange(range), nodes)?)
        }
    }
}

// A statistic.
fn statistic_node(alloc: Global, name: &str, stat: Stat) -> Result<Node, WantMemory>
    ensures { IfOk result (λ node. node_view node ≡ (name.now, walk.of_statistic (stat_view stat))) }
{
    node(
        alloc,
        name,
        no_change(alloc),
        Kind::Stat(stat),
        Vec::new(alloc),
    )
}

// The head of a node, a fault of which is its own.
fn head_in<'v>(
    alloc: Global,
    schema: &Schema,
    left: u32,
    seen: u32,
    unmoved: bool,
    name: &str,
    json: &'v Value,
) -> Result<Head<'v>, Refusal<RequestFault>>
    ensures answer { Answers head_view request_fault_view result
        (walk.own (heads.node_head left seen schema.now unmoved name.now (view json.now))) }
    ensures left { OnOk result (0 < left) }
    ensures seen { OnOk result (seen < 64) }
{
    match node_head(alloc, schema, left, seen, unmoved, name, json) {
        Ok(head) => Ok(head),
        Err(Refusal::Memory) => Err(Refusal::Memory),
        Err(Refusal::Fault(fault)) => Err(Refusal::Fault(own(alloc, fault))),
    }
}

// A facet, behind the nodes nested in it, a fault of which is its own.
fn facet_in(
    alloc: Global,
    outermost: bool,
    name: &str,
    domain: Domain,
    kind: KindHead<'_>,
    nodes: Vec<Node>,
) -> Result<Node, Refusal<RequestFault>>
    requires { length nodes.items ≤ 128 }
    ensures { Answers node_view request_fault_view result
        (walk.own (heads.facet_behind outermost name.now (domain_view domain) (kind_head_view kind.entry) (nodes_view nodes.items))) }
{
    match facet_node(alloc, outermost, name, domain, kind, nodes) {
        Ok(node) => Ok(node),
        Err(Refusal::Memory) => Err(Refusal::Memory),
        Err(Refusal::Fault(fault)) => Err(Refusal::Fault(own(alloc, fault))),
    }
}

// The same, where the nested nodes were read.
fn facet_with(
    alloc: Global,
    outermost: bool,
    name: &str,
    domain: Domain,
    kind: KindHead<'_>,
    nodes: Result<Vec<Node>, Refusal<RequestFault>>,
) -> Result<Node, Refusal<RequestFault>>
    requires { ForOk nodes (λ nodes. length nodes.items ≤ 128) }
    ensures { MatchResult nodes
        (λ nodes. Answers node_view request_fault_view result
        (walk.own (heads.facet_behind outermost name.now (domain_view domain) (kind_head_view kind.entry) (nodes_view nodes.items))))
        (λ refusal. result ≡ Err refusal) }
{
    match nodes {
        Ok(nodes) => facet_in(alloc, outermost, name, domain, kind, nodes),
        Err(refusal) => Err(refusal),
    }
}

// Whether no facet around the nodes nested in one with this domain has a block step.
fn is_unmoved_under(unmoved: bool, domain: &Domain) -> bool
    ensures { result ≡ (unmoved && stays (domain_view domain.now)) }
{
    unmoved && domain.stays()
}

// A node with so many depths left, which counts itself and those nested in it.
#[cycle(nodes)]
fn read_node(
    alloc: Global,
    schema: &Schema,
    left: u32,
    seen: &mut u32,
    outermost: bool,
    unmoved: bool,
    name: &str,
    json: &Value,
) -> Result<Node, Refusal<RequestFault>>
    requires { seen.old ≤ 64 }
    ensures answer { Answers (λ node. heads.walked (node_view node).1 seen.new) request_fault_view result
        (heads.node_within left schema.now outermost unmoved seen.old name.now (view json.now)) }
    ensures name { IfOk result (λ node. (node_view node).0 ≡ name.now) }
    ensures counted { OnOk result (seen.old < seen.new) }
    ensures rises { seen.old ≤ seen.new }
    ensures few { seen.new ≤ 64 }
{
    match head_in(alloc, schema, left, *seen, unmoved, name, json) {
        Ok(Head::Statistic(stat)) => {
            *seen += 1;
            Ok(statistic_node(alloc, name, stat)?)
        }
        Ok(Head::Facet(domain, kind, inner)) => {
            *seen += 1;
            let unmoved = is_unmoved_under(unmoved, &domain);
            let nodes = inner_nodes(alloc, schema, left - 1, seen, unmoved, inner);
            facet_with(alloc, outermost, name, domain, kind, nodes)
        }
        Err(refusal) => Err(refusal),
    }
}

// The nodes nested in a facet.
#[cycle(nodes)]
fn inner_nodes(
    alloc: Global,
    schema: &Schema,
    left: u32,
    seen: &mut u32,
    unmoved: bool,
    members: Option<&Map<String, Value>>,
) -> Result<Vec<Node>, Refusal<RequestFault>>
    requires { seen.old ≤ 64 }
    ensures answer { Answers (λ nodes. heads.walked (nodes_view nodes.items) seen.new) request_fault_view result
        (heads.inner_nodes (walk.nodes_within left schema.now false unmoved) seen.old
        (option_map (λ ms. members_view ms.now.entries) members.entry)) }
    ensures counted { IfOk result (λ nodes. length nodes.items + 2 * seen.old ≤ 2 * seen.new) }
    ensures rises { seen.old ≤ seen.new }
    ensures few { seen.new ≤ 64 }
{
    match members {
        Some(members) => read_nodes(alloc, schema, left, seen, false, unmoved, members),
        None => Ok(Vec::new(alloc)),
    }
}

/// The members of an object as nodes, in the byte order of their names, with so many depths left, outermost or nested;
/// `seen` counts the nodes of the walk.
#[cycle(nodes)]
pub(crate) fn read_nodes(
    alloc: Global,
    schema: &Schema,
    left: u32,
    seen: &mut u32,
    outermost: bool,
    unmoved: bool,
    members: &Map<String, Value>,
) -> Result<Vec<Node>, Refusal<RequestFault>>
    requires { seen.old ≤ 64 }
    ensures answer { Answers (λ nodes. heads.walked (nodes_view nodes.items) seen.new) request_fault_view result
        (walk.nodes_within left schema.now outermost unmoved seen.old (members_view members.now.entries)) }
    ensures counted { IfOk result (λ nodes. length nodes.items + 2 * seen.old ≤ 2 * seen.new) }
    ensures rises { seen.old ≤ seen.new }
    ensures few { seen.new ≤ 64 }
{
    let mut nodes = Vec::new(alloc);
    for (name, json) in members {
        let name = name.as_str();
        match read_node(alloc, schema, left, seen, outermost, unmoved, name, json) {
            Ok(node) => push_with_number(alloc, &mut nodes, node, asks_number(json))?,
            Err(Refusal::Memory) => return Err(Refusal::Memory),
            Err(Refusal::Fault(fault)) => {
                return Err(Refusal::Fault(inside(alloc, name, fault)?));
            }
        }
    }
    Ok(nodes)
}

/// The outermost nodes of a request.
pub(crate) fn nodes_in(
    alloc: Global,
    schema: &Schema,
    members: &Map<String, Value>,
) -> Result<Vec<Node>, Refusal<RequestFault>>
    ensures { Answers (λ nodes. nodes_view nodes.items) request_fault_view result
        (heads.outermost_nodes schema.now (members_view members.now.entries)) }
{
    let Some(json) = member(members, "facet") else {
        return Ok(Vec::new(alloc));
    };
    let Some(facets) = json.as_object() else {
        return Err(Refusal::Fault(own(alloc, QFault::NotAnObject)));
    };
    let mut seen = 0;
    read_nodes(alloc, schema, 8, &mut seen, true, true, facets)
}
