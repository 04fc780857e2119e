// What a node says before the nodes nested in it are read.
ghost use Rattle.std.specs.Prelude.{option_map};
ghost use Rattle.serde_json.specs.View.{view, members_view};
ghost use Rattle.fc_base.specs.Answers.{Answers};
ghost use Rattle.fc_facet.specs.FaultView.{fault_view};
ghost use Rattle.fc_facet.specs.KindView.{any_range_view};
ghost use Rattle.std.specs.Prelude.{◌≡◌, ◌<◌, OnOk, map};
ghost use Rattle.fc_spec.specs.requests.RequestWalk.{check_names as check_names_of};
ghost use Rattle.fc_spec.specs.requests.RequestReading as walk;
ghost use Rattle.fc_request.specs.Heads as heads;
ghost use Rattle.fc_request.specs.HeadView.{facet_type_view, head_view, kind_head_view};

use super::spread::number_terms;
use fc_base::json::{is_same, member};
use fc_base::{Refusal, Schema, Stat};
use fc_facet::{AnyRange, DateRange, Domain, QFault, Range, Terms};
use fc_parameters::{
    any_range_in, change_in, check_names, no_change, optional_truth, query_part, required,
    statistic_of, terms_in, text_in, unique_called,
};
use fc_query::Query;
use serde_json::{Map, Value};
use std::alloc::Global;

/// A kind; a terms facet's sort is read behind the nested nodes.
#[derive(Drop)]
pub(crate) enum KindHead<'v> {
    Terms(Terms, Option<&'v Value>),
    /// The number of a field's values.
    Number(Terms),
    Range(Range),
    Query(Query),
    DateRange(DateRange),
}

/// A statistic; or a facet's domain change, its kind and the members of its `facet`.
#[derive(Drop)]
pub(crate) enum Head<'v> {
    Statistic(Stat),
    Facet(Domain, KindHead<'v>, Option<&'v Map<String, Value>>),
}

#[derive(Clone, Copy)]
enum FacetType {
    Terms,
    Range,
    Query,
    Func,
}

// Whether the name is taken by what each bucket has.
fn is_reserved(name: &str) -> bool
    ensures { result ≡ walk.is_reserved name.now }
{
    is_same(name, "count") || is_same(name, "val")
}

// The members of `facet`.
fn inner_members(
    members: &Map<String, Value>,
) -> Result<Option<&Map<String, Value>>, Refusal<QFault>>
    ensures { Answers (λ found. option_map (λ ms. members_view ms.now.entries) found) fault_view result
        (heads.inner_members (members_view members.now.entries)) }
{
    let Some(json) = member(members, "facet") else {
        return Ok(None);
    };
    match json.as_object() {
        Some(inner) => Ok(Some(inner)),
        None => Err(Refusal::Fault(QFault::NotAnObject)),
    }
}

// A facet of this kind.
fn facet_of<'v>(
    alloc: Global,
    schema: &Schema,
    unmoved: bool,
    kind: KindHead<'v>,
    members: &'v Map<String, Value>,
) -> Result<Head<'v>, Refusal<QFault>>
    ensures { Answers head_view fault_view result
        (heads.facet_of schema.now unmoved (kind_head_view kind.entry) (members_view members.now.entries)) }
{
    let domain = change_in(alloc, schema, unmoved, members)?;
    let inner = inner_members(members)?;
    Ok(Head::Facet(domain, kind, inner))
}

fn statistic_head<'v>(schema: &Schema, text: &str) -> Result<Head<'v>, Refusal<QFault>>
    ensures { Answers head_view fault_view result (heads.statistic_before schema.now text.now) }
{
    Ok(Head::Statistic(statistic_of(schema, text)?))
}

// A `unique` of the field of this name.
fn number_head<'v>(alloc: Global, schema: &Schema, name: &[u8]) -> Result<Head<'v>, Refusal<QFault>>
    ensures { Answers head_view fault_view result (heads.number_head schema.now name.now) }
{
    let field = schema.find(name).ok_or(QFault::UnknownField)?;
    let kind = KindHead::Number(number_terms(field));
    Ok(Head::Facet(no_change(alloc), kind, None))
}

// A `unique`, or else a statistic.
fn measure_head<'v>(alloc: Global, schema: &Schema, text: &str) -> Result<Head<'v>, Refusal<QFault>>
    ensures { Answers head_view fault_view result (heads.measure_head schema.now text.now) }
{
    match unique_called(text) {
        Some(name) => number_head(alloc, schema, name),
        None => statistic_head(schema, text),
    }
}

fn func_head<'v>(
    alloc: Global,
    schema: &Schema,
    members: &'v Map<String, Value>,
) -> Result<Head<'v>, Refusal<QFault>>
    ensures { Answers head_view fault_view result (heads.func_head schema.now (members_view members.now.entries)) }
{
    let json = required(members, "func")?;
    let text = text_in(json)?;
    measure_head(alloc, schema, text)
}

fn type_named(name: &str) -> Option<FacetType>
    ensures { option_map facet_type_view result ≡ walk.type_named name.now }
{
    if is_same(name, "terms") {
        Some(FacetType::Terms)
    } else if is_same(name, "range") {
        Some(FacetType::Range)
    } else if is_same(name, "query") {
        Some(FacetType::Query)
    } else if is_same(name, "func") {
        Some(FacetType::Func)
    } else {
        None
    }
}

fn type_in(members: &Map<String, Value>) -> Result<FacetType, Refusal<QFault>>
    ensures { Answers facet_type_view fault_view result (walk.type_of (members_view members.now.entries)) }
{
    let json = required(members, "type")?;
    match json.as_str().and_then(type_named) {
        Some(kind) => Ok(kind),
        None => Err(Refusal::Fault(QFault::UnknownType)),
    }
}

// The fault where a member is none of the type's parameters.
fn check_parameters(kind: FacetType, members: &Map<String, Value>) -> Result<(), Refusal<QFault>>
    ensures { Answers (λ done. done) fault_view result
        (check_names_of (walk.parameters (facet_type_view kind)) (members_view members.now.entries)) }
{
    match kind {
        FacetType::Terms => check_names(
            members,
            &[
                "type",
                "field",
                "offset",
                "limit",
                "mincount",
                "missing",
                "prefix",
                "refine",
                "overrequest",
                "overrefine",
                "method",
                "numBuckets",
                "domain",
                "facet",
                "sort",
            ],
        ),
        FacetType::Range => check_names(
            members,
            &[
                "type", "field", "start", "end", "gap", "hardend", "other", "include", "domain",
                "facet",
            ],
        ),
        FacetType::Query => check_names(members, &["type", "q", "domain", "facet"]),
        FacetType::Func => check_names(members, &["type", "func"]),
    }
}

fn range_head<'v>(range: AnyRange) -> KindHead<'v>
    ensures { kind_head_view result ≡ heads.whole (any_range_view range) }
{
    match range {
        AnyRange::Integers(range) => KindHead::Range(range),
        AnyRange::Dates(range) => KindHead::DateRange(range),
    }
}

fn typed_head<'v>(
    alloc: Global,
    schema: &Schema,
    unmoved: bool,
    kind: FacetType,
    members: &'v Map<String, Value>,
) -> Result<Head<'v>, Refusal<QFault>>
    ensures { Answers head_view fault_view result
        (heads.typed_head (facet_type_view kind) schema.now unmoved (members_view members.now.entries)) }
{
    match kind {
        FacetType::Terms => {
            let terms = terms_in(alloc, schema, members)?;
            let _asked = optional_truth(members, "numBuckets")?;
            let kind = KindHead::Terms(terms, member(members, "sort"));
            facet_of(alloc, schema, unmoved, kind, members)
        }
        FacetType::Range => {
            let range = any_range_in(alloc, schema, members)?;
            facet_of(alloc, schema, unmoved, range_head(range), members)
        }
        FacetType::Query => {
            let query = query_part(alloc, schema, members)?;
            facet_of(alloc, schema, unmoved, KindHead::Query(query), members)
        }
        FacetType::Func => func_head(alloc, schema, members),
    }
}

fn object_head<'v>(
    alloc: Global,
    schema: &Schema,
    unmoved: bool,
    members: &'v Map<String, Value>,
) -> Result<Head<'v>, Refusal<QFault>>
    ensures { Answers head_view fault_view result
        (heads.object_head schema.now unmoved (members_view members.now.entries)) }
{
    let kind = type_in(members)?;
    check_parameters(kind, members)?;
    typed_head(alloc, schema, unmoved, kind, members)
}

// A command: a text is a `unique` or a statistic, an object names its type.
fn command_head<'v>(
    alloc: Global,
    schema: &Schema,
    unmoved: bool,
    json: &'v Value,
) -> Result<Head<'v>, Refusal<QFault>>
    ensures { Answers head_view fault_view result
        (heads.command_head schema.now unmoved (view json.now)) }
{
    match json {
        Value::String(text) => measure_head(alloc, schema, text.as_str()),
        Value::Object(members) => object_head(alloc, schema, unmoved, members),
        _ => Err(Refusal::Fault(QFault::BadCommand)),
    }
}

/// The head of a node, with so many depths left, behind so many nodes of the walk.
pub(crate) fn node_head<'v>(
    alloc: Global,
    schema: &Schema,
    left: u32,
    seen: u32,
    unmoved: bool,
    name: &str,
    json: &'v Value,
) -> Result<Head<'v>, Refusal<QFault>>
    ensures answer { Answers head_view fault_view result
        (heads.node_head left seen schema.now unmoved name.now (view json.now)) }
    ensures left { OnOk result (0 < left) }
    ensures seen { OnOk result (seen < 64) }
{
    if left == 0 || seen >= 64 {
        return Err(Refusal::Fault(QFault::TooLarge));
    }
    if is_reserved(name) {
        return Err(Refusal::Fault(QFault::ReservedName));
    }
    command_head(alloc, schema, unmoved, json)
}
