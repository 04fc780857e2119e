// The parameters of a terms facet.
ghost use Rattle.std.specs.Prelude.{◌≡◌, ◌<◌, ◌≤ℤ◌, [], None, codes, pos, length, unsigned_abs, IfOk};
ghost use Rattle.serde_json.specs.Find.{get_member};
ghost use Rattle.serde_json.specs.View.{view, members_view};
ghost use Rattle.fc_spec.specs.requests.FacetReading as reading;
ghost use Rattle.fc_spec.specs.requests.RequestWalk as walk;
ghost use Rattle.fc_base.specs.Answers.{Answers};
ghost use Rattle.fc_facet.specs.FaultView.{fault_view};
ghost use Rattle.fc_facet.specs.KindView.{terms_view};

use crate::fields::{field_in, holds_texts};
use crate::refining::refining_in;
use crate::words::{optional_truth, required, text_in, whole_in};
use fc_base::json::member;
use fc_base::{FieldId, Name, Refusal, Schema};
use fc_facet::{QFault, Show, Sort, SortKey, Terms};
use serde_json::{Map, Value};
use std::alloc::Global;

// A whole number from this one to a million; this other one where the member is absent.
fn number_in(
    members: &Map<String, Value>,
    name: &str,
    low: i64,
    absent: i64,
) -> Result<i64, Refusal<QFault>>
    requires low { low ≤ℤ absent }
    requires high { absent ≤ℤ pos 1_000_000 }
    ensures answer { Answers (λ number. number) fault_view result
        (walk.said_or (reading.up_to_a_million low) absent
        (get_member name.now (members_view members.now.entries))) }
    ensures low { IfOk result (λ number. low ≤ℤ number) }
    ensures high { IfOk result (λ number. number ≤ℤ pos 1_000_000) }
{
    match member(members, name) {
        Some(json) => whole_in(json, low, 1_000_000),
        None => Ok(absent),
    }
}

// A whole number from this one to a million, and this one where the member is absent.
fn count_in(members: &Map<String, Value>, name: &str, low: u32) -> Result<u32, Refusal<QFault>>
    requires { low < 2 }
    ensures { Answers (λ number. pos number) fault_view result
        (walk.said_or (reading.up_to_a_million (pos low)) (pos low)
        (get_member name.now (members_view members.now.entries))) }
{
    let number = number_in(members, name, i64::from(low), i64::from(low))?;
    Ok(number as u32)
}

// All for -1.
fn limit_from(number: i64) -> Option<u32>
    requires { number ≤ℤ pos 1_000_000 }
    ensures { result ≡ reading.limit_from number }
{
    if number < 0 {
        None
    } else {
        Some(number as u32)
    }
}

// A tenth of the limit and 4 for -1; 0 without a limit.
fn over_number(limit: Option<u32>, number: i64) -> u32
    requires { number ≤ℤ pos 1_000_000 }
    ensures { result ≡ reading.over_number limit number }
{
    match limit {
        None => 0,
        Some(_) if number >= 0 => number as u32,
        Some(limit) => limit / 10 + 4,
    }
}

// A text, where the field holds texts.
fn prefix_in(
    alloc: Global,
    schema: &Schema,
    field: FieldId,
    members: &Map<String, Value>,
) -> Result<Option<Name>, Refusal<QFault>>
    requires { field.0 < length schema.now.fields }
    ensures { Answers (λ prefix. prefix) fault_view result
        (walk.said_or (reading.prefix_in schema.now field.0) None
        (get_member (codes "prefix") (members_view members.now.entries))) }
{
    let Some(json) = member(members, "prefix") else {
        return Ok(None);
    };
    let text = text_in(json)?;
    if !holds_texts(schema, field) {
        return Err(Refusal::Fault(QFault::WrongFieldType));
    }
    Ok(Some(Name::new(alloc, text)?))
}

// A text that says nothing here.
fn method_in(members: &Map<String, Value>) -> Result<&str, Refusal<QFault>>
    ensures { Answers (λ text. text.now) fault_view result
        (walk.said_or walk.text_in [] (get_member (codes "method") (members_view members.now.entries))) }
{
    match member(members, "method") {
        Some(json) => text_in(json),
        None => Ok(""),
    }
}

/// What a terms facet says, in the order of the guide's parameters; its sort, which is read behind the
/// facets nested in it, is by count. (Guide: JSON Facet API, "Terms Facet")
pub fn terms_in(
    alloc: Global,
    schema: &Schema,
    members: &Map<String, Value>,
) -> Result<Terms, Refusal<QFault>>
    ensures { Answers terms_view fault_view result
        (reading.terms_parts schema.now (members_view members.now.entries)) }
{
    let named = required(members, "field")?;
    let field = field_in(schema, named)?;
    let offset = count_in(members, "offset", 0)?;
    let limit = number_in(members, "limit", -1, 10)?;
    let mincount = count_in(members, "mincount", 1)?;
    let missing = optional_truth(members, "missing")?;
    let prefix = prefix_in(alloc, schema, field, members)?;
    let refining = refining_in(members)?;
    let overrequest = number_in(members, "overrequest", -1, -1)?;
    let overrefine = number_in(members, "overrefine", -1, -1)?;
    let _method = method_in(members)?;
    let limit = limit_from(limit);
    Ok(Terms {
        field,
        offset,
        limit,
        sort: Sort {
            by: SortKey::Count,
            descending: true,
        },
        mincount,
        missing,
        prefix,
        refine: refining.refines(),
        exact: refining.is_exactly(),
        overrequest: over_number(limit, overrequest),
        overrefine: over_number(limit, overrefine),
        show: Show::Buckets,
    })
}
