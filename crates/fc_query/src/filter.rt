// Filters and their tags.
ghost use Rattle.std.specs.Prelude.{◌≡◌, ◌==◌, IfOk, map, option_map};
ghost use Rattle.std.specs.List.{list_all, list_any, slice_split};
ghost use Rattle.serde_json.specs.View.{view};
ghost use Rattle.fc_spec.specs.documents.Val.{same_text};
ghost use Rattle.fc_spec.specs.queries.FilterReading as reading;
ghost use Rattle.fc_spec.specs.requests.Base as bases;
ghost use Rattle.fc_spec.specs.scripts.JsonObjects as objects;
ghost use Rattle.fc_spec.specs.queries.ValidQueries.{IsValidQuery};
ghost use Rattle.fc_base.specs.Answers.{Answers};
ghost use Rattle.fc_query.specs.FilterView.{filter_fault_view, filter_view, Tagged};
ghost use Rattle.fc_query.specs.QueryView.{query_view};

use crate::{FilterFault, Query, QueryFault, parse};
use fc_base::json::sole_member;
use fc_base::{Name, Refusal, Schema, WantMemory, is_name_byte};
use serde_json::Value;
use std::alloc::{AllocError, Global};

/// A query that keeps documents, and the tags by which facets can leave it out, in their order.
/// (Guide: Faceting, "Tagging and Excluding Filters")
#[derive(Debug, Drop, PartialEq, Eq)]
pub struct Filter {
    pub tags: Vec<Name>,
    pub query: Query,
}

impl Filter {
    /// Whether the filter has one of the tags.
    pub fn has_tag_in(&self, tags: &[Name]) -> bool
        ensures { result ≡ bases.has_tag_in tags.now (filter_view self.now) }
    {
        for tag in &self.tags {
            if has_tag(tag, tags) {
                return true;
            }
        }
        false
    }
}

fn has_tag(tag: &Name, tags: &[Name]) -> bool
    ensures { result ≡ list_any (same_text tag.now) tags.now }
{
    for other in tags {
        if tag.cmp(other).is_eq() {
            return true;
        }
    }
    false
}

fn is_tag_byte(byte: u8) -> bool
    ensures { result ≡ reading.is_tag_byte byte }
{
    is_name_byte(byte) || byte == b'-' || byte == b'.'
}

fn are_tag_bytes(text: &[u8]) -> bool
    ensures { result ≡ list_all reading.is_tag_byte text.now }
{
    text.iter().all(|byte| is_tag_byte(*byte))
}

fn is_tag(text: &str) -> bool
    ensures { result ≡ reading.is_tag text.now }
{
    !text.is_empty() && are_tag_bytes(text.as_bytes())
}

/// What stands between the commas of a text, in its order.
pub fn parts_of(alloc: Global, list: &str) -> Result<Vec<&str>, AllocError>
    ensures { IfOk result (λ parts. map (λ x. x.now) parts.items ≡ slice_split (λ b. b == 44) list.now) }
{
    list.split(',').collect(alloc)
}

/// Each text is a tag: one or more ASCII letters, digits, `_`, `-` and `.`.
pub fn are_tags(parts: &[&str]) -> bool
    ensures { result ≡ list_all reading.is_tag (map (λ x. x.now) parts.now) }
{
    for part in parts {
        if !is_tag(part) {
            return false;
        }
    }
    true
}

/// A name of each text, in their order.
pub fn names_of(alloc: Global, parts: &[&str]) -> Result<Vec<Name>, WantMemory>
    ensures { IfOk result (λ names. names.items ≡ map (λ x. x.now) parts.now) }
{
    let mut names = Vec::new(alloc);
    for part in parts {
        names.push(Name::new(alloc, part)?)?;
    }
    Ok(names)
}

// The tags between the commas of a text.
#[tactic(auto, unfolding(fc_spec::specs::queries::FilterReading::tags_of))]
fn tags_of(alloc: Global, list: &str) -> Result<Vec<Name>, Refusal<FilterFault>>
    ensures { Tagged result (reading.tags_of list.now) }
{
    let parts = parts_of(alloc, list)?;
    if !are_tags(&parts) {
        return Err(Refusal::Fault(FilterFault::Query(QueryFault::Syntax)));
    }
    Ok(names_of(alloc, &parts)?)
}

// What is behind this front, where it stands.
fn past_front<'a>(text: &'a str, front: &str) -> Option<&'a str>
    ensures { option_map (λ x. x.now) result ≡ reading.past_front front.now text.now }
{
    text.strip_prefix(front)
}

// What stands before the first `}`, and what behind it.
fn cut_at_brace(text: &str) -> Option<(&str, &str)>
    ensures { option_map (λ x. (x.0.now, x.1.now)) result ≡ reading.cut_at 125 text.now }
{
    text.split_once('}')
}

// These tags before a query text.
fn with_query(
    alloc: Global,
    schema: &Schema,
    tags: Vec<Name>,
    text: &str,
) -> Result<Filter, Refusal<FilterFault>>
    ensures answer { Answers filter_view filter_fault_view result
        (reading.filter_by schema.now (Ok (tags.items, text.now))) }
    ensures valid { IfOk result (λ filter. IsValidQuery schema.now (query_view filter.query)) }
{
    match parse(alloc, schema, text) {
        Ok(query) => Ok(Filter { tags, query }),
        Err(Refusal::Memory) => Err(Refusal::Memory),
        Err(Refusal::Fault(fault)) => Err(Refusal::Fault(FilterFault::Query(fault))),
    }
}

// The tags of a list before a query text.
fn tagged(
    alloc: Global,
    schema: &Schema,
    list: &str,
    text: &str,
) -> Result<Filter, Refusal<FilterFault>>
    ensures answer { Answers filter_view filter_fault_view result
        (reading.filter_by schema.now (reading.tagged list.now text.now)) }
    ensures valid { IfOk result (λ filter. IsValidQuery schema.now (query_view filter.query)) }
{
    let tags = tags_of(alloc, list)?;
    with_query(alloc, schema, tags, text)
}

// Behind `{!tag=`.
#[tactic(auto, unfolding(fc_spec::specs::queries::FilterReading::local_tags))]
fn local_filter(alloc: Global, schema: &Schema, text: &str) -> Result<Filter, Refusal<FilterFault>>
    ensures answer { Answers filter_view filter_fault_view result
        (reading.filter_by schema.now (reading.local_tags text.now)) }
    ensures valid { IfOk result (λ filter. IsValidQuery schema.now (query_view filter.query)) }
{
    match cut_at_brace(text) {
        Some((list, text)) => tagged(alloc, schema, list, text),
        None => Err(Refusal::Fault(FilterFault::Query(QueryFault::Syntax))),
    }
}

#[tactic(auto, unfolding(fc_spec::specs::queries::FilterReading::text_filter))]
fn text_filter(alloc: Global, schema: &Schema, text: &str) -> Result<Filter, Refusal<FilterFault>>
    ensures answer { Answers filter_view filter_fault_view result
        (reading.filter_by schema.now (reading.text_filter text.now)) }
    ensures valid { IfOk result (λ filter. IsValidQuery schema.now (query_view filter.query)) }
{
    match past_front(text, "{!tag=") {
        Some(left) => local_filter(alloc, schema, left),
        None => with_query(alloc, schema, Vec::new(alloc), text),
    }
}

#[tactic(auto, unfolding(fc_spec::specs::queries::FilterReading::member_filter))]
fn member_filter(
    alloc: Global,
    schema: &Schema,
    key: &str,
    text: &str,
) -> Result<Filter, Refusal<FilterFault>>
    ensures answer { Answers filter_view filter_fault_view result
        (reading.filter_by schema.now (reading.member_filter key.now text.now)) }
    ensures valid { IfOk result (λ filter. IsValidQuery schema.now (query_view filter.query)) }
{
    match past_front(key, "#") {
        Some(list) => tagged(alloc, schema, list, text),
        None => Err(Refusal::Fault(FilterFault::Shape)),
    }
}

#[tactic(auto, unfolding(fc_spec::specs::queries::FilterReading::object_filter))]
fn object_filter(
    alloc: Global,
    schema: &Schema,
    json: &Value,
) -> Result<Filter, Refusal<FilterFault>>
    ensures answer { Answers filter_view filter_fault_view result
        (reading.filter_by schema.now (reading.object_filter (objects.sole_member (view json.now)))) }
    ensures valid { IfOk result (λ filter. IsValidQuery schema.now (query_view filter.query)) }
{
    let Some((key, value)) = sole_member(json) else {
        return Err(Refusal::Fault(FilterFault::Shape));
    };
    match value.as_str() {
        Some(text) => member_filter(alloc, schema, key, text),
        None => Err(Refusal::Fault(FilterFault::Shape)),
    }
}

/// Reads a filter: a query text, perhaps behind `{!tag=A,B}`; or an object of one member, whose key
/// is `#` and then tags separated by commas, and whose value is the query text. A fault of the tags
/// is found before the query text is read.
#[tactic(auto, unfolding(fc_spec::specs::queries::FilterReading::filter_parts))]
pub fn read_filter(
    alloc: Global,
    schema: &Schema,
    json: &Value,
) -> Result<Filter, Refusal<FilterFault>>
    ensures answer { Answers filter_view filter_fault_view result
        (reading.filter_of schema.now (view json.now)) }
    ensures valid { IfOk result (λ filter. IsValidQuery schema.now (query_view filter.query)) }
{
    match json.as_str() {
        Some(text) => text_filter(alloc, schema, text),
        None => object_filter(alloc, schema, json),
    }
}
