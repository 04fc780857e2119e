// The domain change that a facet says.
ghost use Rattle.std.specs.Prelude.{◌≡◌, [], map, option_map};
ghost use Rattle.serde_json.specs.View.{view, members_view};
ghost use Rattle.fc_spec.specs.requests.DomainReading as reading;
ghost use Rattle.fc_spec.specs.requests.RequestWalk.{said_or};
ghost use Rattle.fc_spec.specs.words.Walks.{each};
ghost use Rattle.fc_base.specs.Answers.{Answers};
ghost use Rattle.fc_query.specs.QueryView.{query_view};
ghost use Rattle.fc_facet.specs.FaultView.{fault_view};
ghost use Rattle.fc_facet.specs.KindView.{domain_view, step_view};

use crate::query::{query_in, text_query};
use crate::words::{check_names, object_in, texts_in};
use fc_base::json::member;
use fc_base::{Name, Refusal, Schema};
use fc_facet::{BlockStep, Domain, QFault};
use fc_query::{Query, are_tags, names_of, parts_of};
use serde_json::{Map, Value};
use std::alloc::Global;

// The parts of a text between its commas, none where it is empty; or the texts of a list.
fn tag_items(alloc: Global, json: &Value) -> Result<Vec<&str>, Refusal<QFault>>
    ensures { Answers (λ items. map (λ item. item.now) items.items) fault_view result
        (reading.tag_items (view json.now)) }
{
    match json.as_str() {
        Some(text) if text.is_empty() => Ok(Vec::new(alloc)),
        Some(text) => Ok(parts_of(alloc, text)?),
        None => texts_in(alloc, json),
    }
}

// The tags that are left out; a facet names none where one around it has a block step.
fn excluded(alloc: Global, json: &Value, unmoved: bool) -> Result<Vec<Name>, Refusal<QFault>>
    ensures { Answers (λ tags. tags.items) fault_view result
        (reading.excluded unmoved (view json.now)) }
{
    let items = tag_items(alloc, json)?;
    if !are_tags(&items) {
        return Err(Refusal::Fault(QFault::BadParameter));
    }
    if !unmoved && !items.is_empty() {
        return Err(Refusal::Fault(QFault::NestedExclude));
    }
    Ok(names_of(alloc, &items)?)
}

// None where no member says so.
fn exclude_in(
    alloc: Global,
    json: Option<&Value>,
    unmoved: bool,
) -> Result<Vec<Name>, Refusal<QFault>>
    ensures { Answers (λ tags. tags.items) fault_view result
        (said_or (reading.excluded unmoved) [] (option_map (λ json. view json.now) json.entry)) }
{
    match json {
        Some(json) => excluded(alloc, json, unmoved),
        None => Ok(Vec::new(alloc)),
    }
}

// At most one of the two members.
fn block_step(
    alloc: Global,
    schema: &Schema,
    to_parents: Option<&Value>,
    to_children: Option<&Value>,
) -> Result<BlockStep, Refusal<QFault>>
    ensures { Answers step_view fault_view result (reading.block_step schema.now
        (option_map (λ json. view json.now) to_parents.entry)
        (option_map (λ json. view json.now) to_children.entry)) }
{
    match (to_parents, to_children) {
        (None, None) => Ok(BlockStep::Stay),
        (Some(json), None) => Ok(BlockStep::Parents(text_query(alloc, schema, json)?)),
        (None, Some(json)) => Ok(BlockStep::Children(text_query(alloc, schema, json)?)),
        (Some(_), Some(_)) => Err(Refusal::Fault(QFault::BadParameter)),
    }
}

// The queries of texts.
fn queries_of(alloc: Global, schema: &Schema, texts: &[&str]) -> Result<Vec<Query>, Refusal<QFault>>
    ensures { Answers (λ queries. map query_view queries.items) fault_view result
        (each (reading.query_in schema.now) (map (λ text. text.now) texts.now)) }
{
    let mut queries = Vec::new(alloc);
    for text in texts {
        let query = query_in(alloc, schema, text)?;
        queries.push(query)?;
    }
    Ok(queries)
}

// Whether all are texts is tested before the first is read; none where no member says so.
fn domain_filters(
    alloc: Global,
    schema: &Schema,
    json: Option<&Value>,
) -> Result<Vec<Query>, Refusal<QFault>>
    ensures { Answers (λ queries. map query_view queries.items) fault_view result
        (said_or (reading.domain_filters schema.now) [] (option_map (λ json. view json.now) json.entry)) }
{
    let Some(json) = json else {
        return Ok(Vec::new(alloc));
    };
    let texts = texts_in(alloc, json)?;
    queries_of(alloc, schema, &texts)
}

fn change_of(
    alloc: Global,
    schema: &Schema,
    unmoved: bool,
    members: &Map<String, Value>,
) -> Result<Domain, Refusal<QFault>>
    ensures { Answers domain_view fault_view result
        (reading.change_of schema.now unmoved (members_view members.now.entries)) }
{
    check_names(
        members,
        &["excludeTags", "blockParent", "blockChildren", "filter"],
    )?;
    let exclude = exclude_in(alloc, member(members, "excludeTags"), unmoved)?;
    let to_parents = member(members, "blockParent");
    let to_children = member(members, "blockChildren");
    let block = block_step(alloc, schema, to_parents, to_children)?;
    let filters = domain_filters(alloc, schema, member(members, "filter"))?;
    Ok(Domain {
        exclude,
        block,
        filters,
    })
}

/// What changes nothing.
pub fn no_change(alloc: Global) -> Domain
    ensures { domain_view result ≡ reading.no_change }
{
    Domain {
        exclude: Vec::new(alloc),
        block: BlockStep::Stay,
        filters: Vec::new(alloc),
    }
}

/// The change that the member `domain` of a facet says, where it is there; `unmoved` where no facet around it has a block
/// step.
/// (Guide: JSON Faceting Domain Changes)
pub fn change_in(
    alloc: Global,
    schema: &Schema,
    unmoved: bool,
    members: &Map<String, Value>,
) -> Result<Domain, Refusal<QFault>>
    ensures { Answers domain_view fault_view result
        (reading.change_in schema.now unmoved (members_view members.now.entries)) }
{
    match member(members, "domain") {
        Some(json) => {
            let members = object_in(json, QFault::BadParameter)?;
            change_of(alloc, schema, unmoved, members)
        }
        None => Ok(no_change(alloc)),
    }
}
