// Reading a schema from JSON.
ghost use Rattle.std.specs.Prelude.{◌≡◌, ◌<◌, IfOk, length, map, option_and_then, option_map};
ghost use Rattle.serde_json.specs.View.{view, members_view};
ghost use Rattle.fc_spec.specs.documents.SchemaReading.{shards_of, type_named, type_for, field_of, fields_of, is_field_name, is_underscored, schema_of, with_id};
ghost use Rattle.fc_base.specs.Answers.{Answers, one_fault, or_fault};
ghost use Rattle.fc_base.specs.ValidSchema.{IsFieldList};
ghost use Rattle.fc_base.specs.View.{field_view, field_type_view};

use super::Schema;
use crate::field::Field;
use crate::{FieldType, Name, Refusal, SchemaFault, are_name_bytes};
use serde_json::{Map, Value};
use std::alloc::Global;

impl Schema {
    /// Reads an object of the two members `shards`, a whole number from 1 to 64, and `fields`, an
    /// object from names to types: `string`, `strings`, `plong` or `plongs`. A name is 1 to 64 ASCII
    /// letters, digits and `_`, with no digit in front, nor `_` at both ends; `id` has the type
    /// `string`; there are at most 256 fields with `id`, which need not be named. A value that is
    /// not so is no schema. (Guide: Fields and Schema Design)
    pub fn read(alloc: Global, json: &Value) -> Result<Schema, Refusal<SchemaFault>>
        ensures { Answers (λ schema. schema) one_fault result (or_fault (schema_of (view json.now))) }
    {
        let members = json.as_object().ok_or(SchemaFault)?;
        if members.len() != 2 {
            return Err(Refusal::Fault(SchemaFault));
        }
        let shards = json.get("shards").and_then(shards_of).ok_or(SchemaFault)?;
        let fields = json
            .get("fields")
            .and_then(Value::as_object)
            .ok_or(SchemaFault)?;
        Ok(Schema {
            shards,
            fields: read_fields(alloc, fields)?,
        })
    }
}

fn is_underscored(name: &[u8]) -> bool
    requires { 0 < length name.now }
    ensures { result ≡ is_underscored name.now }
{
    name[0] == b'_' && name[name.len() - 1] == b'_'
}

// 1 to 64 ASCII letters, digits and `_`, with no digit in front, nor `_` at both ends.
fn is_field_name(name: &[u8]) -> bool
    ensures { result ≡ is_field_name name.now }
{
    if name.is_empty() || name.len() > 64 {
        return false;
    }
    if name[0].is_ascii_digit() || is_underscored(name) {
        return false;
    }
    are_name_bytes(name)
}

fn type_named(text: &str) -> Option<FieldType>
    ensures { option_map field_type_view result ≡ type_named text.now }
{
    match text {
        "string" => Some(FieldType::Str),
        "strings" => Some(FieldType::Strs),
        "plong" => Some(FieldType::Long),
        "plongs" => Some(FieldType::Longs),
        "pdate" => Some(FieldType::Date),
        "pdates" => Some(FieldType::Dates),
        _ => None,
    }
}

fn shards_of(json: &Value) -> Option<u32>
    ensures { result ≡ shards_of (view json.now) }
{
    match json.as_u64() {
        Some(count @ 1..=64) => Some(count as u32),
        _ => None,
    }
}

// `id` has the type `string`.
fn type_for(name: &str, kind: FieldType) -> Option<FieldType>
    ensures { option_map field_type_view result ≡ type_for name.now (field_type_view kind) }
{
    match kind {
        FieldType::Str => Some(kind),
        _ if name == "id" => None,
        _ => Some(kind),
    }
}

// The type of a field, where its name and type are good.
fn kind_of(name: &str, json: &Value) -> Option<FieldType>
    ensures { option_map (λ kind. record { name = name.now; kind = field_type_view kind }) result
        ≡ field_of name.now (view json.now) }
{
    if !is_field_name(name.as_bytes()) {
        return None;
    }
    let kind = json.as_str().and_then(type_named)?;
    type_for(name, kind)
}

// The fields that the members name: `id`, and then the others in their order.
fn read_fields(
    alloc: Global,
    members: &Map<String, Value>,
) -> Result<Vec<Field>, Refusal<SchemaFault>>
    ensures answer { Answers (λ fields. map field_view fields.items) one_fault result
        (or_fault (option_and_then with_id (fields_of (members_view members.now.entries)))) }
    ensures valid { IfOk result (λ fields. IsFieldList (map field_view fields.items)) }
{
    let mut fields = Vec::new(alloc);
    fields.push(Field {
        name: Name::new(alloc, "id")?,
        kind: FieldType::Str,
    })?;
    for (name, json) in members {
        let kind = kind_of(name, json).ok_or(SchemaFault)?;
        if name.as_str() != "id" {
            let name = Name::new(alloc, name)?;
            fields.push(Field { name, kind })?;
        }
    }
    if fields.len() > 256 {
        return Err(Refusal::Fault(SchemaFault));
    }
    Ok(fields)
}
