// Reading a block from JSON.
ghost use Rattle.std.specs.Prelude.{All, IfOk};
ghost use Rattle.serde_json.specs.View.{view, members_view, items_view};
ghost use Rattle.serde_json.specs.Data.{object};
ghost use Rattle.fc_spec.specs.words.Walks.{each};
ghost use Rattle.fc_spec.specs.documents.BlockReading.{block_of, document_of, document_of_members, child_documents, all_items, as_child};
ghost use Rattle.fc_spec.specs.documents.ValidBlocks.{IsBlockOf, IsDocumentOf};
ghost use Rattle.fc_base.specs.Answers.{Answers};
ghost use Rattle.fc_base.specs.ValidSchema.{IsValidSchema};
ghost use Rattle.fc_docs.specs.View.{block_view, fault_view, role_view};

mod item;
mod member;
mod values;

use crate::document::given::{document_given, give};
use crate::{Block, DocFault, Document};
use fc_base::{Refusal, Schema};
pub(crate) use item::TERM_LIMIT;
pub(crate) use member::{CHILDREN, is_passed_over};
use member::{Role, field_of};
use serde_json::{Map, Value};
use std::alloc::Global;
use values::read_values;
pub(crate) use values::takes;

/// Reads an object of fields and their values as a parent, and its children, an array of such
/// objects at `_childDocuments_`, which have none of their own. Other keys that begin and end with
/// `_` are passed over. A field's value is null, one item, or an array of items, where nulls are
/// passed over and equal items are kept once. An item of a text field is a text of at most 32,766
/// bytes, or a whole number of 64 bits signed, which stands for its decimal text; one of an integer
/// field is such a number, or a text that spells one; one of a date field is a date text, which
/// stands for its canonical text. The first fault counts: the parent's members in the byte order of
/// their keys, each key before its value and each item before their number; then whether there is an
/// `id`; then the children in their order, each in the same way. (Guide: Indexing Nested Child
/// Documents)
pub fn read_block(alloc: Global, schema: &Schema, json: Value) -> Result<Block, Refusal<DocFault>>
    ensures answer { Answers block_view fault_view result (block_of schema.now (view json)) }
    ensures valid { IfOk result (λ block. IsBlockOf schema.now (block_view block)) }
{
    match json {
        Value::Object(members) => read_family(alloc, schema, members),
        _ => Err(Refusal::Fault(DocFault::WrongType)),
    }
}

// A parent and its children.
fn read_family(
    alloc: Global,
    schema: &Schema,
    mut members: Map<String, Value>,
) -> Result<Block, Refusal<DocFault>>
    ensures answer { Answers block_view fault_view result
        (block_of schema.now (object (members_view members.entries))) }
    ensures valid { IfOk result (λ block. IsBlockOf schema.now (block_view block)) }
{
    let children = members.remove(CHILDREN).unwrap_or(Value::Null);
    let parent = read_members(alloc, schema, Role::Parent, members)?;
    let children = read_children(alloc, schema, children)?;
    Ok(Block { children, parent })
}

// The children of a parent, which are null or an array.
fn read_children(
    alloc: Global,
    schema: &Schema,
    json: Value,
) -> Result<Vec<Document>, Refusal<DocFault>>
    ensures answer { Answers (λ documents. documents.items) fault_view result
        (child_documents schema.now (view json)) }
    ensures valid { IfOk result (λ documents. All (IsDocumentOf schema.now) documents.items) }
{
    match json {
        Value::Null => Ok(Vec::new(alloc)),
        Value::Array(items) => read_each(alloc, schema, items),
        _ => Err(Refusal::Fault(DocFault::WrongType)),
    }
}

fn read_each(
    alloc: Global,
    schema: &Schema,
    items: Vec<Value>,
) -> Result<Vec<Document>, Refusal<DocFault>>
    ensures answer { Answers (λ documents. documents.items) fault_view result
        (each (document_of as_child schema.now) (all_items (items_view items.items))) }
    ensures valid { IfOk result (λ documents. All (IsDocumentOf schema.now) documents.items) }
{
    let mut documents = Vec::with_capacity(alloc, items.len())?;
    for item in items {
        documents.push(read_child(alloc, schema, item)?)?;
    }
    Ok(documents)
}

fn read_child(alloc: Global, schema: &Schema, json: Value) -> Result<Document, Refusal<DocFault>>
    ensures answer { Answers (λ document. document) fault_view result
        (document_of as_child schema.now (view json)) }
    ensures valid { IfOk result (IsDocumentOf schema.now) }
{
    match json {
        Value::Object(members) => read_members(alloc, schema, Role::Child, members),
        _ => Err(Refusal::Fault(DocFault::WrongType)),
    }
}

fn read_members(
    alloc: Global,
    schema: &Schema,
    role: Role,
    members: Map<String, Value>,
) -> Result<Document, Refusal<DocFault>>
    ensures answer { Answers (λ document. document) fault_view result
        (document_of_members (role_view role) schema.now (members_view members.entries)) }
    ensures valid { IfOk result (IsDocumentOf schema.now) }
    ensures schema { IsValidSchema schema.now }
{
    let fields = schema.fields();
    let mut given = Vec::with_capacity(alloc, members.len())?;
    for (key, json) in members {
        let Some(field) = field_of(schema, role, key.as_str(), &json)? else {
            continue;
        };
        let values = read_values(alloc, schema.field_type(field), json)?;
        give(&mut given, field, values)?;
    }
    match document_given(alloc, fields, given)? {
        Some(document) => Ok(document),
        None => Err(Refusal::Fault(DocFault::NoId)),
    }
}
