// Documents and blocks.
ghost use Rattle.std.specs.Prelude.{◌<◌, IfOk, IfSome, length};
ghost use Rattle.serde_json.specs.Data.{no_members};
ghost use Rattle.fc_spec.specs.documents.BlockReading.{as_parent};
ghost use Rattle.fc_base.specs.ValidSchema.{IsFieldList};
ghost use Rattle.fc_docs.specs.Direct.{GivesBlock, given_view};
ghost use Rattle.fc_docs.specs.DirectState.{AreRead, GivesChild, GivesChildren, GivesEach, GivesFamily, GivesRest};
ghost use Rattle.fc_docs.specs.View.{block_view};

use super::fields::{Stop, read_fields};
use crate::document::given::document_given;
use crate::{Block, Document};
use fc_base::{FieldId, Schema, Val, WantMemory};
use json::{Reader, Token};
use std::alloc::Global;

/// Reads a block from the tokens of its text, which come next, as `read_block` reads it from the tree of them, and without
/// one. None says nothing, nor is anything said of where the reader stands then. It is answered where the text spells no block
/// or one with a fault, where the key of a field or that of the children stands twice in a document, where a child has the key
/// of children at all, be it with null or `[]`, and where a key that is passed over has an array, an object, or a number that
/// is `-0` or no integer of 64 bits signed. `read_block` tells what such a text is. The only error is want of memory. (Guide:
/// Indexing Nested Child Documents)
pub fn read_directly(
    alloc: Global,
    schema: &Schema,
    reader: &mut Reader<'_>,
) -> Result<Option<Block>, WantMemory>
    ensures block { IfOk result (λ found. IfSome found (λ block.
        GivesBlock schema.now reader.old reader.new (block_view block))) }
    ensures shorter { IfOk result (λ found. IfSome found (λ block.
        length reader.new < length reader.old)) }
{
    let fields = schema.fields();
    let Some(Token::BeginObject) = reader.next() else {
        return Ok(None);
    };
    let mut given = Vec::with_capacity(alloc, 8)?;
    let mut seen = [false; 256];
    let Some(children) = read_family(alloc, schema, reader, &mut seen, &mut given)? else {
        return Ok(None);
    };
    match document_given(alloc, fields, given)? {
        Some(parent) => Ok(Some(Block { children, parent })),
        None => Ok(None),
    }
}

// The members of a parent up to the end of the object, among which its children may stand.
fn read_family(
    alloc: Global,
    schema: &Schema,
    reader: &mut Reader<'_>,
    seen: &mut [bool; 256],
    given: &mut Vec<(FieldId, Val)>,
) -> Result<Option<Vec<Document>>, WantMemory>
    requires list { IsFieldList schema.now.fields }
    requires start { AreRead as_parent schema.now no_members (given_view given.old.items) seen.old }
    ensures family { IfOk result (λ found. IfSome found (λ children.
        GivesFamily schema.now reader.old reader.new (given_view given.new.items) seen.new children.items)) }
    ensures shorter { IfOk result (λ found. IfSome found (λ children.
        length reader.new < length reader.old)) }
{
    match read_fields(alloc, schema, reader, seen, given)? {
        Stop::End => Ok(Some(Vec::new(alloc))),
        Stop::Children => read_rest(alloc, schema, reader, seen, given),
        Stop::Other => Ok(None),
    }
}

// The children of a parent, and the members behind them.
fn read_rest(
    alloc: Global,
    schema: &Schema,
    reader: &mut Reader<'_>,
    seen: &mut [bool; 256],
    given: &mut Vec<(FieldId, Val)>,
) -> Result<Option<Vec<Document>>, WantMemory>
    requires list { IsFieldList schema.now.fields }
    ensures { IfOk result (λ found. IfSome found (λ children.
        GivesRest schema.now reader.old reader.new (given_view given.old.items) (given_view given.new.items) seen.old seen.new children.items)) }
{
    let Some(children) = read_children(alloc, schema, reader)? else {
        return Ok(None);
    };
    match read_fields(alloc, schema, reader, seen, given)? {
        Stop::End => Ok(Some(children)),
        _ => Ok(None),
    }
}

// The value of the children.
fn read_children(
    alloc: Global,
    schema: &Schema,
    reader: &mut Reader<'_>,
) -> Result<Option<Vec<Document>>, WantMemory>
    requires { IsFieldList schema.now.fields }
    ensures children { IfOk result (λ found. IfSome found (λ children.
        GivesChildren schema.now reader.old reader.new children.items)) }
    ensures shorter { IfOk result (λ found. IfSome found (λ children.
        length reader.new < length reader.old)) }
{
    match reader.next() {
        Some(Token::Null) => Ok(Some(Vec::new(alloc))),
        Some(Token::BeginArray) => read_each(alloc, schema, reader),
        _ => Ok(None),
    }
}

fn read_each(
    alloc: Global,
    schema: &Schema,
    reader: &mut Reader<'_>,
) -> Result<Option<Vec<Document>>, WantMemory>
    requires { IsFieldList schema.now.fields }
    ensures each { IfOk result (λ found. IfSome found (λ children.
        GivesEach schema.now reader.old reader.new children.items)) }
    ensures shorter { IfOk result (λ found. IfSome found (λ children.
        length reader.new < length reader.old)) }
{
    let mut children = Vec::new(alloc);
    'items: while !reader.take_end_array() {
        match read_child(alloc, schema, reader)? {
            Some(child) => children.push(child)?,
            None => return Ok(None),
        }
    }
    // They are kept until their block is committed.
    children.shrink_to_fit();
    Ok(Some(children))
}

fn read_child(
    alloc: Global,
    schema: &Schema,
    reader: &mut Reader<'_>,
) -> Result<Option<Document>, WantMemory>
    requires { IsFieldList schema.now.fields }
    ensures child { IfOk result (λ found. IfSome found (GivesChild schema.now reader.old reader.new)) }
    ensures shorter { IfOk result (λ found. IfSome found (λ child.
        length reader.new < length reader.old)) }
{
    let Some(Token::BeginObject) = reader.next() else {
        return Ok(None);
    };
    let mut given = Vec::with_capacity(alloc, 8)?;
    let mut seen = [false; 256];
    match read_fields(alloc, schema, reader, &mut seen, &mut given)? {
        Stop::End => document_given(alloc, schema.fields(), given),
        _ => Ok(None),
    }
}
