// The members of a document.
ghost use Rattle.std.specs.Prelude.{◌≡◌, ◌<◌, ◌&&◌, IfOk, false, length, nat_le};
ghost use Rattle.std.specs.Bool.{OnTrue};
ghost use Rattle.json.specs.Reads.{token_of};
ghost use Rattle.serde_json.specs.Data.{Data};
ghost use Rattle.fc_spec.specs.documents.Val.{same_text};
ghost use Rattle.fc_spec.specs.documents.BlockReading.{children_key};
ghost use Rattle.fc_spec.specs.documents.SchemaReading.{is_underscored};
ghost use Rattle.fc_base.specs.ValidSchema.{IsFieldList};
ghost use Rattle.fc_docs.specs.Direct.{Spells, data_of, given_view};
ghost use Rattle.fc_docs.specs.DirectState.{GivesMember, Stops};

use super::item::integer_of;
use super::values::read_values;
use crate::read::{CHILDREN, is_passed_over};
use fc_base::{FieldId, Schema, Val, WantMemory};
use json::{Reader, Token};
use std::alloc::Global;

/// What ended the reading of members.
#[derive(Drop)]
pub(super) enum Stop {
    /// The end of the object.
    End,
    /// The key of the children, whose value comes next.
    Children,
    /// Anything else: what `read_block` has to tell.
    Other,
}

/// Reads members up to the end of the object, or up to the key of the children.
pub(super) fn read_fields(
    alloc: Global,
    schema: &Schema,
    reader: &mut Reader<'_>,
    seen: &mut [bool; 256],
    given: &mut Vec<(FieldId, Val)>,
) -> Result<Stop, WantMemory>
    requires { IsFieldList schema.now.fields }
    ensures { IfOk result (λ stop. Stops stop schema.now reader.old reader.new
        (given_view given.old.items) (given_view given.new.items) seen.old seen.new) }
{
    'members: loop {
        let Ok(next) = reader.next_key() else {
            return Ok(Stop::Other);
        };
        let Some(key) = next else {
            return Ok(Stop::End);
        };
        if key == CHILDREN {
            return Ok(Stop::Children);
        }
        if !read_member(alloc, schema, key, reader, seen, given)? {
            return Ok(Stop::Other);
        }
    }
}

fn read_member(
    alloc: Global,
    schema: &Schema,
    key: &str,
    reader: &mut Reader<'_>,
    seen: &mut [bool; 256],
    given: &mut Vec<(FieldId, Val)>,
) -> Result<bool, WantMemory>
    requires list { IsFieldList schema.now.fields }
    requires other { same_text key.now children_key ≡ false }
    ensures member { IfOk result (λ told. OnTrue told (GivesMember schema.now key.now reader.old reader.new
        (given_view given.old.items) (given_view given.new.items) seen.old seen.new)) }
    ensures shorter { IfOk result (λ told. OnTrue told (length reader.new < length reader.old)) }
{
    if is_passed_over(key.as_bytes()) {
        return Ok(pass_over(reader));
    }
    let Some(field) = schema.find(key.as_bytes()) else {
        return Ok(false);
    };
    // There are at most 256 fields.
    let place = field.0 as usize;
    if seen[place] {
        return Ok(false);
    }
    seen[place] = true;
    read_values(alloc, schema.field_type(field), field, reader, given)
}

// Passes over a value, and says whether it was one that may be.
fn pass_over(reader: &mut Reader<'_>) -> bool
    ensures spells { OnTrue result ((said : Data) × Spells 1 reader.old reader.new said) }
    ensures shorter { OnTrue result (length reader.new < length reader.old) }
{
    match reader.next() {
        Some(token) => is_single(token),
        None => false,
    }
}

// Whether a token is a value by itself: no array, no object, and no number but an integer.
fn is_single(token: Token<'_>) -> bool
    ensures { OnTrue result ((said : Data) × (data_of (token_of token.entry) ≡ Some said)) }
{
    match token {
        Token::String(_) | Token::Bool(_) | Token::Null => true,
        Token::Number(digits) => integer_of(digits).is_some(),
        _ => false,
    }
}
