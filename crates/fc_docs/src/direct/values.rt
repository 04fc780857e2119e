// The values of one member.
ghost use Rattle.std.specs.Prelude.{◌≡◌, ◌<◌, [], ◌∷◌, ◌++◌, All, IfOk, IsTrue, List, Ok, Some, length};
ghost use Rattle.std.specs.Bool.{OnTrue};
ghost use Rattle.json.specs.Reads.{token_of};
ghost use Rattle.json.specs.Token.{begin_array};
ghost use Rattle.serde_json.specs.Data.{Data, item, no_items};
ghost use Rattle.fc_spec.specs.documents.BlockReading.{takes, value_of, without_nulls};
ghost use Rattle.fc_spec.specs.documents.Val as definition;
ghost use Rattle.fc_spec.specs.documents.ValidBlocks.{is_value_of};
ghost use Rattle.fc_spec.specs.words.Walks.{each};
ghost use Rattle.fc_base.specs.View.{field_type_view};
ghost use Rattle.fc_docs.specs.Direct.{GivesItem, GivesValues, data_of, given_view, giving};

use super::item::item_of;
use crate::read::takes;
use fc_base::{FieldId, FieldType, Val, WantMemory};
use json::{Reader, Token};
use std::alloc::Global;

/// Puts the values of the value that comes next behind those that were given, each given to the field, and says whether
/// they could be told. Where they could not, nothing is claimed of what was given.
pub(super) fn read_values(
    alloc: Global,
    kind: FieldType,
    field: FieldId,
    reader: &mut Reader<'_>,
    given: &mut Vec<(FieldId, Val)>,
) -> Result<bool, WantMemory>
    ensures values { IfOk result (λ told. OnTrue told ((vs : List definition.Val)
        × GivesValues (field_type_view kind) reader.old reader.new vs
        × (given_view given.new.items ≡ given_view given.old.items ++ giving field.0 vs))) }
    ensures shorter { IfOk result (λ told. OnTrue told (length reader.new < length reader.old)) }
{
    let Some(token) = reader.next() else {
        return Ok(false);
    };
    match token {
        Token::Null => Ok(true),
        Token::BeginArray => {
            let told = read_items(alloc, kind, field, reader, given)?;
            Ok(told)
        }
        one => {
            let told = read_one(alloc, kind, field, one, given)?;
            Ok(told)
        }
    }
}

fn read_one(
    alloc: Global,
    kind: FieldType,
    field: FieldId,
    token: Token<'_>,
    given: &mut Vec<(FieldId, Val)>,
) -> Result<bool, WantMemory>
    ensures { IfOk result (λ told. OnTrue told ((v : definition.Val)
        × GivesItem (field_type_view kind) (token_of token.entry) v
        × (given_view given.new.items ≡ given_view given.old.items ++ giving field.0 (v ∷ [])))) }
{
    match item_of(alloc, kind, token)? {
        Some(val) => {
            given.push((field, val))?;
            Ok(true)
        }
        None => Ok(false),
    }
}

fn read_items(
    alloc: Global,
    kind: FieldType,
    field: FieldId,
    reader: &mut Reader<'_>,
    given: &mut Vec<(FieldId, Val)>,
) -> Result<bool, WantMemory>
    ensures values { IfOk result (λ told. OnTrue told ((vs : List definition.Val)
        × GivesValues (field_type_view kind) (begin_array ∷ reader.old) reader.new vs
        × (given_view given.new.items ≡ given_view given.old.items ++ giving field.0 vs))) }
    ensures shorter { IfOk result (λ told. OnTrue told (length reader.new < length reader.old)) }
{
    let before = given.len();
    'items: while !reader.take_end_array() {
        let Some(token) = reader.next() else {
            return Ok(false);
        };
        if !read_item(alloc, kind, field, token, given)? {
            return Ok(false);
        }
    }
    Ok(takes(kind, given.len() - before))
}

fn read_item(
    alloc: Global,
    kind: FieldType,
    field: FieldId,
    token: Token<'_>,
    given: &mut Vec<(FieldId, Val)>,
) -> Result<bool, WantMemory>
    ensures { IfOk result (λ told. OnTrue told ((d : Data) × (vs : List definition.Val)
        × (data_of (token_of token.entry) ≡ Some d)
        × (each (value_of (field_type_view kind)) (without_nulls (item d no_items)) ≡ Ok vs)
        × All (λ v. IsTrue (is_value_of (field_type_view kind) v)) vs
        × (given_view given.new.items ≡ given_view given.old.items ++ giving field.0 vs))) }
{
    if let Token::Null = token {
        return Ok(true);
    }
    let told = read_one(alloc, kind, field, token, given)?;
    Ok(told)
}
