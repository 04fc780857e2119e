// Schemas.
ghost use Rattle.std.specs.Prelude.{◌≡◌, ◌<◌, length, map, slice_get, IfSome, option_map, position};
ghost use Rattle.std.specs.List.Sorted.{IsStrictlySortedBy};
ghost use Rattle.fc_spec.specs.documents.Val.{text_cmp, same_text};
ghost use Rattle.fc_spec.specs.documents.Schema.{field_named};
ghost use Rattle.fc_base.specs.declared.error.Refusal.TheVariants.{Fault};
ghost use Rattle.fc_base.specs.View.{field_type_view};
ghost use Rattle.fc_base.specs.ValidSchema.{IsValidSchema};

mod read;

use crate::field::Field;
use crate::{FieldId, FieldType, Refusal};
use std::marker::Model;
use thiserror::Error;

/// A JSON value is no schema.
#[derive(Clone, Copy, Debug, Error, PartialEq, Eq)]
#[error("bad-schema")]
pub struct SchemaFault;

impl From<SchemaFault> for Refusal<SchemaFault> {
    ghost from_gives = { λ fault refusal. refusal ≡ Fault fault };

    fn from(fault: SchemaFault) -> Self {
        Refusal::Fault(fault)
    }
}

/// The number of shards, and the fields: `id` first, and the others in the byte order of their
/// names.
#[derive(Debug, Drop)]
pub struct Schema {
    shards: u32,
    fields: Vec<Field>,
}

impl Model for Schema {
    ghost use Rattle.fc_spec.specs.documents.Schema as definition;

    ghost Value = { definition.Schema };

    ghost use Rattle.fc_base.specs.View.{schema_with};
    ghost use Rattle.fc_base.specs.ValidSchema.{IsValidSchema};

    ghost view = { λ s. schema_with s.shards s.fields.items };

    ghost invariant = { λ s. IsValidSchema (schema_with s.shards s.fields.items) };
}

impl Schema {
    /// How many shards there are, from 1 to 64.
    pub fn shards(&self) -> u32
        ensures count { result ≡ self.now.shards }
        ensures valid { IsValidSchema self.now }
    {
        self.shards
    }

    /// How many fields there are, `id` included.
    pub fn fields(&self) -> u16
        ensures count { result ≡ length self.now.fields }
        ensures valid { IsValidSchema self.now }
    {
        self.fields.len() as u16
    }

    /// The field of this name, by its bytes. There is none where no field has the name.
    pub fn find(&self, name: &[u8]) -> Option<FieldId>
        ensures found { option_map (λ id. id.0) result ≡ field_named self.now name.now }
        ensures below { IfSome result (λ id. id.0 < length self.now.fields) }
    {
        if name == self.fields[0].name.bytes() {
            return Some(FieldId(0));
        }
        let at = place_of(&self.fields[1..], name)?;
        Some(FieldId(at as u16 + 1))
    }

    /// The type of a field.
    pub fn field_type(&self, id: FieldId) -> FieldType
        requires { id.0 < length self.now.fields }
        ensures { option_map (λ f. f.kind) (slice_get self.now.fields id.0)
            ≡ Some (field_type_view result) }
    {
        self.fields[id.0 as usize].kind
    }
}

// Where the field of this name stands in fields that ascend by their names.
fn place_of(fields: &[Field], name: &[u8]) -> Option<usize>
    requires { IsStrictlySortedBy text_cmp (map (λ f. f.name) fields.now) }
    ensures place { result ≡ position (λ f. same_text name.now f.name) fields.now }
    ensures below { IfSome result (λ at. at < length fields.now) }
{
    fields
        .binary_search_by(|field| field.name.bytes().cmp(name))
        .ok()
}
