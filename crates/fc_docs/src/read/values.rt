// The values of one member.
ghost use Rattle.std.specs.Prelude.{◌≡◌, [], ◌∷◌, All, IfOk, IsTrue};
ghost use Rattle.serde_json.specs.View.{view, items_view};
ghost use Rattle.fc_spec.specs.words.Walks.{each};
ghost use Rattle.fc_spec.specs.documents.BlockReading.{items_in, takes, value_of, values_for, without_nulls};
ghost use Rattle.fc_spec.specs.documents.ValidBlocks.{AreValuesOf, is_value_of};
ghost use Rattle.fc_base.specs.Answers.{Answers};
ghost use Rattle.fc_base.specs.View.{field_type_view, val_view};
ghost use Rattle.fc_docs.specs.View.{fault_view, values_view};

use super::item::read_item;
use crate::DocFault;
use fc_base::{FieldType, Refusal, Val};
use serde_json::Value;
use std::alloc::Global;

/// The different values of a member, in index order.
pub(super) fn read_values(
    alloc: Global,
    kind: FieldType,
    json: Value,
) -> Result<Vec<Val>, Refusal<DocFault>>
    ensures answer { Answers values_view fault_view result
        (values_for (field_type_view kind) (view json)) }
    ensures valid { IfOk result (λ values. AreValuesOf (field_type_view kind) (values_view values)) }
{
    let mut values = read_given(alloc, kind, json)?;
    if !takes(kind, values.len()) {
        return Err(Refusal::Fault(DocFault::TooManyValues));
    }
    values.sort_unstable();
    values.dedup();
    Ok(values)
}

/// Whether a field of the type may have so many values.
pub(crate) fn takes(kind: FieldType, count: usize) -> bool
    ensures { result ≡ takes (field_type_view kind) count }
{
    match kind {
        FieldType::Str | FieldType::Long | FieldType::Date => count <= 1,
        FieldType::Strs | FieldType::Longs | FieldType::Dates => true,
    }
}

// The values of a member's items: of none where it is null, of those of an array, or else of the member itself.
fn read_given(alloc: Global, kind: FieldType, json: Value) -> Result<Vec<Val>, Refusal<DocFault>>
    ensures answer { Answers values_view fault_view result
        (each (value_of (field_type_view kind)) (items_in (view json))) }
    ensures valid { IfOk result
        (λ values. All (λ val. IsTrue (is_value_of (field_type_view kind) (val_view val)))
        values.items) }
{
    match json {
        Value::Null => Ok(Vec::new(alloc)),
        Value::Array(items) => read_items(alloc, kind, items),
        other => read_one(alloc, kind, other),
    }
}

// The value of the only item.
fn read_one(alloc: Global, kind: FieldType, json: Value) -> Result<Vec<Val>, Refusal<DocFault>>
    ensures answer { Answers values_view fault_view result
        (each (value_of (field_type_view kind)) (view json ∷ [])) }
    ensures valid { IfOk result
        (λ values. All (λ val. IsTrue (is_value_of (field_type_view kind) (val_view val)))
        values.items) }
{
    let mut values = Vec::with_capacity(alloc, 1)?;
    values.push(read_item(alloc, kind, json)?)?;
    Ok(values)
}

// The values of the items, of which nulls are passed over.
fn read_items(
    alloc: Global,
    kind: FieldType,
    items: Vec<Value>,
) -> Result<Vec<Val>, Refusal<DocFault>>
    ensures answer { Answers values_view fault_view result
        (each (value_of (field_type_view kind)) (without_nulls (items_view items.items))) }
    ensures valid { IfOk result
        (λ values. All (λ val. IsTrue (is_value_of (field_type_view kind) (val_view val)))
        values.items) }
{
    let mut values = Vec::with_capacity(alloc, items.len())?;
    for item in items {
        if !item.is_null() {
            values.push(read_item(alloc, kind, item)?)?;
        }
    }
    Ok(values)
}
