// Which field a member of a document gives values to.
ghost use Rattle.std.specs.Prelude.{◌≡◌, ◌<◌, ◌&&◌, IfOk, IfSome, length, nat_le, option_map};
ghost use Rattle.serde_json.specs.View.{view};
ghost use Rattle.fc_spec.specs.documents.BlockReading.{holds_nothing};
ghost use Rattle.fc_spec.specs.documents.SchemaReading.{is_underscored};
ghost use Rattle.fc_base.specs.Answers.{Answers};
ghost use Rattle.fc_docs.specs.Members.{field_given};
ghost use Rattle.fc_docs.specs.View.{fault_view, role_view};

use crate::DocFault;
use fc_base::{FieldId, Refusal, Schema};
use serde_json::Value;

/// The key of a parent's children.
pub(crate) const CHILDREN: &str = "_childDocuments_";

/// The place of a document in its block.
#[derive(Clone, Copy, PartialEq, Eq)]
pub(super) enum Role {
    Parent,
    Child,
}

/// The field that has a member's values. There is none at the key of the children, nor at another
/// key that begins and ends with `_`.
pub(super) fn field_of(
    schema: &Schema,
    role: Role,
    key: &str,
    json: &Value,
) -> Result<Option<FieldId>, Refusal<DocFault>>
    ensures answer { Answers (λ field. option_map (λ id. id.0) field) fault_view result
        (field_given (role_view role) schema.now key.now (view json.now)) }
    ensures below { IfOk result (λ field. IfSome field (λ id. id.0 < length schema.now.fields)) }
{
    if key == CHILDREN {
        if role == Role::Child && !holds_nothing(json) {
            return Err(Refusal::Fault(DocFault::DeepChildren));
        }
        return Ok(None);
    }
    if is_passed_over(key.as_bytes()) {
        return Ok(None);
    }
    let field = schema.find(key.as_bytes()).ok_or(DocFault::UnknownField)?;
    Ok(Some(field))
}

/// Whether a key begins and ends with `_`.
pub(crate) fn is_passed_over(key: &[u8]) -> bool
    ensures { result ≡ (nat_le 2 (length key.now) && is_underscored key.now) }
{
    key.len() >= 2 && key[0] == b'_' && key[key.len() - 1] == b'_'
}

fn holds_nothing(json: &Value) -> bool
    ensures { result ≡ holds_nothing (view json.now) }
{
    match json {
        Value::Null => true,
        Value::Array(items) => items.is_empty(),
        _ => false,
    }
}
