// The fields of a schema: which one is named, and what it holds.
ghost use Rattle.std.specs.Prelude.{◌≡◌, ◌<◌, length, not, IfOk};
ghost use Rattle.serde_json.specs.View.{view};
ghost use Rattle.fc_spec.specs.documents.Schema.{holds_dates, holds_texts};
ghost use Rattle.fc_spec.specs.requests.FacetReading as reading;
ghost use Rattle.fc_spec.specs.requests.StatisticReading.{has_type};
ghost use Rattle.fc_base.specs.Answers.{Answers};
ghost use Rattle.fc_base.specs.View.{field_type_view};
ghost use Rattle.fc_facet.specs.FaultView.{fault_view};

use crate::words::text_in;
use fc_base::{FieldId, FieldType, Refusal, Schema};
use fc_facet::QFault;
use serde_json::Value;

fn is_of_texts(kind: FieldType) -> bool
    ensures { result ≡ holds_texts (field_type_view kind) }
{
    match kind {
        FieldType::Str | FieldType::Strs | FieldType::Date | FieldType::Dates => true,
        FieldType::Long | FieldType::Longs => false,
    }
}

/// A field of the schema holds texts.
pub(crate) fn holds_texts(schema: &Schema, field: FieldId) -> bool
    requires { field.0 < length schema.now.fields }
    ensures { result ≡ has_type schema.now holds_texts field.0 }
{
    is_of_texts(schema.field_type(field))
}

/// A field of the schema holds integers.
pub(crate) fn holds_integers(schema: &Schema, field: FieldId) -> bool
    requires { field.0 < length schema.now.fields }
    ensures { result ≡ has_type schema.now (λ kind. not (holds_texts kind)) field.0 }
{
    !is_of_texts(schema.field_type(field))
}

fn is_of_dates(kind: FieldType) -> bool
    ensures { result ≡ holds_dates (field_type_view kind) }
{
    match kind {
        FieldType::Date | FieldType::Dates => true,
        FieldType::Str | FieldType::Strs | FieldType::Long | FieldType::Longs => false,
    }
}

/// A field of the schema holds dates.
pub(crate) fn holds_dates(schema: &Schema, field: FieldId) -> bool
    requires { field.0 < length schema.now.fields }
    ensures { result ≡ has_type schema.now holds_dates field.0 }
{
    is_of_dates(schema.field_type(field))
}

/// The field of this name.
pub(crate) fn field_in(schema: &Schema, json: &Value) -> Result<FieldId, Refusal<QFault>>
    ensures answer { Answers (λ field. field.0) fault_view result
        (reading.field_in schema.now (view json.now)) }
    ensures below { IfOk result (λ field. field.0 < length schema.now.fields) }
{
    let name = text_in(json)?;
    match schema.find(name.as_bytes()) {
        Some(field) => Ok(field),
        None => Err(Refusal::Fault(QFault::UnknownField)),
    }
}
