// One value of a field.
ghost use Rattle.std.specs.Prelude.{IfOk, IsTrue};
ghost use Rattle.serde_json.specs.View.{view};
ghost use Rattle.fc_spec.specs.documents.DocFault.{long_term};
ghost use Rattle.fc_spec.specs.words.Walks.{unless};
ghost use Rattle.fc_spec.specs.documents.BlockReading.{date_item, is_term, long_item, text_item, value_of};
ghost use Rattle.fc_spec.specs.documents.ValidBlocks.{is_value_of};
ghost use Rattle.fc_spec.specs.documents.Schema.{string, pdate, plong};
ghost use Rattle.fc_base.specs.Answers.{Answers};
ghost use Rattle.fc_base.specs.View.{field_type_view, val_view};
ghost use Rattle.fc_docs.specs.View.{fault_view};

use crate::DocFault;
use crate::decimal::decimal_name;
use fc_base::{FieldType, Name, Refusal, Val, long_of};
use fc_dates::canonical;
use serde_json::Value;
use std::alloc::Global;

/// The most bytes of a text.
pub(crate) const TERM_LIMIT: usize = 32_766;

/// The value that an item of a field of this type stands for, or its fault.
pub(super) fn read_item(
    alloc: Global,
    kind: FieldType,
    json: Value,
) -> Result<Val, Refusal<DocFault>>
    ensures answer { Answers val_view fault_view result
        (value_of (field_type_view kind) (view json)) }
    ensures valid { IfOk result (λ val. IsTrue (is_value_of (field_type_view kind) (val_view val))) }
{
    match kind {
        FieldType::Str | FieldType::Strs => text_item(alloc, json),
        FieldType::Long | FieldType::Longs => long_item(&json),
        FieldType::Date | FieldType::Dates => date_item(alloc, &json),
    }
}

// A text, or a whole number of 64 bits, which stands for its decimal text.
fn text_item(alloc: Global, json: Value) -> Result<Val, Refusal<DocFault>>
    ensures answer { Answers val_view fault_view result (text_item (view json)) }
    ensures valid { IfOk result (λ val. IsTrue (is_value_of string (val_view val))) }
{
    match json {
        Value::String(text) => {
            check_length(text.as_str())?;
            Ok(Val::Text(Name::new(alloc, text.as_str())?))
        }
        other => {
            let number = other.as_i64().ok_or(DocFault::WrongType)?;
            Ok(Val::Text(decimal_name(alloc, number)?))
        }
    }
}

// A whole number of 64 bits, or a text that spells one.
fn long_item(json: &Value) -> Result<Val, Refusal<DocFault>>
    ensures answer { Answers val_view fault_view result (long_item (view json.now)) }
    ensures valid { IfOk result (λ val. IsTrue (is_value_of plong (val_view val))) }
{
    if let Some(text) = json.as_str() {
        let number = long_of(text).ok_or(DocFault::WrongType)?;
        check_length(text)?;
        return Ok(Val::Long(number));
    }
    let number = json.as_i64().ok_or(DocFault::WrongType)?;
    Ok(Val::Long(number))
}

// A date text, which stands for its canonical text.
fn date_item(alloc: Global, json: &Value) -> Result<Val, Refusal<DocFault>>
    ensures answer { Answers val_view fault_view result (date_item (view json.now)) }
    ensures valid { IfOk result (λ val. IsTrue (is_value_of pdate (val_view val))) }
{
    let Some(text) = json.as_str() else {
        return Err(Refusal::Fault(DocFault::WrongType));
    };
    let Some(date) = canonical(text) else {
        return Err(Refusal::Fault(DocFault::WrongType));
    };
    Ok(Val::Text(Name::new(alloc, date.text())?))
}

fn check_length(text: &str) -> Result<(), Refusal<DocFault>>
    ensures { Answers (λ _. tt) fault_view result (unless (is_term text.now) long_term) }
{
    if text.len() > TERM_LIMIT {
        return Err(Refusal::Fault(DocFault::LongTerm));
    }
    Ok(())
}
