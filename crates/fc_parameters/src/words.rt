// Words for the readers: members, and values that are numbers, truth values, texts or objects.
ghost use Rattle.std.specs.Prelude.{◌≡◌, false, map, ok_or};
ghost use Rattle.serde_json.specs.Find.{as_object, get_member};
ghost use Rattle.serde_json.specs.View.{view, items_view, members_view};
ghost use Rattle.fc_spec.specs.documents.Val.{same_text};
ghost use Rattle.fc_spec.specs.requests.RequestFault.{missing_parameter};
ghost use Rattle.fc_spec.specs.requests.RequestWalk as walk;
ghost use Rattle.fc_spec.specs.requests.DomainReading as reading;
ghost use Rattle.fc_base.specs.Answers.{Answers};
ghost use Rattle.fc_facet.specs.FaultView.{fault_view};

use fc_base::Refusal;
use fc_base::json::{has_only, member};
use fc_facet::QFault;
use serde_json::{Map, Value};
use std::alloc::Global;

/// Every member has one of these names.
pub fn check_names(members: &Map<String, Value>, names: &[&str]) -> Result<(), Refusal<QFault>>
    ensures { Answers (λ _. tt) fault_view result
        (walk.check_names (map (λ name. name.now) names.now) (members_view members.now.entries)) }
{
    if !has_only(members, names) {
        return Err(Refusal::Fault(QFault::UnknownKey));
    }
    Ok(())
}

/// The member of this name, which has to be there.
pub fn required<'v>(
    members: &'v Map<String, Value>,
    name: &str,
) -> Result<&'v Value, Refusal<QFault>>
    ensures { Answers (λ json. view json.now) fault_view result
        (ok_or (get_member name.now (members_view members.now.entries)) missing_parameter) }
{
    match member(members, name) {
        Some(json) => Ok(json),
        None => Err(Refusal::Fault(QFault::MissingParameter)),
    }
}

/// A whole number of 64 bits signed.
pub(crate) fn integer_in(json: &Value) -> Result<i64, Refusal<QFault>>
    ensures { Answers (λ number. number) fault_view result (walk.integer_in (view json.now)) }
{
    match json.as_i64() {
        Some(number) => Ok(number),
        None => Err(Refusal::Fault(QFault::BadParameter)),
    }
}

/// A whole number from one to another, both included.
pub(crate) fn whole_in(json: &Value, low: i64, high: i64) -> Result<i64, Refusal<QFault>>
    ensures { Answers (λ number. number) fault_view result (walk.whole_in low high (view json.now)) }
{
    let number = integer_in(json)?;
    if number < low || high < number {
        return Err(Refusal::Fault(QFault::BadParameter));
    }
    Ok(number)
}

/// `true` or `false`.
pub(crate) fn truth_in(json: &Value) -> Result<bool, Refusal<QFault>>
    ensures { Answers (λ truth. truth) fault_view result (walk.truth_in (view json.now)) }
{
    match json.as_bool() {
        Some(truth) => Ok(truth),
        None => Err(Refusal::Fault(QFault::BadParameter)),
    }
}

/// `true` or `false`; `false` where the member is absent.
pub fn optional_truth(members: &Map<String, Value>, name: &str) -> Result<bool, Refusal<QFault>>
    ensures { Answers (λ truth. truth) fault_view result
        (walk.said_or walk.truth_in false (get_member name.now (members_view members.now.entries))) }
{
    match member(members, name) {
        Some(json) => truth_in(json),
        None => Ok(false),
    }
}

/// The bytes are those of the word.
pub fn is_word(text: &[u8], word: &str) -> bool
    ensures { result ≡ same_text text.now word.now }
{
    text == word.as_bytes()
}

/// A text.
pub fn text_in(json: &Value) -> Result<&str, Refusal<QFault>>
    ensures { Answers (λ text. text.now) fault_view result (walk.text_in (view json.now)) }
{
    match json.as_str() {
        Some(text) => Ok(text),
        None => Err(Refusal::Fault(QFault::BadParameter)),
    }
}

// The texts of a list, where all its items are texts.
fn texts_of<'v>(alloc: Global, list: &'v [Value]) -> Result<Vec<&'v str>, Refusal<QFault>>
    ensures { Answers (λ texts. map (λ text. text.now) texts.items) fault_view result
        (walk.each_item walk.text_in (items_view list.now)) }
{
    let mut texts = Vec::new(alloc);
    for json in list {
        let text = text_in(json)?;
        texts.push(text)?;
    }
    Ok(texts)
}

/// A text, or a list of texts.
pub(crate) fn texts_in(alloc: Global, json: &Value) -> Result<Vec<&str>, Refusal<QFault>>
    ensures { Answers (λ texts. map (λ text. text.now) texts.items) fault_view result
        (reading.texts_in (view json.now)) }
{
    match json {
        Value::String(text) => Ok(vec![in alloc; text.as_str()]?),
        Value::Array(list) => texts_of(alloc, list),
        _ => Err(Refusal::Fault(QFault::BadParameter)),
    }
}

/// An object's members; any other value has this fault.
pub(crate) fn object_in(json: &Value, fault: QFault) -> Result<&Map<String, Value>, Refusal<QFault>>
    ensures { Answers (λ members. members_view members.now.entries) fault_view result
        (ok_or (as_object (view json.now)) (fault_view fault)) }
{
    match json.as_object() {
        Some(members) => Ok(members),
        None => Err(Refusal::Fault(fault)),
    }
}
