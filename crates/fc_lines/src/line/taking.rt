// What is taken out of a JSON value.
ghost use Rattle.std.specs.Prelude.{◌≡◌, option_map, string_bytes};
ghost use Rattle.serde_json.specs.Find.{as_object, get_member};
ghost use Rattle.serde_json.specs.View.{view, members_view};
ghost use Rattle.fc_spec.specs.scripts.JsonObjects.{sole_member};

use serde_json::{Map, Value};

/// The name and the value of an object's only member.
pub(super) fn take_sole_member(json: Value) -> Option<(String, Value)>
    ensures { option_map (λ found. (string_bytes found.0, view found.1)) result
        ≡ sole_member (view json) }
{
    let Value::Object(mut members) = json else {
        return None;
    };
    if members.len() != 1 {
        return None;
    }
    members.pop_first()
}

/// The members of an object.
pub(super) fn take_members(json: Value) -> Option<Map<String, Value>>
    ensures { option_map (λ members. members_view members.entries) result ≡ as_object (view json) }
{
    match json {
        Value::Object(members) => Some(members),
        _ => None,
    }
}

/// The value of the member of this name.
pub(super) fn take_member(members: &mut Map<String, Value>, name: &str) -> Option<Value>
    ensures { option_map view result ≡ get_member name.now (members_view members.old.entries) }
{
    members.remove(name)
}
