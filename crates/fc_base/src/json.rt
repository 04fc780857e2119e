//! Looking into the JSON objects of scripts and requests, and writing lines of JSON.
ghost use Rattle.std.specs.Prelude.{◌≡◌, [], ◌∷◌, ◌++◌, false, map, option_map, IfOk};
ghost use Rattle.std.specs.List.{list_any};
ghost use Rattle.serde_json.specs.Find.{get_member};
ghost use Rattle.serde_json.specs.View.{view, members_view};
ghost use Rattle.serde_json.specs.Written.{has_float, compact_text};
ghost use Rattle.fc_spec.specs.scripts.JsonObjects as objects;
ghost use Rattle.fc_spec.specs.documents.Val.{same_text};

use crate::WantMemory;
use serde_json::{Map, Value};
use std::alloc::Global;

/// The two texts are one.
pub fn is_same(a: &str, b: &str) -> bool
    ensures { result ≡ same_text a.now b.now }
{
    a == b
}

/// The name and the value of an object's only member.
pub fn sole_member(value: &Value) -> Option<(&str, &Value)>
    ensures { option_map (λ found. (found.0.now, view found.1.now)) result ≡ objects.sole_member (view value.now) }
{
    let members = value.as_object()?;
    if members.len() != 1 {
        return None;
    }
    let (name, inside) = members.first_key_value()?;
    Some((name.as_str(), inside))
}

/// The member of this name.
pub fn member<'v>(members: &'v Map<String, Value>, name: &str) -> Option<&'v Value>
    ensures { option_map (λ json. view json.now) result
        ≡ get_member name.now (members_view members.now.entries) }
{
    members.get(name)
}

fn is_among(name: &str, names: &[&str]) -> bool
    ensures { result ≡ list_any (λ other. same_text name.now other.now) names.now }
{
    names.iter().any(|other| is_same(name, other))
}

/// Whether every member has one of these names.
pub fn has_only(members: &Map<String, Value>, names: &[&str]) -> bool
    ensures { result
        ≡ objects.only_names (map (λ name. name.now) names.now) (members_view members.now.entries) }
{
    for (name, _) in members {
        if !is_among(name.as_str(), names) {
            return false;
        }
    }
    true
}

/// The compact text of a value, and LF.
pub fn text_line(alloc: Global, value: &Value) -> Result<Vec<u8>, WantMemory>
    requires { has_float (view value.now) ≡ false }
    ensures { IfOk result (λ line. line.items ≡ compact_text (view value.now) ++ 10 ∷ []) }
{
    let mut line = value.to_vec(alloc)?;
    line.push(b'\n')?;
    Ok(line)
}
