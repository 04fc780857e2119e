// The sort that a terms facet asks for.
ghost use Rattle.std.specs.Prelude.{◌≡◌, ◌<◌, ◌≤◌, ◌^◌, length, option_map};
ghost use Rattle.std.specs.List.{prefix_len, suffix_len};
ghost use Rattle.std.specs.Option.{option_and_then};
ghost use Rattle.serde_json.specs.View.{view};
ghost use Rattle.fc_spec.specs.documents.Val.{same_text};
ghost use Rattle.fc_spec.specs.requests.RequestWalk.{said_or};
ghost use Rattle.fc_spec.specs.requests.SortReading as reading;
ghost use Rattle.fc_spec.specs.scripts.JsonObjects as objects;
ghost use Rattle.fc_spec.specs.requests.StatisticReading as texts;
ghost use Rattle.fc_base.specs.Answers.{Answers};
ghost use Rattle.fc_facet.specs.FaultView.{fault_view};
ghost use Rattle.fc_facet.specs.KindView.{sort_key_view, sort_view};
ghost use Rattle.fc_request.specs.NodeView.{node_view, nodes_view};
ghost use Rattle.fc_request.specs.SortView.{named_view};

use crate::Node;
use fc_base::Refusal;
use fc_base::json::sole_member;
use fc_facet::{QFault, Sort, SortKey};
use fc_parameters::is_word;
use serde_json::Value;

// What is sorted by, by its name, and whether descending, where that is said.
#[derive(Clone, Copy)]
struct NamedSort<'v> {
    name: &'v [u8],
    descending: Option<bool>,
}

// Space, tab, LF or CR.
fn is_white(byte: u8) -> bool
    ensures { result ≡ reading.is_white byte }
{
    byte == b' ' || byte == b'\t' || byte == b'\n' || byte == b'\r'
}

fn whites_before(text: &[u8]) -> usize
    ensures count { result ≡ prefix_len reading.is_white text.now }
    ensures within { result ≤ length text.now }
{
    text.iter().take_while(|byte| is_white(**byte)).count()
}

fn whites_behind(text: &[u8]) -> usize
    ensures count { result ≡ suffix_len reading.is_white text.now }
    ensures within { result ≤ length text.now }
{
    text.iter()
        .rev()
        .take_while(|byte| is_white(**byte))
        .count()
}

// The bytes without the white space at both ends.
fn stripped(text: &[u8]) -> &[u8]
    ensures { result.now ≡ texts.stripped reading.is_white text.now }
{
    let rest = &text[whites_before(text)..];
    &rest[..rest.len() - whites_behind(rest)]
}

// A name and a direction behind a space, or a name alone.
fn split_sort(text: &[u8]) -> NamedSort<'_>
    ensures { named_view result ≡ reading.split_sort text.now }
{
    if let Some(name) = text.strip_suffix(b" asc") {
        return NamedSort {
            name: stripped(name),
            descending: Some(false),
        };
    }
    if let Some(name) = text.strip_suffix(b" desc") {
        return NamedSort {
            name: stripped(name),
            descending: Some(true),
        };
    }
    NamedSort {
        name: text,
        descending: None,
    }
}

fn direction_of(json: &Value) -> Option<bool>
    ensures { result ≡ reading.direction_of (view json.now) }
{
    let text = json.as_str()?;
    if is_word(text.as_bytes(), "asc") {
        Some(false)
    } else if is_word(text.as_bytes(), "desc") {
        Some(true)
    } else {
        None
    }
}

// The only member of an object.
fn member_sort(json: &Value) -> Option<NamedSort<'_>>
    ensures { option_map named_view result
        ≡ option_and_then reading.member_sort (objects.sole_member (view json.now)) }
{
    let (name, direction) = sole_member(json)?;
    let descending = direction_of(direction)?;
    Some(NamedSort {
        name: name.as_bytes(),
        descending: Some(descending),
    })
}

fn named_sort(json: &Value) -> Result<NamedSort<'_>, Refusal<QFault>>
    ensures { Answers named_view fault_view result (reading.named_sort (view json.now)) }
{
    match json.as_str() {
        Some(text) => Ok(split_sort(stripped(text.as_bytes()))),
        None => match member_sort(json) {
            Some(named) => Ok(named),
            None => Err(Refusal::Fault(QFault::BadParameter)),
        },
    }
}

fn has_name(node: &Node, name: &[u8]) -> bool
    ensures { result ≡ same_text name.now (node_view node.now).0 }
{
    name == node.name.bytes()
}

// The number of the first statistic of this name.
fn statistic_number(nodes: &[Node], name: &[u8]) -> Option<u32>
    requires { length nodes.now < 2 ^ 32 }
    ensures { result ≡ reading.statistic_number name.now (nodes_view nodes.now) }
{
    let mut number = 0;
    for node in nodes {
        if node.stat().is_some() {
            if has_name(node, name) {
                return Some(number);
            }
            number += 1;
        }
    }
    None
}

fn sort_key(nodes: &[Node], name: &[u8]) -> Option<SortKey>
    requires { length nodes.now < 2 ^ 32 }
    ensures { option_map sort_key_view result ≡ reading.sort_key name.now (nodes_view nodes.now) }
{
    if is_word(name, "count") {
        Some(SortKey::Count)
    } else if is_word(name, "index") {
        Some(SortKey::Index)
    } else {
        Some(SortKey::Stat(statistic_number(nodes, name)?))
    }
}

// Without a direction ascending for `index`, descending for any other.
fn is_descending(named: NamedSort) -> bool
    ensures { result ≡ reading.is_descending (named_view named.entry) }
{
    match named.descending {
        Some(descending) => descending,
        None => !is_word(named.name, "index"),
    }
}

fn sort_of(nodes: &[Node], json: &Value) -> Result<Sort, Refusal<QFault>>
    requires { length nodes.now < 2 ^ 32 }
    ensures { Answers sort_view fault_view result (reading.sort_of (nodes_view nodes.now) (view json.now)) }
{
    let named = named_sort(json)?;
    match sort_key(nodes, named.name) {
        Some(by) => Ok(Sort {
            by,
            descending: is_descending(named),
        }),
        None => Err(Refusal::Fault(QFault::UnknownSort)),
    }
}

// By count, the greatest first.
fn sorts_by_count(sort: Sort) -> bool
    ensures { result ≡ reading.sorts_by_count (sort_view sort) }
{
    let by_count = match sort.by {
        SortKey::Count => true,
        SortKey::Index | SortKey::Stat(_) => false,
    };
    by_count && sort.descending
}

/// What is exact stands outermost, and is sorted by count, the greatest first.
pub(crate) fn allows_exact(outermost: bool, exact: bool, sort: Sort) -> bool
    ensures { result ≡ reading.allows_exact outermost exact (sort_view sort) }
{
    !exact || (outermost && sorts_by_count(sort))
}

/// `count`, `index` or a statistic directly under the facet, whose nodes these are; by count,
/// descending, where nothing is said. (Guide: JSON Facet API, "Terms Facet", `sort`; Sorting Facets By
/// Nested Functions)
pub(crate) fn sort_in(nodes: &[Node], json: Option<&Value>) -> Result<Sort, Refusal<QFault>>
    requires { length nodes.now < 2 ^ 32 }
    ensures { Answers sort_view fault_view result
        (said_or (reading.sort_of (nodes_view nodes.now)) reading.default_sort
        (option_map (λ json. view json.now) json.entry)) }
{
    match json {
        Some(json) => sort_of(nodes, json),
        None => Ok(Sort {
            by: SortKey::Count,
            descending: true,
        }),
    }
}
