// The parameters of a range facet.
ghost use Rattle.std.specs.Prelude.{◌≡◌, ◌<◌, ◌||◌, [], codes, map, length};
ghost use Rattle.std.specs.List.{list_all, list_any};
ghost use Rattle.serde_json.specs.Find.{get_member};
ghost use Rattle.serde_json.specs.View.{view, members_view};
ghost use Rattle.fc_spec.specs.documents.Val.{same_text};
ghost use Rattle.fc_spec.specs.words.Lists.{is_empty};
ghost use Rattle.fc_spec.specs.requests.FacetReading as reading;
ghost use Rattle.fc_spec.specs.requests.RequestWalk.{said_or};
ghost use Rattle.fc_base.specs.Answers.{Answers};
ghost use Rattle.fc_facet.specs.FaultView.{fault_view};
ghost use Rattle.fc_facet.specs.KindView.{range_view};
ghost use Rattle.fc_parameters.specs.RangeParts.{words_behind, GoesOn};

use crate::fields::{field_in, holds_integers};
use crate::words::{integer_in, optional_truth, required, texts_in};
use fc_base::json::{is_same, member};
use fc_base::{FieldId, Refusal, Schema};
use fc_facet::{QFault, Range};
use serde_json::{Map, Value};
use std::alloc::Global;

pub(crate) const OTHER: [&str; 5] = ["before", "after", "between", "none", "all"];

pub(crate) const INCLUDE: [&str; 5] = ["lower", "upper", "edge", "outer", "all"];

// Whether the word is among these texts.
fn has_word(texts: &[&str], word: &str) -> bool
    ensures { result ≡ list_any (same_text word.now) (map (λ text. text.now) texts.now) }
{
    for text in texts {
        if is_same(word, text) {
            return true;
        }
    }
    false
}

fn are_words(texts: &[&str], words: &[&str]) -> bool
    ensures { result ≡ list_all (λ text. list_any (same_text text) (map (λ word. word.now) words.now))
        (map (λ text. text.now) texts.now) }
{
    for text in texts {
        if !has_word(words, text) {
            return false;
        }
    }
    true
}

// A word of these, or a list of them.
fn words_of<'v>(
    alloc: Global,
    json: &'v Value,
    words: &[&str],
) -> Result<Vec<&'v str>, Refusal<QFault>>
    ensures { Answers (λ texts. map (λ text. text.now) texts.items) fault_view result
        (reading.words_in (map (λ word. word.now) words.now) (view json.now)) }
{
    let texts = texts_in(alloc, json)?;
    if !are_words(texts.as_slice(), words) {
        return Err(Refusal::Fault(QFault::BadParameter));
    }
    Ok(texts)
}

// None where the member is absent.
pub(crate) fn words_in<'v>(
    alloc: Global,
    members: &'v Map<String, Value>,
    name: &str,
    words: &[&str],
) -> Result<Vec<&'v str>, Refusal<QFault>>
    ensures { Answers (λ texts. map (λ text. text.now) texts.items) fault_view result
        (said_or (reading.words_in (map (λ word. word.now) words.now)) []
        (get_member name.now (members_view members.now.entries))) }
{
    match member(members, name) {
        Some(json) => words_of(alloc, json, words),
        None => Ok(Vec::new(alloc)),
    }
}

pub(crate) fn asks_for(texts: &[&str], word: &str) -> bool
    ensures { result ≡ reading.asks_for word.now (map (λ text. text.now) texts.now) }
{
    has_word(texts, word) || has_word(texts, "all")
}

// `none` beside others wins.
pub(crate) fn asks_beside(texts: &[&str], word: &str) -> bool
    ensures { result ≡ reading.asks_beside word.now (map (λ text. text.now) texts.now) }
{
    asks_for(texts, word) && !has_word(texts, "none")
}

// `lower` where no end is named.
pub(crate) fn asks_for_lower(texts: &[&str]) -> bool
    ensures { result ≡ (is_empty (map (λ text. text.now) texts.now)
        || reading.asks_for (codes "lower") (map (λ text. text.now) texts.now)) }
{
    texts.is_empty() || asks_for(texts, "lower")
}

fn without_words(field: FieldId, start: i64, end: i64, gap: i64, hardend: bool) -> Range
    ensures view { range_view result ≡ reading.range_of field.0 start end gap hardend [] [] }
    ensures gap { result.gap ≡ gap }
{
    Range {
        field,
        start,
        end,
        gap,
        hardend,
        before: false,
        after: false,
        between: false,
        lower: true,
        upper: false,
        edge: false,
        outer: false,
    }
}

// The range with these words.
fn with_words(range: Range, other: &[&str], include: &[&str]) -> Range
    ensures { range_view result ≡ reading.range_of range.field.0 range.start range.end range.gap range.hardend
        (map (λ text. text.now) other.now) (map (λ text. text.now) include.now) }
{
    Range {
        before: asks_beside(other, "before"),
        after: asks_beside(other, "after"),
        between: asks_beside(other, "between"),
        lower: asks_for_lower(include),
        upper: asks_for(include, "upper"),
        edge: asks_for(include, "edge"),
        outer: asks_for(include, "outer"),
        ..range
    }
}

// The field and the numbers of a range facet; behind `hardend` its last end and the number of its gaps
// are tested.
fn numbers_in(schema: &Schema, members: &Map<String, Value>) -> Result<Range, Refusal<QFault>>
    ensures { GoesOn (λ range. words_behind (members_view members.now.entries) (range_view range)) result
        (reading.range_parts schema.now (members_view members.now.entries)) }
{
    let named = required(members, "field")?;
    let field = field_in(schema, named)?;
    if !holds_integers(schema, field) {
        return Err(Refusal::Fault(QFault::WrongFieldType));
    }
    let first = required(members, "start")?;
    let start = integer_in(first)?;
    let last = required(members, "end")?;
    let end = integer_in(last)?;
    if end < start {
        return Err(Refusal::Fault(QFault::BadParameter));
    }
    let step = required(members, "gap")?;
    let gap = integer_in(step)?;
    if gap <= 0 {
        return Err(Refusal::Fault(QFault::BadParameter));
    }
    let hardend = optional_truth(members, "hardend")?;
    let range = without_words(field, start, end, gap, hardend);
    if !range.has_long_end() {
        return Err(Refusal::Fault(QFault::BadParameter));
    }
    if range.gap_count() > 10_000 {
        return Err(Refusal::Fault(QFault::TooLarge));
    }
    Ok(range)
}

/// What a range facet says, in the order of the guide's parameters. (Guide: JSON Facet API, "Range Facet")
pub fn range_in(
    alloc: Global,
    schema: &Schema,
    members: &Map<String, Value>,
) -> Result<Range, Refusal<QFault>>
    ensures { Answers range_view fault_view result
        (reading.range_parts schema.now (members_view members.now.entries)) }
{
    let range = numbers_in(schema, members)?;
    let other = words_in(alloc, members, "other", &OTHER)?;
    let include = words_in(alloc, members, "include", &INCLUDE)?;
    Ok(with_words(range, other.as_slice(), include.as_slice()))
}
