// The statistic that a text asks for.
ghost use Rattle.std.specs.Prelude.{◌≡◌, ◌≤◌, length, option_map};
ghost use Rattle.std.specs.List.{list_all, prefix_len, suffix_len};
ghost use Rattle.fc_spec.specs.queries.FilterReading.{cut_at};
ghost use Rattle.fc_spec.specs.requests.StatisticReading as reading;
ghost use Rattle.fc_base.specs.Answers.{Answers};
ghost use Rattle.fc_base.specs.StatisticView.{stat_kind_view, stat_view};
ghost use Rattle.fc_facet.specs.FaultView.{fault_view};

use crate::fields::holds_integers;
use crate::words::is_word;
use fc_base::{Refusal, Schema, Stat, StatKind, are_name_bytes};
use fc_facet::QFault;

// How many spaces stand in front.
fn spaces_before(text: &[u8]) -> usize
    ensures count { result ≡ prefix_len reading.is_space text.now }
    ensures below { result ≤ length text.now }
{
    text.iter().take_while(|byte| **byte == b' ').count()
}

// How many spaces stand at the end.
fn spaces_behind(text: &[u8]) -> usize
    ensures count { result ≡ suffix_len reading.is_space text.now }
    ensures below { result ≤ length text.now }
{
    text.iter().rev().take_while(|byte| **byte == b' ').count()
}

// The bytes without the spaces at both ends.
fn stripped(text: &[u8]) -> &[u8]
    ensures { result.now ≡ reading.stripped reading.is_space text.now }
{
    let rest = &text[spaces_before(text)..];
    &rest[..rest.len() - spaces_behind(rest)]
}

fn are_spaces(text: &[u8]) -> bool
    ensures { result ≡ list_all reading.is_space text.now }
{
    text.iter().all(|byte| *byte == b' ')
}

// One or more letters, digits and `_`.
fn is_row(text: &[u8]) -> bool
    ensures { result ≡ reading.is_row text.now }
{
    !text.is_empty() && are_name_bytes(text)
}

// What stands before the first `(`, and what behind it.
fn cut_at_opening(text: &str) -> Option<(&str, &str)>
    ensures { option_map (λ x. (x.0.now, x.1.now)) result ≡ cut_at 40 text.now }
{
    text.split_once('(')
}

// What stands before the first `)`, and what behind it.
fn cut_at_closing(text: &str) -> Option<(&str, &str)>
    ensures { option_map (λ x. (x.0.now, x.1.now)) result ≡ cut_at 41 text.now }
{
    text.split_once(')')
}

fn statistic_named(name: &[u8]) -> Option<StatKind>
    ensures { option_map stat_kind_view result ≡ reading.statistic_named name.now }
{
    if is_word(name, "sum") {
        Some(StatKind::Sum)
    } else if is_word(name, "min") {
        Some(StatKind::Min)
    } else if is_word(name, "max") {
        Some(StatKind::Max)
    } else if is_word(name, "countvals") {
        Some(StatKind::CountVals)
    } else if is_word(name, "missing") {
        Some(StatKind::Missing)
    } else {
        None
    }
}

// The others are of integers.
fn takes_texts(of: StatKind) -> bool
    ensures { result ≡ reading.takes_texts (stat_kind_view of) }
{
    match of {
        StatKind::CountVals | StatKind::Missing => true,
        StatKind::Sum | StatKind::Min | StatKind::Max => false,
    }
}

// A name, `(`, a row of letters, digits and `_`, and `)`: the name and the row.
fn called(text: &str) -> Option<(&[u8], &[u8])>
    ensures { option_map (λ call. (call.0.now, call.1.now)) result ≡ reading.called text.now }
{
    let (name, rest) = cut_at_opening(text)?;
    let (row, end) = cut_at_closing(rest)?;
    let row = stripped(row.as_bytes());
    if !are_spaces(end.as_bytes()) || !is_row(row) {
        return None;
    }
    Some((stripped(name.as_bytes()), row))
}

/// The name of the field whose different values are counted, where the text is a `unique`.
/// (Guide: JSON Facet API, "Stat Facet Functions")
pub fn unique_called(text: &str) -> Option<&[u8]>
    ensures { option_map (λ name. name.now) result ≡ reading.unique_called text.now }
{
    let (name, row) = called(text)?;
    if is_word(name, "unique") {
        Some(row)
    } else {
        None
    }
}

/// A name, `(`, a field's name and `)`, with spaces allowed between all parts and at both ends.
/// (Guide: JSON Facet API, "Stat Facet Functions")
pub fn statistic_of(schema: &Schema, text: &str) -> Result<Stat, Refusal<QFault>>
    ensures { Answers stat_view fault_view result (reading.statistic_of schema.now text.now) }
{
    let (name, row) = called(text).ok_or(QFault::BadStatistic)?;
    let of = statistic_named(name).ok_or(QFault::BadStatistic)?;
    let field = schema.find(row).ok_or(QFault::UnknownField)?;
    if !takes_texts(of) && !holds_integers(schema, field) {
        return Err(Refusal::Fault(QFault::WrongFieldType));
    }
    Ok(Stat { of, field })
}
