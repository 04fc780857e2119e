// Numbers, keys and statistics are read from the front of bytes.
ghost use Rattle.std.specs.Prelude.{map};
ghost use Rattle.std.specs.Int.{w32};
ghost use Rattle.fc_base.specs.Answers.{Answers, one_fault};
ghost use Rattle.fc_partial.specs.StatsView.{stats_view};
ghost use Rattle.fc_partial.specs.View.{key_view, stat_value_view};
ghost use Rattle.fc_wire.specs.FieldReading.{number_at, long_at, integer_at, many, text_at, key_at, value_at, stats_at};

use crate::WireFault;
use crate::room::places_for;
use fc_base::{Name, Refusal, Val};
use fc_partial::{Key, StatValue, Stats};
use std::alloc::Global;
use std::mem::size_of;
use std::str;

fn u32_at(bytes: &[u8]) -> Result<(u32, &[u8]), Refusal<WireFault>>
    ensures { Answers (λ x. (x.0, x.1.now)) one_fault result (number_at w32 bytes.now) }
{
    match bytes.split_first_chunk::<4>() {
        Some((front, rest)) => Ok((u32::from_le_bytes(*front), rest)),
        None => Err(Refusal::Fault(WireFault)),
    }
}

pub(crate) fn u64_at(bytes: &[u8]) -> Result<(u64, &[u8]), Refusal<WireFault>>
    ensures { Answers (λ x. (x.0, x.1.now)) one_fault result (long_at bytes.now) }
{
    match bytes.split_first_chunk::<8>() {
        Some((front, rest)) => Ok((u64::from_le_bytes(*front), rest)),
        None => Err(Refusal::Fault(WireFault)),
    }
}

#[tactic(auto, unfolding(crate::specs::FieldReading::integer_at))]
fn i64_at(bytes: &[u8]) -> Result<(i64, &[u8]), Refusal<WireFault>>
    ensures { Answers (λ x. (x.0, x.1.now)) one_fault result (integer_at bytes.now) }
{
    let (number, rest) = u64_at(bytes)?;
    Ok((number.cast_signed(), rest))
}

#[tactic(auto, unfolding(crate::specs::FieldReading::text_at))]
fn text_at(alloc: Global, bytes: &[u8]) -> Result<(Name, &[u8]), Refusal<WireFault>>
    ensures { Answers (λ x. (x.0, x.1.now)) one_fault result (text_at bytes.now) }
{
    let (length, rest) = u64_at(bytes)?;
    let length = length as usize;
    if rest.len() < length {
        return Err(Refusal::Fault(WireFault));
    }
    let (front, rest) = rest.split_at(length);
    match str::from_utf8(front) {
        Ok(text) => Ok((Name::new(alloc, text)?, rest)),
        Err(_) => Err(Refusal::Fault(WireFault)),
    }
}

#[tactic(auto, unfolding(crate::specs::FieldReading::key_at))]
pub(crate) fn key_at(alloc: Global, bytes: &[u8]) -> Result<(Key, &[u8]), Refusal<WireFault>>
    ensures { Answers (λ x. (key_view x.0, x.1.now)) one_fault result (key_at bytes.now) }
{
    match bytes {
        [0, rest @ ..] => {
            let (text, rest) = text_at(alloc, rest)?;
            Ok((Key::Value(Val::Text(text)), rest))
        }
        [1, rest @ ..] => {
            let (number, rest) = i64_at(rest)?;
            Ok((Key::Value(Val::Long(number)), rest))
        }
        [2, rest @ ..] => Ok((Key::Missing, rest)),
        [3, rest @ ..] => {
            let (number, rest) = u32_at(rest)?;
            Ok((Key::Gap(number), rest))
        }
        [4, rest @ ..] => Ok((Key::Before, rest)),
        [5, rest @ ..] => Ok((Key::Between, rest)),
        [6, rest @ ..] => Ok((Key::After, rest)),
        [7, rest @ ..] => Ok((Key::Whole, rest)),
        _ => Err(Refusal::Fault(WireFault)),
    }
}

#[tactic(auto, unfolding(crate::specs::FieldReading::value_at))]
fn value_at(bytes: &[u8]) -> Result<(StatValue, &[u8]), Refusal<WireFault>>
    ensures { Answers (λ x. (stat_value_view x.0, x.1.now)) one_fault result (value_at bytes.now) }
{
    match bytes {
        [0, rest @ ..] => {
            let (number, rest) = i64_at(rest)?;
            Ok((StatValue::Number(number), rest))
        }
        [1, rest @ ..] => Ok((StatValue::Extreme(None), rest)),
        [2, rest @ ..] => {
            let (number, rest) = i64_at(rest)?;
            Ok((StatValue::Extreme(Some(number)), rest))
        }
        _ => Err(Refusal::Fault(WireFault)),
    }
}

// What the value of a statistic takes in memory.
const VALUE: usize = size_of::<StatValue>();

fn values_at(
    alloc: Global,
    count: u64,
    bytes: &[u8],
) -> Result<(Vec<StatValue>, &[u8]), Refusal<WireFault>>
    ensures { Answers (λ x. (map stat_value_view x.0.items, x.1.now)) one_fault result (many value_at count bytes.now) }
{
    let mut values = Vec::with_capacity(alloc, places_for(count, VALUE, bytes))?;
    let mut rest = bytes;
    for _ in 0..count {
        let (value, after) = value_at(rest)?;
        values.push(value)?;
        rest = after;
    }
    Ok((values, rest))
}

#[tactic(auto, unfolding(crate::specs::FieldReading::stats_at, crate::specs::FieldReading::counted))]
pub(crate) fn stats_at(alloc: Global, bytes: &[u8]) -> Result<(Stats, &[u8]), Refusal<WireFault>>
    ensures { Answers (λ x. (stats_view x.0, x.1.now)) one_fault result (stats_at bytes.now) }
{
    let (count, rest) = u64_at(bytes)?;
    let (number, rest) = u64_at(rest)?;
    let (values, rest) = values_at(alloc, number, rest)?;
    Ok((Stats { count, values }, rest))
}
