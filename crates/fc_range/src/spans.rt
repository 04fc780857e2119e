// From which integer to which the buckets of a range facet reach.
ghost use Rattle.std.specs.Prelude.{◌≡◌, ◌&&◌, ℤ, ◌≤ℤ◌, MatchOption, int_le, true, false};
ghost use Rattle.fc_spec.specs.documents.IntegerTexts.{is_long};
ghost use Rattle.fc_spec.specs.requests.Buckets as bucket;
ghost use Rattle.fc_spec.specs.requests.Gaps as definition;
ghost use Rattle.fc_facet.specs.KindView.{range_view};
ghost use Rattle.fc_facet.specs.RangeGaps.{HasFewGaps};
ghost use Rattle.fc_partial.specs.View.{key_view};
ghost use Rattle.fc_domain.specs.Within.{PassesFromTo};
ghost use Rattle.fc_range.specs.HeldEnds.{is_alone, is_from, is_to};

use crate::gaps::{
    high_end_of, holds_end, holds_high, holds_low, holds_start, is_same, low_end_of,
};
use fc_facet::Range;
use fc_partial::Key;

// The least integer above a number, or from it on where it is held.
fn least_from(low: i128, with_low: bool) -> Option<i64>
    ensures { MatchOption result
        ((z : ℤ) → is_long z ≡ true → is_from low with_low z ≡ false)
        (λ least. (z : ℤ) → is_long z ≡ true → is_from low with_low z ≡ int_le least z) }
{
    if low < i128::from(i64::MIN) {
        return Some(i64::MIN);
    }
    match i64::try_from(low) {
        Ok(number) if with_low => Some(number),
        Ok(number) => number.checked_add(1),
        Err(_) => None,
    }
}

// The greatest integer below a number, or up to it where it is held.
fn greatest_to(high: i128, with_high: bool) -> Option<i64>
    ensures { MatchOption result
        ((z : ℤ) → is_long z ≡ true → is_to high with_high z ≡ false)
        (λ greatest. (z : ℤ) → is_long z ≡ true → is_to high with_high z ≡ int_le z greatest) }
{
    if i128::from(i64::MAX) < high {
        return Some(i64::MAX);
    }
    match i64::try_from(high) {
        Ok(number) if with_high => Some(number),
        Ok(number) => number.checked_sub(1),
        Err(_) => None,
    }
}

// Of 64 bits signed, the integers from one number to another, of which those that are held.
fn from_to(low: i128, with_low: bool, high: i128, with_high: bool) -> (i64, i64)
    ensures { PassesFromTo result.0 result.1 (λ z. is_from low with_low z && is_to high with_high z) }
{
    match (least_from(low, with_low), greatest_to(high, with_high)) {
        (Some(least), Some(greatest)) => (least, greatest),
        _ => (1, 0),
    }
}

// Whether both ends are one number, which one of them holds.
fn is_alone(low: i128, with_low: bool, high: i128, with_high: bool) -> bool
    ensures { result ≡ is_alone low with_low high with_high }
{
    is_same(low, high) && (with_low || with_high)
}

// Of 64 bits signed, the integers between the ends, and those ends that are held.
fn between(low: i128, with_low: bool, high: i128, with_high: bool) -> (i64, i64)
    requires { low ≤ℤ high }
    ensures { PassesFromTo result.0 result.1 (definition.lies_in low with_low high with_high) }
{
    if is_alone(low, with_low, high, with_high) {
        return from_to(low, true, high, true);
    }
    from_to(low, with_low, high, with_high)
}

fn of_gap(range: &Range, number: u32) -> (i64, i64)
    requires { HasFewGaps (range_view range.now) }
    ensures { PassesFromTo result.0 result.1 (definition.in_gap (range_view range.now) number) }
{
    between(
        low_end_of(range, number),
        holds_low(range, number),
        high_end_of(range, number),
        holds_high(range, number),
    )
}

fn of_before(range: &Range) -> (i64, i64)
    ensures { PassesFromTo result.0 result.1 (definition.in_before (range_view range.now)) }
{
    match greatest_to(i128::from(range.start), range.outer || !holds_start(range)) {
        Some(greatest) => (i64::MIN, greatest),
        None => (1, 0),
    }
}

fn of_between(range: &Range) -> (i64, i64)
    requires { HasFewGaps (range_view range.now) }
    ensures { PassesFromTo result.0 result.1 (definition.in_between (range_view range.now)) }
{
    between(
        i128::from(range.start),
        holds_start(range),
        range.last_end(),
        holds_end(range),
    )
}

fn of_after(range: &Range) -> (i64, i64)
    requires { HasFewGaps (range_view range.now) }
    ensures { PassesFromTo result.0 result.1 (definition.in_after (range_view range.now)) }
{
    match least_from(range.last_end(), range.outer || !holds_end(range)) {
        Some(least) => (least, i64::MAX),
        None => (1, 0),
    }
}

/// From the first to the second lie the integers of 64 bits signed that the bucket holds. Where it holds none,
/// the second is below the first.
pub fn integers_of(range: &Range, key: &Key) -> (i64, i64)
    requires { HasFewGaps (range_view range.now) }
    ensures { PassesFromTo result.0 result.1
        (bucket.holds_integer (range_view range.now) (key_view key.now)) }
{
    match key {
        Key::Gap(number) => of_gap(range, *number),
        Key::Before => of_before(range),
        Key::Between => of_between(range),
        Key::After => of_after(range),
        Key::Value(_) | Key::Missing | Key::Whole => (1, 0),
    }
}
