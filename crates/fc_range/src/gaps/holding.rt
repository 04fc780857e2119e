// Which integers the gaps of a range facet hold.
ghost use Rattle.std.specs.Prelude.{◌≡◌, ◌==◌, ◌&&◌, ◌||◌, int_lt};
ghost use Rattle.std.specs.Ordering.{int_eq};
ghost use Rattle.fc_spec.specs.requests.Gaps as definition;
ghost use Rattle.fc_facet.specs.KindView.{range_view};
ghost use Rattle.fc_facet.specs.RangeGaps.{HasFewGaps};

use super::ends::{high_end_of, is_last_gap, low_end_of};
use fc_facet::Range;

pub(crate) fn is_same(a: i128, b: i128) -> bool
    ensures { result ≡ int_eq a b }
{
    a.cmp(&b).is_eq()
}

fn is_below(a: i128, b: i128) -> bool
    ensures { result ≡ int_lt a b }
{
    a < b
}

// Strictly between the ends, or an end that is held.
fn lies_in(low: i128, with_low: bool, high: i128, with_high: bool, x: i128) -> bool
    ensures { result ≡ definition.lies_in low with_low high with_high x }
{
    (is_below(low, x) && is_below(x, high))
        || (with_low && is_same(low, x))
        || (with_high && is_same(high, x))
}

// Whether a gap holds its low end.
pub(crate) fn holds_low(range: &Range, number: u32) -> bool
    ensures { result ≡ (range.now.lower || (range.now.edge && (number == 0))) }
{
    range.lower || (range.edge && number == 0)
}

// Whether a gap holds its high end.
pub(crate) fn holds_high(range: &Range, number: u32) -> bool
    requires { HasFewGaps (range_view range.now) }
    ensures { result
        ≡ (range.now.upper || (range.now.edge && definition.is_last_gap (range_view range.now) number)) }
{
    range.upper || (range.edge && is_last_gap(range, number))
}

// Whether a gap holds an integer, by its number from 0.
pub(crate) fn is_in_gap(range: &Range, number: u32, x: i64) -> bool
    requires { HasFewGaps (range_view range.now) }
    ensures { result ≡ definition.in_gap (range_view range.now) number x }
{
    let with_low = holds_low(range, number);
    let with_high = holds_high(range, number);
    let low = low_end_of(range, number);
    lies_in(
        low,
        with_low,
        high_end_of(range, number),
        with_high,
        i128::from(x),
    )
}

// Whether the gaps together hold the start.
pub(crate) fn holds_start(range: &Range) -> bool
    ensures { result ≡ (range.now.lower || range.now.edge) }
{
    range.lower || range.edge
}

// Whether the gaps together hold the last high end.
pub(crate) fn holds_end(range: &Range) -> bool
    ensures { result ≡ (range.now.upper || range.now.edge) }
{
    range.upper || range.edge
}
