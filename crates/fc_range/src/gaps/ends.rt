// The ends of the buckets of a range facet.
ghost use Rattle.std.specs.Prelude.{◌≡◌, ◌^◌, ◌<◌, ◌≤◌, ◌*ℤ◌, ◌<ℤ◌, pos};
ghost use Rattle.fc_spec.specs.requests.Gaps as definition;
ghost use Rattle.fc_facet.specs.KindView.{range_view};
ghost use Rattle.fc_facet.specs.RangeGaps.{HasFewGaps};

use fc_facet::Range;

// How far the low end of a gap is from the start.
fn before_gap(range: &Range, number: u64) -> u128
    requires forward { pos 0 <ℤ range.now.gap }
    requires near { number ≤ 2 ^ 32 }
    ensures product { pos result ≡ pos number *ℤ range.now.gap }
    ensures small { result < 2 ^ 97 }
{
    u128::from(number) * u128::from(range.gap.unsigned_abs())
}

fn low_end(range: &Range, number: u64) -> i128
    requires forward { pos 0 <ℤ range.now.gap }
    requires near { number ≤ 2 ^ 32 }
    ensures { result ≡ definition.low_end (range_view range.now) number }
{
    i128::from(range.start) + before_gap(range, number) as i128
}

// Whether the gap is the last.
pub(crate) fn is_last_gap(range: &Range, number: u32) -> bool
    requires { HasFewGaps (range_view range.now) }
    ensures { result ≡ definition.is_last_gap (range_view range.now) number }
{
    u64::from(range.gaps()) == u64::from(number) + 1
}

// The low end of a gap, by its number from 0.
pub(crate) fn low_end_of(range: &Range, number: u32) -> i128
    requires { HasFewGaps (range_view range.now) }
    ensures { result ≡ definition.low_end (range_view range.now) number }
{
    low_end(range, u64::from(number))
}

// The high end of a gap.
pub(crate) fn high_end_of(range: &Range, number: u32) -> i128
    requires { HasFewGaps (range_view range.now) }
    ensures { result ≡ definition.high_end (range_view range.now) number }
{
    if range.hardend && is_last_gap(range, number) {
        return i128::from(range.end);
    }
    low_end(range, u64::from(number) + 1)
}
