// The gap that an integer lies inside of.
ghost use Rattle.std.specs.Prelude.{◌≡◌, ◌==◌, ◌<◌, ◌≤ℤ◌, ℕ, IfSome};
ghost use Rattle.fc_spec.specs.requests.Gaps as definition;
ghost use Rattle.fc_facet.specs.KindView.{range_view};
ghost use Rattle.fc_facet.specs.RangeGaps.{HasFewGaps};

use fc_facet::Range;

// The number of the one gap that holds the integer, where that is seen without its ends: the integer lies at no end of
// a gap, and in no last gap that may be cut off.
pub(crate) fn gap_around(range: &Range, gaps: u32, x: i64) -> Option<u32>
    requires few { HasFewGaps (range_view range.now) }
    requires gaps { gaps ≡ definition.gap_count (range_view range.now) }
    requires not_below { range.now.start ≤ℤ x }
    ensures there { IfSome result (λ number. number < definition.gap_count (range_view range.now)) }
    ensures alone { IfSome result (λ number.
        (i : ℕ) → definition.in_gap (range_view range.now) i x ≡ (i == number)) }
{
    let apart = x.abs_diff(range.start);
    let step = range.gap.unsigned_abs();
    let number = apart / step;
    if apart % step == 0 || number >= u64::from(gaps) {
        return None;
    }
    if range.hardend && number + 1 == u64::from(gaps) {
        return None;
    }
    Some(number as u32)
}
