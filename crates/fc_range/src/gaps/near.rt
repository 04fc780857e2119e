// Which gaps are near an integer.
ghost use Rattle.std.specs.Prelude.{◌≡◌, ◌+◌, ◌≤ℤ◌, ◌⊎◌, true};
ghost use Rattle.fc_spec.specs.requests.Gaps as definition;
ghost use Rattle.fc_facet.specs.KindView.{range_view};
ghost use Rattle.fc_facet.specs.RangeGaps.{HasFewGaps};

use fc_facet::Range;

// The number of a gap: the integer lies in no gap but this one and the one before it. (It is how many whole gaps fit
// between the start and the integer, which no clause says.)
pub(crate) fn gaps_before(range: &Range, x: i64) -> u64
    requires few { HasFewGaps (range_view range.now) }
    requires not_below { range.now.start ≤ℤ x }
    ensures { (i : _) → definition.in_gap (range_view range.now) i x ≡ true → (i ≡ result) ⊎ (i + 1 ≡ result) }
{
    x.abs_diff(range.start) / range.gap.unsigned_abs()
}
