// Which dates the gaps of a range facet hold.
ghost use Rattle.std.specs.Prelude.{◌≡◌, ◌+◌, ◌<◌, ◌≤◌, ◌⊎◌, ℕ, length, true};
ghost use Rattle.fc_spec.specs.documents.Val.{same_text};
ghost use Rattle.fc_spec.specs.requests.DateGaps as definition;
ghost use Rattle.fc_spec.specs.requests.DateGaps.{is_before};
ghost use Rattle.fc_facet.specs.KindView.{date_range_view};
ghost use Rattle.fc_facet.specs.RangeGaps.{HasFewEdges};

use crate::buckets::{holds_high, holds_low};
use fc_base::Name;
use fc_facet::DateRange;

fn is_earlier(date: &Name, other: &Name) -> bool
    ensures { result ≡ is_before date.now other.now }
{
    date.bytes().cmp(other.bytes()).is_lt()
}

fn is_same(date: &Name, other: &Name) -> bool
    ensures { result ≡ same_text date.now other.now }
{
    date.bytes().cmp(other.bytes()).is_eq()
}

// Strictly between the ends, or an end that is held.
fn lies_in(low: &Name, with_low: bool, high: &Name, with_high: bool, date: &Name) -> bool
    ensures { result ≡ definition.date_lies_in low.now with_low high.now with_high date.now }
{
    (is_earlier(low, date) && is_earlier(date, high))
        || (with_low && is_same(date, low))
        || (with_high && is_same(date, high))
}

/// Whether a gap holds a date, by its number from 0.
pub(crate) fn is_in_gap(range: &DateRange, number: u32, date: &Name) -> bool
    requires few { HasFewEdges (date_range_view range.now) }
    requires there { number < definition.date_gap_count (date_range_view range.now) }
    ensures { result ≡ definition.in_date_gap (date_range_view range.now) number date.now }
{
    let with_low = holds_low(range, number);
    let with_high = holds_high(range, number);
    let low = &range.edges[number as usize];
    let high = &range.edges[number as usize + 1];
    lies_in(low, with_low, high, with_high, date)
}

/// How many edges stand before a date. The date lies in no gap but the one of that number and the one before it.
pub(crate) fn edges_before(range: &DateRange, date: &Name) -> u32
    requires { HasFewEdges (date_range_view range.now) }
    ensures within { result ≤ 10_001 }
    ensures near { (i : ℕ) → i < definition.date_gap_count (date_range_view range.now)
        → definition.in_date_gap (date_range_view range.now) i date.now ≡ true
        → (i ≡ result) ⊎ (i + 1 ≡ result) }
{
    range
        .edges
        .partition_point(|edge| edge.bytes().cmp(date.bytes()).is_lt()) as u32
}
