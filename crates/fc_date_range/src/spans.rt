// The spans of the gaps of a range facet over dates.
ghost use Rattle.std.specs.Prelude.{◌+◌, ◌<◌, IfOk, not};
ghost use Rattle.fc_spec.specs.requests.DateGaps as definition;
ghost use Rattle.fc_facet.specs.KindView.{date_range_view};
ghost use Rattle.fc_facet.specs.RangeGaps.{HasFewEdges};
ghost use Rattle.fc_date_range.specs.GapSpans.{AreGapSpans, IsGapSpan, Rise};
ghost use Rattle.fc_date_range.specs.HeldDates.{holds_high, holds_low, is_from, is_to};
ghost use Rattle.fc_date_range.specs.Spans.{IsFirst};

use crate::buckets::{holds_high, holds_low, start_of};
use crate::span::{Span, first_at, first_behind, first_from};
use fc_base::WantMemory;
use fc_column::TextColumn;
use fc_facet::DateRange;
use std::alloc::Global;

// The span of a gap, by its number from 0, that begins with an ordinal.
fn span_from(column: &TextColumn, range: &DateRange, number: u32, from: u32) -> Span
    requires few { HasFewEdges (date_range_view range.now) }
    requires there { number < definition.date_gap_count (date_range_view range.now) }
    requires begins { IsFirst column.now (is_from (definition.low_date (date_range_view range.now) number)
        (holds_low (date_range_view range.now) number)) from }
    ensures { IsGapSpan column.now (date_range_view range.now) number result }
{
    let high = &range.edges[number as usize + 1];
    Span {
        from,
        past: first_behind(column, high, holds_high(range, number)),
    }
}

// The first ordinal of the gap behind another, whose span ends before `past`.
fn next_from(column: &TextColumn, range: &DateRange, number: u32, past: u32) -> u32
    requires few { HasFewEdges (date_range_view range.now) }
    requires there { number < definition.date_gap_count (date_range_view range.now) }
    requires ends { IsFirst column.now (λ t. not (is_to (definition.high_date (date_range_view range.now) number)
        (holds_high (date_range_view range.now) number) t)) past }
    ensures { IsFirst column.now (is_from (definition.low_date (date_range_view range.now) (number + 1))
        (holds_low (date_range_view range.now) (number + 1))) result }
{
    let edge = &range.edges[number as usize + 1];
    let with_high = holds_high(range, number);
    let with_low = holds_low(range, number + 1);
    first_at(column, edge, past, with_high, with_low)
}

/// The span of each gap, from the first on. Each edge is searched once, and once more where of two gaps that meet there both hold it
/// or neither does.
pub(crate) fn spans_of(
    alloc: Global,
    column: &TextColumn,
    range: &DateRange,
) -> Result<Vec<Span>, WantMemory>
    requires { HasFewEdges (date_range_view range.now) }
    ensures spans { IfOk result (λ spans. AreGapSpans column.now (date_range_view range.now) spans.items) }
    ensures rise { IfOk result (λ spans. Rise spans.items) }
{
    let mut spans = Vec::with_capacity(alloc, range.gaps() as usize)?;
    let mut from = first_from(column, start_of(range), holds_low(range, 0));
    for number in 0..range.gaps() {
        let span = span_from(column, range, number, from);
        from = next_from(column, range, number, span.past);
        spans.push(span)?;
    }
    Ok(spans)
}
