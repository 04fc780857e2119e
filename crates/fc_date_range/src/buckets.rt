// The spans of the buckets of a range facet over dates.
ghost use Rattle.std.specs.Prelude.{◌≡◌, ◌<◌, ◌||◌, not};
ghost use Rattle.std.specs.Bool.{IsTrue};
ghost use Rattle.fc_spec.specs.requests.Buckets.{holds_date, is_date_range_key};
ghost use Rattle.fc_spec.specs.requests.DateGaps as definition;
ghost use Rattle.fc_facet.specs.KindView.{date_range_view};
ghost use Rattle.fc_facet.specs.RangeGaps.{HasFewEdges};
ghost use Rattle.fc_partial.specs.View.{key_view};
ghost use Rattle.fc_date_range.specs.HeldDates.{holds_high, holds_low};
ghost use Rattle.fc_date_range.specs.GapSpans.{IsGapSpan};
ghost use Rattle.fc_date_range.specs.Spans.{IsSpanOf};

use crate::span::{Span, at, between, first_behind, first_from};
use fc_base::Name;
use fc_column::TextColumn;
use fc_facet::DateRange;
use fc_partial::Key;

/// The range's start.
pub(crate) fn start_of(range: &DateRange) -> &Name
    requires { HasFewEdges (date_range_view range.now) }
    ensures { result.now ≡ definition.low_date (date_range_view range.now) 0 }
{
    &range.edges[0]
}

// The last high end.
fn end_of(range: &DateRange) -> &Name
    requires { HasFewEdges (date_range_view range.now) }
    ensures { result.now ≡ definition.last_date (date_range_view range.now) }
{
    &range.edges[range.edges.len() - 1]
}

// Whether the gaps together hold the start.
fn holds_start(range: &DateRange) -> bool
    ensures { result ≡ (range.now.lower || range.now.edge) }
{
    range.lower || range.edge
}

// Whether the gaps together hold the last high end.
fn holds_end(range: &DateRange) -> bool
    ensures { result ≡ (range.now.upper || range.now.edge) }
{
    range.upper || range.edge
}

// Whether the bucket before the gaps holds the start.
fn is_start_before(range: &DateRange) -> bool
    ensures { result ≡ (range.now.outer || not (range.now.lower || range.now.edge)) }
{
    range.outer || !holds_start(range)
}

// Whether the bucket after the gaps holds the last high end.
fn is_end_after(range: &DateRange) -> bool
    ensures { result ≡ (range.now.outer || not (range.now.upper || range.now.edge)) }
{
    range.outer || !holds_end(range)
}

/// Whether a gap holds its low end.
pub(crate) fn holds_low(range: &DateRange, number: u32) -> bool
    ensures { result ≡ holds_low (date_range_view range.now) number }
{
    range.lower || (range.edge && number == 0)
}

/// Whether a gap holds its high end.
pub(crate) fn holds_high(range: &DateRange, number: u32) -> bool
    requires { HasFewEdges (date_range_view range.now) }
    ensures { result ≡ holds_high (date_range_view range.now) number }
{
    range.upper || (range.edge && u64::from(range.gaps()) == u64::from(number) + 1)
}

/// The span of a gap, by its number from 0.
pub(crate) fn of_gap(column: &TextColumn, range: &DateRange, number: u32) -> Span
    requires few { HasFewEdges (date_range_view range.now) }
    requires there { number < definition.date_gap_count (date_range_view range.now) }
    ensures { IsGapSpan column.now (date_range_view range.now) number result }
{
    between(
        column,
        &range.edges[number as usize],
        holds_low(range, number),
        &range.edges[number as usize + 1],
        holds_high(range, number),
    )
}

fn of_before(column: &TextColumn, range: &DateRange) -> Span
    requires { HasFewEdges (date_range_view range.now) }
    ensures { IsSpanOf column.now (definition.in_dates_before (date_range_view range.now))
        result.from result.past }
{
    Span {
        from: 0,
        past: first_behind(column, start_of(range), is_start_before(range)),
    }
}

// Of a range without gaps the start is the last high end too.
fn of_between(column: &TextColumn, range: &DateRange) -> Span
    requires { HasFewEdges (date_range_view range.now) }
    ensures { IsSpanOf column.now (definition.in_dates_between (date_range_view range.now))
        result.from result.past }
{
    let start = start_of(range);
    if range.gaps() == 0 {
        return at(column, start, holds_start(range), holds_end(range));
    }
    between(
        column,
        start,
        holds_start(range),
        end_of(range),
        holds_end(range),
    )
}

fn of_after(column: &TextColumn, range: &DateRange) -> Span
    requires { HasFewEdges (date_range_view range.now) }
    ensures { IsSpanOf column.now (definition.in_dates_after (date_range_view range.now))
        result.from result.past }
{
    Span {
        from: first_from(column, end_of(range), is_end_after(range)),
        past: column.terms(),
    }
}

/// The span of a bucket.
pub(crate) fn span_of(column: &TextColumn, range: &DateRange, key: &Key) -> Span
    requires few { HasFewEdges (date_range_view range.now) }
    requires key { IsTrue (is_date_range_key (date_range_view range.now) (key_view key.now)) }
    ensures { IsSpanOf column.now (holds_date (date_range_view range.now) (key_view key.now))
        result.from result.past }
{
    match key {
        Key::Gap(number) => of_gap(column, range, *number),
        Key::Before => of_before(column, range),
        Key::Between => of_between(column, range),
        Key::After => of_after(column, range),
        Key::Value(_) | Key::Missing | Key::Whole => unreachable!(),
    }
}
