// Spans of the ordinals of a column.
ghost use Rattle.std.specs.Prelude.{not};
ghost use Rattle.fc_spec.specs.requests.DateGaps.{date_lies_in};
ghost use Rattle.fc_date_range.specs.HeldDates.{is_from, is_to};
ghost use Rattle.fc_date_range.specs.Spans.{IsBetween, IsFirst, IsSpanOf};

use fc_base::Name;
use fc_column::TextColumn;

/// The ordinals from one up to but not including another.
#[derive(Clone, Copy, Debug)]
pub(crate) struct Span {
    pub(crate) from: u32,
    pub(crate) past: u32,
}

/// The first ordinal behind a date, or of that date where it is held.
pub(crate) fn first_from(column: &TextColumn, low: &Name, with_low: bool) -> u32
    ensures { IsFirst column.now (is_from low.now with_low) result }
{
    if with_low {
        column.first_from(low.bytes())
    } else {
        column.first_past(low.bytes())
    }
}

/// The ordinal behind the last one before a date, or of that date where it is held.
pub(crate) fn first_behind(column: &TextColumn, high: &Name, with_high: bool) -> u32
    ensures { IsFirst column.now (λ t. not (is_to high.now with_high t)) result }
{
    if with_high {
        column.first_past(high.bytes())
    } else {
        column.first_from(high.bytes())
    }
}

/// The first ordinal behind a date, or of that date where it is held, where the span that ends with the date ends before `past`.
/// The date is searched only where both hold it, or neither does.
pub(crate) fn first_at(
    column: &TextColumn,
    date: &Name,
    past: u32,
    with_high: bool,
    with_low: bool,
) -> u32
    requires { IsFirst column.now (λ t. not (is_to date.now with_high t)) past }
    ensures { IsFirst column.now (is_from date.now with_low) result }
{
    if with_low == with_high {
        return first_from(column, date, with_low);
    }
    past
}

/// The dates between two others, and those of these that are held. Each end is searched once.
pub(crate) fn between(
    column: &TextColumn,
    low: &Name,
    with_low: bool,
    high: &Name,
    with_high: bool,
) -> Span
    ensures { IsBetween column.now low.now with_low high.now with_high result.from result.past }
{
    Span {
        from: first_from(column, low, with_low),
        past: first_behind(column, high, with_high),
    }
}

/// A date alone where it is held, and else none.
pub(crate) fn at(column: &TextColumn, date: &Name, with_low: bool, with_high: bool) -> Span
    ensures { IsSpanOf column.now (date_lies_in date.now with_low date.now with_high)
        result.from result.past }
{
    let from = column.first_from(date.bytes());
    let past = if with_low || with_high {
        column.first_past(date.bytes())
    } else {
        from
    };
    Span { from, past }
}
