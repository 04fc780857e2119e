// Which gaps count a document, each once.
ghost use Rattle.std.specs.Prelude.{◌≡◌, ◌<◌, ◌≤◌, ◌&&◌, ℕ, length, map, nat_le, nat_lt, true, IsTrue};
ghost use Rattle.fc_spec.specs.messages.MessageShape.{values_fit};
ghost use Rattle.fc_partial.specs.Adding.{AddUp};
ghost use Rattle.fc_partial.specs.Celled.{cell_at, of_one};
ghost use Rattle.fc_partial.specs.View.{stat_value_view};
ghost use Rattle.fc_count.specs.Counted.{HaveCounted};
ghost use Rattle.fc_date_range.specs.GapSpans.{Rise, is_held, span_at};
ghost use Rattle.fc_date_range.specs.Reached.{Reaches};

use crate::span::Span;
use fc_partial::{Cells, StatValue};

// Adds the document to the gaps from a number on whose spans do not begin behind the ordinal. Gives the number behind them.
fn count_from(
    spans: &[Span],
    start: usize,
    ord: u32,
    values: &[StatValue],
    cells: &mut Cells,
) -> usize
    requires rise { Rise spans.now }
    requires all { length cells.old.cells ≡ length spans.now }
    requires within { start ≤ length spans.now }
    requires shaped { IsTrue (values_fit cells.old.stats (map stat_value_view values.now)) }
    requires fits { (i : ℕ) → start ≤ i → i < length spans.now → (span_at spans.now i).from ≤ ord
        → AddUp (cell_at cells.old.cells i) (of_one (map stat_value_view values.now)) }
    ensures counted { HaveCounted (λ i. nat_le start i && nat_lt i result)
        (map stat_value_view values.now) cells.old cells.new }
    ensures rises { start ≤ result }
    ensures within { result ≤ length spans.now }
    ensures begun { (i : ℕ) → start ≤ i → i < result → (span_at spans.now i).from ≤ ord }
    ensures behind { (i : ℕ) → result ≤ i → i < length spans.now → ord < (span_at spans.now i).from }
{
    for number in start..spans.len() {
        if ord < spans[number].from {
            return number;
        }
        cells.add(number, values);
    }
    spans.len()
}

// How many spans end before the ordinal or at it: it lies in none of them.
fn ended(spans: &[Span], ord: u32) -> usize
    requires { Rise spans.now }
    ensures within { result ≤ length spans.now }
    ensures ended { (i : ℕ) → i < result → (span_at spans.now i).past ≤ ord }
    ensures left { (i : ℕ) → result ≤ i → i < length spans.now → ord < (span_at spans.now i).past }
{
    spans.partition_point(|span| span.past <= ord)
}

/// Adds the document to the gaps whose span has the ordinal, but for those below the number up to which gaps have been reached.
/// Gives the number up to which they have been reached then.
pub(crate) fn count_ordinal(
    spans: &[Span],
    ord: u32,
    reached: usize,
    values: &[StatValue],
    cells: &mut Cells,
) -> usize
    requires rise { Rise spans.now }
    requires all { length cells.old.cells ≡ length spans.now }
    requires within { reached ≤ length spans.now }
    requires shaped { IsTrue (values_fit cells.old.stats (map stat_value_view values.now)) }
    requires fits { (i : ℕ) → reached ≤ i → is_held spans.now ord i ≡ true
        → AddUp (cell_at cells.old.cells i) (of_one (map stat_value_view values.now)) }
    ensures counted { HaveCounted (λ i. nat_le reached i && is_held spans.now ord i)
        (map stat_value_view values.now) cells.old cells.new }
    ensures reached { Reaches spans.now ord reached result }
{
    let start = ended(spans, ord).max(reached);
    count_from(spans, start, ord, values, cells)
}
