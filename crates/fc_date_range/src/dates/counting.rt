// Which gaps count a document by its dates, each once.
ghost use Rattle.std.specs.Prelude.{◌≡◌, ◌<◌, ◌≤◌, ◌&&◌, ℕ, length, map, nat_le, nat_lt, true, IsTrue};
ghost use Rattle.fc_spec.specs.messages.MessageShape.{values_fit};
ghost use Rattle.fc_spec.specs.requests.DateGaps as definition;
ghost use Rattle.fc_facet.specs.KindView.{date_range_view};
ghost use Rattle.fc_facet.specs.RangeGaps.{HasFewEdges};
ghost use Rattle.fc_partial.specs.Adding.{AddUp};
ghost use Rattle.fc_partial.specs.Celled.{cell_at, of_one};
ghost use Rattle.fc_partial.specs.View.{stat_value_view};
ghost use Rattle.fc_count.specs.Counted.{HaveCounted};
ghost use Rattle.fc_range.specs.Reached.{IsReached};
ghost use Rattle.fc_date_range.specs.GapDates.{has_date};

use super::holding::{edges_before, is_in_gap};
use fc_base::Name;
use fc_facet::DateRange;
use fc_partial::{Cells, StatValue};

// Adds the document to the gaps from one number up to another, which is left out, that hold the date. Gives the number up to
// which gaps have been reached then.
fn count_gaps(
    range: &DateRange,
    date: &Name,
    from: u32,
    to: u32,
    reached: u32,
    values: &[StatValue],
    cells: &mut Cells,
) -> u32
    requires few { HasFewEdges (date_range_view range.now) }
    requires all { length cells.old.cells ≡ definition.date_gap_count (date_range_view range.now) }
    requires within { to ≤ definition.date_gap_count (date_range_view range.now) }
    requires behind { reached ≤ from }
    requires shaped { IsTrue (values_fit cells.old.stats (map stat_value_view values.now)) }
    requires fits { (i : ℕ) → from ≤ i → i < to
        → definition.in_date_gap (date_range_view range.now) i date.now ≡ true
        → AddUp (cell_at cells.old.cells i) (of_one (map stat_value_view values.now)) }
    ensures counted { HaveCounted
        (λ i. nat_le from i && (nat_lt i to && definition.in_date_gap (date_range_view range.now) i date.now))
        (map stat_value_view values.now) cells.old cells.new }
    ensures reached { IsReached
        (λ i. nat_le from i && (nat_lt i to && definition.in_date_gap (date_range_view range.now) i date.now))
        reached result }
{
    let mut last = reached;
    for number in from..to {
        if is_in_gap(range, number, date) {
            cells.add(number as usize, values);
            last = number + 1;
        }
    }
    last
}

/// Adds the document to the gaps that hold the date, but for those below the number up to which gaps have been reached. Gives
/// the number up to which they have been reached then.
pub(crate) fn count_date(
    range: &DateRange,
    date: &Name,
    reached: u32,
    values: &[StatValue],
    cells: &mut Cells,
) -> u32
    requires few { HasFewEdges (date_range_view range.now) }
    requires all { length cells.old.cells ≡ definition.date_gap_count (date_range_view range.now) }
    requires shaped { IsTrue (values_fit cells.old.stats (map stat_value_view values.now)) }
    requires fits { (i : ℕ) → reached ≤ i → has_date (date_range_view range.now) date.now i ≡ true
        → AddUp (cell_at cells.old.cells i) (of_one (map stat_value_view values.now)) }
    ensures counted { HaveCounted (λ i. nat_le reached i && has_date (date_range_view range.now) date.now i)
        (map stat_value_view values.now) cells.old cells.new }
    ensures reached { IsReached (λ i. nat_le reached i && has_date (date_range_view range.now) date.now i)
        reached result }
{
    let number = edges_before(range, date);
    let from = number.saturating_sub(1).max(reached);
    let to = (number + 1).min(range.gaps());
    count_gaps(range, date, from, to, reached, values, cells)
}
