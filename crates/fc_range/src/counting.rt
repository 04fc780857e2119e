// Which gaps count a document, each once.
ghost use Rattle.std.specs.Prelude.{◌≡◌, ◌<◌, ◌≤◌, ◌&&◌, ◌==◌, ◌≤ℤ◌, ℕ, [], length, map, nat_le, nat_lt, slice_index_or, true, IsTrue};
ghost use Rattle.std.specs.List.{list_any};
ghost use Rattle.fc_spec.specs.messages.MessageShape.{values_fit};
ghost use Rattle.fc_spec.specs.requests.Gaps as definition;
ghost use Rattle.fc_facet.specs.KindView.{range_view};
ghost use Rattle.fc_facet.specs.RangeGaps.{HasFewGaps};
ghost use Rattle.fc_partial.specs.Adding.{AddUp};
ghost use Rattle.fc_partial.specs.Celled.{cell_at, of_one};
ghost use Rattle.fc_partial.specs.View.{stat_value_view};
ghost use Rattle.fc_count.specs.Counted.{HaveCounted};
ghost use Rattle.fc_range.specs.Reached.{IsReached, is_held};

use crate::gaps::{gaps_before, is_in_gap};
use crate::inside::gap_around;
use fc_column::LongColumn;
use fc_count::Numbering;
use fc_facet::Range;
use fc_partial::{Cells, StatValue};

/// The gaps of a range facet by their numbers: each counts the documents with an integer that it holds.
#[derive(Debug, Drop)]
pub struct GapNumbers<'a> {
    pub range: &'a Range,
    // How many gaps the range has.
    pub gaps: u32,
    pub column: &'a LongColumn,
    pub ghost few: { HasFewGaps (range_view range.now) },
    pub ghost all: { gaps ≡ definition.gap_count (range_view range.now) },
}

// Adds the document to the gaps from one number up to another, which is left out, that hold the integer. Gives the
// number up to which gaps have been reached then.
fn count_gaps(
    range: &Range,
    x: i64,
    from: u64,
    to: u64,
    reached: u32,
    values: &[StatValue],
    cells: &mut Cells,
) -> u32
    requires few { HasFewGaps (range_view range.now) }
    requires all { length cells.old.cells ≡ definition.gap_count (range_view range.now) }
    requires within { to ≤ definition.gap_count (range_view range.now) }
    requires behind { reached ≤ from }
    requires shaped { IsTrue (values_fit cells.old.stats (map stat_value_view values.now)) }
    requires fits { (i : ℕ) → from ≤ i → i < to → definition.in_gap (range_view range.now) i x ≡ true
        → AddUp (cell_at cells.old.cells i) (of_one (map stat_value_view values.now)) }
    ensures counted { HaveCounted
        (λ i. nat_le from i && (nat_lt i to && definition.in_gap (range_view range.now) i x))
        (map stat_value_view values.now) cells.old cells.new }
    ensures reached { IsReached
        (λ i. nat_le from i && (nat_lt i to && definition.in_gap (range_view range.now) i x))
        reached result }
{
    let mut last = reached;
    for number in from..to {
        if is_in_gap(range, number as u32, x) {
            cells.add(number as usize, values);
            last = number as u32 + 1;
        }
    }
    last
}

// Adds the document to one gap, unless gaps have been reached up to behind it. Gives the number up to which gaps have
// been reached then.
fn count_alone(number: u32, reached: u32, values: &[StatValue], cells: &mut Cells) -> u32
    requires few { number < 10_000 }
    requires there { number < length cells.old.cells }
    requires shaped { IsTrue (values_fit cells.old.stats (map stat_value_view values.now)) }
    requires fits { reached ≤ number
        → AddUp (cell_at cells.old.cells number) (of_one (map stat_value_view values.now)) }
    ensures counted { HaveCounted (λ i. nat_le reached i && (i == number))
        (map stat_value_view values.now) cells.old cells.new }
    ensures reached { IsReached (λ i. nat_le reached i && (i == number)) reached result }
{
    if number < reached {
        return reached;
    }
    cells.add(number as usize, values);
    number + 1
}

// Adds the document to the gaps near an integer that is not below the start which hold it, but for those below the
// number up to which gaps have been reached. Gives the number up to which they have been reached then.
fn count_near(
    range: &Range,
    gaps: u32,
    x: i64,
    reached: u32,
    values: &[StatValue],
    cells: &mut Cells,
) -> u32
    requires few { HasFewGaps (range_view range.now) }
    requires gaps { gaps ≡ definition.gap_count (range_view range.now) }
    requires not_below { range.now.start ≤ℤ x }
    requires all { length cells.old.cells ≡ definition.gap_count (range_view range.now) }
    requires shaped { IsTrue (values_fit cells.old.stats (map stat_value_view values.now)) }
    requires fits { (i : ℕ) → reached ≤ i → is_held (range_view range.now) x i ≡ true
        → AddUp (cell_at cells.old.cells i) (of_one (map stat_value_view values.now)) }
    ensures counted { HaveCounted (λ i. nat_le reached i && is_held (range_view range.now) x i)
        (map stat_value_view values.now) cells.old cells.new }
    ensures reached { IsReached (λ i. nat_le reached i && is_held (range_view range.now) x i)
        reached result }
{
    let number = gaps_before(range, x);
    let from = number.saturating_sub(1).max(u64::from(reached));
    let to = number.saturating_add(1).min(u64::from(gaps));
    count_gaps(range, x, from, to, reached, values, cells)
}

// Adds the document to the gaps that hold the integer, but for those below the number up to which gaps have been
// reached. Gives the number up to which they have been reached then.
fn count_integer(
    range: &Range,
    gaps: u32,
    x: i64,
    reached: u32,
    values: &[StatValue],
    cells: &mut Cells,
) -> u32
    requires few { HasFewGaps (range_view range.now) }
    requires gaps { gaps ≡ definition.gap_count (range_view range.now) }
    requires all { length cells.old.cells ≡ definition.gap_count (range_view range.now) }
    requires shaped { IsTrue (values_fit cells.old.stats (map stat_value_view values.now)) }
    requires fits { (i : ℕ) → reached ≤ i → is_held (range_view range.now) x i ≡ true
        → AddUp (cell_at cells.old.cells i) (of_one (map stat_value_view values.now)) }
    ensures counted { HaveCounted (λ i. nat_le reached i && is_held (range_view range.now) x i)
        (map stat_value_view values.now) cells.old cells.new }
    ensures reached { IsReached (λ i. nat_le reached i && is_held (range_view range.now) x i)
        reached result }
{
    if x < range.start {
        return reached;
    }
    match gap_around(range, gaps, x) {
        Some(number) => count_alone(number, reached, values, cells),
        None => count_near(range, gaps, x, reached, values, cells),
    }
}

impl Numbering for GapNumbers<'_> {
    ghost positions = { λ gaps. length gaps.column.now };

    ghost bound = { λ gaps. definition.gap_count (range_view gaps.range.now) };

    ghost holds = { λ gaps at i. list_any (definition.in_gap (range_view gaps.range.now) i)
        (slice_index_or gaps.column.now at []) };

    fn count(&self, at: u32, values: &[StatValue], cells: &mut Cells) {
        let mut reached = 0;
        for x in self.column.values_of(at) {
            reached = count_integer(self.range, self.gaps, *x, reached, values, cells);
        }
    }
}
