// The ends of the gaps of a range facet.
ghost use Rattle.std.specs.Prelude.{◌≡◌, ◌<◌, IfOk, map};
ghost use Rattle.fc_spec.specs.requests.Gaps as definition;
ghost use Rattle.fc_spec.specs.documents.IntegerTexts.{is_long};
ghost use Rattle.fc_spec.specs.words.Lists.{numbers_below};
ghost use Rattle.std.specs.Bool.{IsTrue};
ghost use Rattle.fc_facet.specs.KindView.{range_view};
ghost use Rattle.fc_facet.specs.RangeGaps.{HasFewGaps};
ghost use Rattle.fc_range.specs.EndsView.{ends_view, ends_of};

use fc_base::WantMemory;
use fc_facet::Range;
use std::alloc::Global;

/// The ends of a gap.
#[derive(Clone, Copy, Debug, PartialEq, Eq)]
pub struct GapEnds {
    pub low: i64,
    pub high: i64,
}

// The high end of a gap.
fn high_end(range: &Range, number: u32) -> i64
    requires forward { HasFewGaps (range_view range.now) }
    requires last { IsTrue (is_long (definition.last_end (range_view range.now))) }
    requires there { number < definition.gap_count (range_view range.now) }
    ensures { result ≡ definition.high_end (range_view range.now) number }
{
    if number + 1 < range.gaps() {
        return range.low_end(number + 1);
    }
    range.last_end() as i64
}

/// The ends of each gap, from the first on. (Guide: JSON Facet API, "Range Facet")
pub fn bounds(alloc: Global, range: &Range) -> Result<Vec<GapEnds>, WantMemory>
    requires forward { HasFewGaps (range_view range.now) }
    requires last { IsTrue (is_long (definition.last_end (range_view range.now))) }
    ensures { IfOk result (λ ends. map ends_view ends.items ≡ map (ends_of (range_view range.now))
        (numbers_below (definition.gap_count (range_view range.now)))) }
{
    let mut ends = Vec::new(alloc);
    for number in 0..range.gaps() {
        ends.push(GapEnds {
            low: range.low_end(number),
            high: high_end(range, number),
        })?;
    }
    Ok(ends)
}
