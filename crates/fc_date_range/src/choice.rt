// Which way of counting the gaps costs least. It shows in nothing but time.
ghost use Rattle.std.specs.Prelude.{◌≡◌, ◌≤◌, length, true, All};
ghost use Rattle.fc_facet.specs.KindView.{date_range_view};
ghost use Rattle.fc_facet.specs.RangeGaps.{HasFewEdges};

use crate::span::Span;
use fc_column::TextColumn;
use fc_docset::DocSet;
use fc_facet::DateRange;

// Where all gaps together list at most so many positions for each document of the set, reading these costs less than reading the
// texts of each document.
const POSITIONS_PER_DOCUMENT: u64 = 4;

// How many positions the gaps list together, where no position has several texts.
fn listed(column: &TextColumn, spans: &[Span]) -> usize {
    match (spans.first(), spans.last()) {
        (Some(first), Some(last)) => column.positions_between(first.from, last.past).len(),
        _ => 0,
    }
}

/// Whether to read the documents of each gap, and not the texts of each document in the set. It is so only where no document has
/// several texts: else a gap would list one twice.
pub(crate) fn is_cheap_by_postings(column: &TextColumn, spans: &[Span], docs: &DocSet) -> bool
    ensures { result ≡ true → All (λ texts. length texts ≤ 1) column.now }
{
    column.are_single()
        && listed(column, spans) as u64 <= POSITIONS_PER_DOCUMENT * u64::from(docs.count())
}

/// Whether to find the gaps of each document by its dates, and not the span of each gap in the column: so where there are fewer
/// documents than gaps, for each of which an edge would be searched.
pub(crate) fn is_cheap_by_dates(range: &DateRange, docs: &DocSet) -> bool
    requires { HasFewEdges (date_range_view range.now) }
{
    range.gaps() > docs.count()
}
