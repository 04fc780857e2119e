// Which way of counting the gaps costs least. It shows in nothing but time.
ghost use Rattle.fc_facet.specs.KindView.{range_view};
ghost use Rattle.fc_facet.specs.RangeGaps.{HasFewGaps};

use fc_base::Stat;
use fc_column::LongColumn;
use fc_docset::DocSet;
use fc_facet::Range;

// How many words and integers are read at most for each document of the set where the gaps are counted one after another.
const READS_PER_DOCUMENT: u64 = 8;
// What a gap costs beside the words of a set, in words.
const WORDS_PER_GAP: u64 = 16;

/// Whether to count the gaps one after another, each by the set of its documents. Each gap and each statistic of it goes through the
/// words of a set, and all gaps together through the integers of all documents. The statistics of a document are read in each of its
/// gaps, so where there are any, each document has exactly one integer.
pub(crate) fn is_cheap_by_sets(
    column: &LongColumn,
    docs: &DocSet,
    range: &Range,
    stats: &[Stat],
) -> bool
    requires { HasFewGaps (range_view range.now) }
{
    if !stats.is_empty() && column.singles().is_none() {
        return false;
    }
    let words = u64::from(docs.len() / 64) + WORDS_PER_GAP;
    let passes = (stats.len() as u64).saturating_add(1);
    let reads = u64::from(range.gaps())
        .saturating_mul(words)
        .saturating_mul(passes)
        .saturating_add(column.flat().len() as u64);
    reads <= READS_PER_DOCUMENT * u64::from(docs.count())
}
