// The gaps of a range facet over dates, all side by side.
ghost use Rattle.std.specs.Prelude.{◌≡◌, ◌≤◌, [], ◌∷◌, length, map, All, OnOk, true};
ghost use Rattle.std.specs.Option.{ForSome};
ghost use Rattle.fc_spec.specs.documents.Columns.{column_of};
ghost use Rattle.fc_spec.specs.documents.Sets.{places_on};
ghost use Rattle.fc_spec.specs.documents.Totals.{document_total, documents_in};
ghost use Rattle.fc_spec.specs.documents.Val.{text};
ghost use Rattle.fc_spec.specs.requests.Buckets as bucket;
ghost use Rattle.fc_spec.specs.requests.Buckets.{bucket_places};
ghost use Rattle.fc_spec.specs.requests.Request as kind;
ghost use Rattle.fc_spec.specs.requests.Statistics.{stats_over};
ghost use Rattle.fc_spec.specs.scripts.WorldLimits.{IsWithinLimits};
ghost use Rattle.fc_base.specs.StatisticView.{stat_view};
ghost use Rattle.fc_facet.specs.KindView.{date_range_view};
ghost use Rattle.fc_facet.specs.RangeGaps.{HasFewEdges};
ghost use Rattle.fc_partial.specs.Adding.{AddUp};
ghost use Rattle.fc_partial.specs.Tallying.{entry_at};
ghost use Rattle.fc_kind.specs.Collecting.{CollectsAmong};
ghost use Rattle.fc_kind.specs.Columns.{FitsColumns, HaveFields};
ghost use Rattle.fc_date_range.specs.GapKeys.{is_gap_of};
ghost use Rattle.fc_date_range.specs.GapSpans.{AreGapSpans};

use crate::choice::{is_cheap_by_dates, is_cheap_by_postings};
use crate::dates::collect_by_dates;
use crate::numbers::GapSpans;
use crate::spans::spans_of;
use fc_base::{Stat, WantMemory};
use fc_count::{add_cells, add_postings, counted_cells};
use fc_docset::DocSet;
use fc_facet::DateRange;
use fc_partial::Tally;
use fc_segment::{Column, Segment};
use std::alloc::Global;

// Collects the buckets of the gaps, the documents of one after those of another.
fn collect_by_postings(
    alloc: Global,
    segment: &Segment,
    docs: &DocSet,
    range: &DateRange,
    gaps: GapSpans<'_>,
    stats: &[Stat],
    into: &mut Tally,
) -> Result<(), WantMemory>
    requires few { HasFewEdges (date_range_view range.now) }
    requires column { map (map text) gaps.column.now
        ≡ column_of range.now.field.0 (documents_in segment.now.blocks) }
    requires spans { AreGapSpans gaps.column.now (date_range_view range.now) gaps.spans.now }
    requires single { All (λ texts. length texts ≤ 1) gaps.column.now }
    requires fields { HaveFields segment.now.texts (map stat_view stats.now) }
    requires limits { IsWithinLimits (segment.now.blocks ∷ []) }
    requires length { length docs.now ≡ document_total segment.now.blocks }
    requires stats { into.old.stats ≡ map stat_view stats.now }
    requires add_up { (k : bucket.Key) → is_gap_of (date_range_view range.now) k ≡ true
        → ForSome (entry_at into.old.entries k) (λ there. AddUp there (stats_over into.old.stats
        (bucket_places (kind.date_range (date_range_view range.now)) k
        (places_on 0 segment.now.blocks docs.now)))) }
    ensures { OnOk result (CollectsAmong (is_gap_of (date_range_view range.now))
        (kind.date_range (date_range_view range.now)) into.old.stats
        (places_on 0 segment.now.blocks docs.now) into.old into.new) }
{
    let bound = gaps.spans.len();
    add_postings(alloc, segment, docs, stats, bound, &gaps, into)?;
    Ok(())
}

// Collects the buckets of the gaps, one document after another.
fn collect_by_documents(
    alloc: Global,
    segment: &Segment,
    docs: &DocSet,
    range: &DateRange,
    gaps: GapSpans<'_>,
    stats: Vec<Stat>,
    into: &mut Tally,
) -> Result<(), WantMemory>
    requires few { HasFewEdges (date_range_view range.now) }
    requires column { map (map text) gaps.column.now
        ≡ column_of range.now.field.0 (documents_in segment.now.blocks) }
    requires spans { AreGapSpans gaps.column.now (date_range_view range.now) gaps.spans.now }
    requires fields { HaveFields segment.now.texts (map stat_view stats.items) }
    requires limits { IsWithinLimits (segment.now.blocks ∷ []) }
    requires length { length docs.now ≡ document_total segment.now.blocks }
    requires stats { into.old.stats ≡ map stat_view stats.items }
    requires add_up { (k : bucket.Key) → is_gap_of (date_range_view range.now) k ≡ true
        → ForSome (entry_at into.old.entries k) (λ there. AddUp there (stats_over into.old.stats
        (bucket_places (kind.date_range (date_range_view range.now)) k
        (places_on 0 segment.now.blocks docs.now)))) }
    ensures { OnOk result (CollectsAmong (is_gap_of (date_range_view range.now))
        (kind.date_range (date_range_view range.now)) into.old.stats
        (places_on 0 segment.now.blocks docs.now) into.old into.new) }
{
    let bound = gaps.spans.len();
    let cells = counted_cells(alloc, segment, docs, stats, bound, &gaps)?;
    add_cells(alloc, &cells, bound, &gaps, into)?;
    Ok(())
}

/// Collects the buckets of the gaps.
pub(crate) fn collect_gaps(
    alloc: Global,
    segment: &Segment,
    docs: &DocSet,
    range: &DateRange,
    stats: Vec<Stat>,
    into: &mut Tally,
) -> Result<(), WantMemory>
    requires fits { FitsColumns segment.now.texts (kind.date_range (date_range_view range.now)) }
    requires fields { HaveFields segment.now.texts (map stat_view stats.items) }
    requires limits { IsWithinLimits (segment.now.blocks ∷ []) }
    requires length { length docs.now ≡ document_total segment.now.blocks }
    requires stats { into.old.stats ≡ map stat_view stats.items }
    requires add_up { (k : bucket.Key) → is_gap_of (date_range_view range.now) k ≡ true
        → ForSome (entry_at into.old.entries k) (λ there. AddUp there (stats_over into.old.stats
        (bucket_places (kind.date_range (date_range_view range.now)) k
        (places_on 0 segment.now.blocks docs.now)))) }
    ensures { OnOk result (CollectsAmong (is_gap_of (date_range_view range.now))
        (kind.date_range (date_range_view range.now)) into.old.stats
        (places_on 0 segment.now.blocks docs.now) into.old into.new) }
{
    let Column::Text(column) = segment.column(range.field) else {
        unreachable!()
    };
    if is_cheap_by_dates(range, docs) {
        return collect_by_dates(alloc, segment, docs, range, column, stats, into);
    }
    let spans = spans_of(alloc, column, range)?;
    let gaps = GapSpans {
        column,
        spans: &spans,
    };
    if is_cheap_by_postings(column, &spans, docs) {
        return collect_by_postings(alloc, segment, docs, range, gaps, &stats, into);
    }
    collect_by_documents(alloc, segment, docs, range, gaps, stats, into)
}
