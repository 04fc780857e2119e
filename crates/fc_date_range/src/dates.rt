// The gaps of a range facet over dates, by the dates of each document: the edges of the range are not searched in the column.
ghost use Rattle.std.specs.Prelude.{◌≡◌, [], ◌∷◌, length, map, OnOk, true};
ghost use Rattle.std.specs.Option.{ForSome};
ghost use Rattle.std.proofs.Props.{props};
ghost use Rattle.std.proofs.lemmas.Map.Keys.{IsStrictlySortedBy-prop};
ghost use Rattle.fc_spec.specs.documents.Columns.{column_of};
ghost use Rattle.fc_spec.specs.documents.Sets.{places_on};
ghost use Rattle.fc_spec.specs.documents.Totals.{document_total, documents_in};
ghost use Rattle.fc_spec.specs.documents.Val.{text};
ghost use Rattle.fc_spec.specs.requests.Buckets as bucket;
ghost use Rattle.fc_spec.specs.requests.Buckets.{bucket_places};
ghost use Rattle.fc_spec.specs.requests.Request as kind;
ghost use Rattle.fc_spec.specs.requests.Statistics.{stats_over};
ghost use Rattle.fc_spec.specs.scripts.WorldLimits.{IsWithinLimits};
ghost use Rattle.fc_base.specs.StatisticView.{stat_view};
ghost use Rattle.fc_facet.specs.KindView.{date_range_view};
ghost use Rattle.fc_facet.specs.RangeGaps.{HasFewEdges};
ghost use Rattle.fc_partial.specs.Adding.{AddUp};
ghost use Rattle.fc_partial.specs.Tallying.{entry_at};
ghost use Rattle.fc_kind.specs.Collecting.{CollectsAmong};
ghost use Rattle.fc_kind.specs.Columns.{HaveFields};
ghost use Rattle.fc_date_range.specs.GapKeys.{is_gap_of};

mod counting;
mod holding;

use counting::count_date;
use fc_base::{Stat, WantMemory};
use fc_column::TextColumn;
use fc_count::{Numbering, add_cells, counted_cells};
use fc_docset::DocSet;
use fc_facet::DateRange;
use fc_partial::{Cells, StatValue, Tally};
use fc_range::GapKeys;
use fc_segment::Segment;
use std::alloc::Global;

/// The gaps of a range facet over dates by their numbers: each counts the documents with a date that it holds.
#[derive(Clone, Copy)]
struct GapDates<'a> {
    range: &'a DateRange,
    column: &'a TextColumn,
    ghost few: { HasFewEdges (date_range_view range.now) } by { Prim.hlevel (props, IsStrictlySortedBy-prop) },
}

impl Numbering for GapDates<'_> {
    ghost use Rattle.std.specs.Prelude.{[], length, slice_index_or};
    ghost use Rattle.std.specs.List.{list_any};
    ghost use Rattle.fc_spec.specs.requests.DateGaps.{date_gap_count, in_date_gap};
    ghost use Rattle.fc_facet.specs.KindView.{date_range_view};

    ghost positions = { λ gaps. length gaps.column.now };

    ghost bound = { λ gaps. date_gap_count (date_range_view gaps.range.now) };

    ghost holds = { λ gaps at i. list_any (in_date_gap (date_range_view gaps.range.now) i)
        (slice_index_or gaps.column.now at []) };

    fn count(&self, at: u32, values: &[StatValue], cells: &mut Cells) {
        let mut reached = 0;
        for ord in self.column.ordinals_of(at) {
            reached = count_date(self.range, self.column.term(*ord), reached, values, cells);
        }
    }
}

/// Collects the buckets of the gaps, one document after another, each by its own dates.
pub(crate) fn collect_by_dates(
    alloc: Global,
    segment: &Segment,
    docs: &DocSet,
    range: &DateRange,
    column: &TextColumn,
    stats: Vec<Stat>,
    into: &mut Tally,
) -> Result<(), WantMemory>
    requires few { HasFewEdges (date_range_view range.now) }
    requires column { map (map text) column.now
        ≡ column_of range.now.field.0 (documents_in segment.now.blocks) }
    requires fields { HaveFields segment.now.texts (map stat_view stats.items) }
    requires limits { IsWithinLimits (segment.now.blocks ∷ []) }
    requires length { length docs.now ≡ document_total segment.now.blocks }
    requires stats { into.old.stats ≡ map stat_view stats.items }
    requires add_up { (k : bucket.Key) → is_gap_of (date_range_view range.now) k ≡ true
        → ForSome (entry_at into.old.entries k) (λ there. AddUp there (stats_over into.old.stats
        (bucket_places (kind.date_range (date_range_view range.now)) k
        (places_on 0 segment.now.blocks docs.now)))) }
    ensures { OnOk result (CollectsAmong (is_gap_of (date_range_view range.now))
        (kind.date_range (date_range_view range.now)) into.old.stats
        (places_on 0 segment.now.blocks docs.now) into.old into.new) }
{
    let gaps = GapDates { range, column };
    let bound = range.gaps() as usize;
    let cells = counted_cells(alloc, segment, docs, stats, bound, &gaps)?;
    add_cells(alloc, &cells, bound, &GapKeys, into)?;
    Ok(())
}
