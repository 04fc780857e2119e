// Range facets.
ghost use Rattle.std.specs.Prelude.{◌≡◌, ℕ, ◌<◌, ◌&&◌, [], ◌∷◌, length, map, OnOk, false, true, IsTrue};
ghost use Rattle.std.specs.Option.{ForSome};
ghost use Rattle.fc_spec.specs.documents.Sets.{places_on};
ghost use Rattle.fc_spec.specs.documents.Totals.{document_total};
ghost use Rattle.fc_spec.specs.messages.KeyOrder.{same_key};
ghost use Rattle.fc_spec.specs.requests.Buckets as bucket;
ghost use Rattle.fc_spec.specs.requests.Buckets.{bucket_places};
ghost use Rattle.fc_spec.specs.requests.Request as kind;
ghost use Rattle.fc_spec.specs.requests.Statistics.{stats_over};
ghost use Rattle.fc_spec.specs.scripts.WorldLimits.{IsWithinLimits};
ghost use Rattle.fc_base.specs.StatisticView.{stat_view};
ghost use Rattle.fc_facet.specs.KindView.{range_view};
ghost use Rattle.fc_partial.specs.Adding.{AddUp};
ghost use Rattle.fc_partial.specs.Tallying.{entry_at};
ghost use Rattle.fc_partial.specs.View.{key_view};
ghost use Rattle.fc_kind.specs.Collecting.{CollectsAmong};
ghost use Rattle.fc_kind.specs.Columns.{FitsColumns, HaveFields};
ghost use Rattle.fc_kind.specs.declared.name.KindName.TheVariants as name;
ghost use Rattle.fc_range.specs.GapKeys.{is_gap_of};

use crate::by_sets::{collect_bucket, collect_gaps_by_sets};
use crate::choice::is_cheap_by_sets;
use crate::counting::GapNumbers;
use crate::keys::GapKeys;
use crate::selecting::select_bucket;
use fc_base::{Stat, WantMemory};
use fc_count::{add_cells, counted_cells};
use fc_docset::DocSet;
use fc_facet::{Kind, Range};
use fc_kind::{FacetKind, KindName};
use fc_partial::{Key, Tally};
use fc_request::Node;
use fc_segment::{Column, Segment};
use std::alloc::Global;

/// Range facets: a bucket for each gap, and those beside the gaps that are asked for. (Guide: JSON Facet API, "Range
/// Facet")
#[derive(Debug, Drop)]
pub struct RangeKind;

// Collects the buckets of the gaps, one after another or all side by side.
fn collect_gaps(
    alloc: Global,
    segment: &Segment,
    docs: &DocSet,
    range: &Range,
    stats: Vec<Stat>,
    into: &mut Tally,
) -> Result<(), WantMemory>
    requires fits { FitsColumns segment.now.texts (kind.range (range_view range.now)) }
    requires fields { HaveFields segment.now.texts (map stat_view stats.items) }
    requires limits { IsWithinLimits (segment.now.blocks ∷ []) }
    requires length { length docs.now ≡ document_total segment.now.blocks }
    requires stats { into.old.stats ≡ map stat_view stats.items }
    requires add_up { (k : bucket.Key) → is_gap_of (range_view range.now) k ≡ true
        → ForSome (entry_at into.old.entries k) (λ there. AddUp there (stats_over into.old.stats
        (bucket_places (kind.range (range_view range.now)) k
        (places_on 0 segment.now.blocks docs.now)))) }
    ensures { OnOk result (CollectsAmong (is_gap_of (range_view range.now))
        (kind.range (range_view range.now)) into.old.stats
        (places_on 0 segment.now.blocks docs.now) into.old into.new) }
{
    let Column::Long(column) = segment.column(range.field) else {
        unreachable!()
    };
    if is_cheap_by_sets(column, docs, range, &stats) {
        return collect_gaps_by_sets(alloc, segment, docs, range, &stats, into);
    }
    let gaps = range.gaps();
    let bound = gaps as usize;
    let numbers = GapNumbers {
        range,
        gaps,
        column,
    };
    let cells = counted_cells(alloc, segment, docs, stats, bound, &numbers)?;
    add_cells(alloc, &cells, bound, &GapKeys, into)?;
    Ok(())
}

// Collects a bucket beside the gaps, if it is asked for.
fn collect_beside(
    alloc: Global,
    segment: &Segment,
    docs: &DocSet,
    range: &Range,
    stats: &[Stat],
    key: Key,
    asked: bool,
    into: &mut Tally,
) -> Result<(), WantMemory>
    requires fits { FitsColumns segment.now.texts (kind.range (range_view range.now)) }
    requires fields { HaveFields segment.now.texts (map stat_view stats.now) }
    requires limits { IsWithinLimits (segment.now.blocks ∷ []) }
    requires length { length docs.now ≡ document_total segment.now.blocks }
    requires stats { into.old.stats ≡ map stat_view stats.now }
    requires add_up { asked ≡ true → ForSome (entry_at into.old.entries (key_view key)) (λ there. AddUp there
        (stats_over into.old.stats (bucket_places (kind.range (range_view range.now)) (key_view key)
        (places_on 0 segment.now.blocks docs.now)))) }
    ensures { OnOk result (CollectsAmong (λ k. asked && same_key k (key_view key))
        (kind.range (range_view range.now)) into.old.stats
        (places_on 0 segment.now.blocks docs.now) into.old into.new) }
{
    if !asked {
        return Ok(());
    }
    let mut own = DocSet::empty(alloc, docs.len())?;
    collect_bucket(alloc, segment, docs, range, stats, key, &mut own, into)?;
    Ok(())
}

impl FacetKind for RangeKind {
    ghost name = { λ _. name.Range };

    fn kind(&self) -> KindName {
        KindName::Range
    }

    fn collect(
        &self,
        alloc: Global,
        segment: &Segment,
        docs: &DocSet,
        node: &Node,
        into: &mut Tally,
    ) -> Result<(), WantMemory> {
        let Kind::Range(range) = &node.kind else {
            unreachable!()
        };
        let stats = node.stats(alloc)?;
        collect_beside(
            alloc,
            segment,
            docs,
            range,
            &stats,
            Key::Before,
            range.before,
            into,
        )?;
        collect_beside(
            alloc,
            segment,
            docs,
            range,
            &stats,
            Key::Between,
            range.between,
            into,
        )?;
        collect_beside(
            alloc,
            segment,
            docs,
            range,
            &stats,
            Key::After,
            range.after,
            into,
        )?;
        collect_gaps(alloc, segment, docs, range, stats, into)?;
        Ok(())
    }

    fn select(
        &self,
        _alloc: Global,
        segment: &Segment,
        docs: &DocSet,
        node: &Node,
        key: &Key,
        into: &mut DocSet,
    ) -> Result<(), WantMemory> {
        let Kind::Range(range) = &node.kind else {
            unreachable!()
        };
        select_bucket(segment, docs, range, key, into);
        Ok(())
    }
}
