// The gaps of a range facet, one after another, each by the set of its documents.
ghost use Rattle.std.specs.Prelude.{◌≡◌, [], ◌∷◌, length, map, OnOk, true};
ghost use Rattle.std.specs.Option.{ForSome};
ghost use Rattle.fc_spec.specs.documents.Sets.{places_on};
ghost use Rattle.fc_spec.specs.documents.Totals.{document_total};
ghost use Rattle.fc_spec.specs.messages.KeyOrder.{same_key};
ghost use Rattle.fc_spec.specs.requests.Buckets as bucket;
ghost use Rattle.fc_spec.specs.requests.Buckets.{bucket_places};
ghost use Rattle.fc_spec.specs.requests.Request as kind;
ghost use Rattle.fc_spec.specs.requests.Statistics.{stats_over};
ghost use Rattle.fc_spec.specs.scripts.WorldLimits.{IsWithinLimits};
ghost use Rattle.fc_base.specs.StatisticView.{stat_view};
ghost use Rattle.fc_facet.specs.KindView.{range_view};
ghost use Rattle.fc_partial.specs.Adding.{AddUp};
ghost use Rattle.fc_partial.specs.Tallying.{entry_at};
ghost use Rattle.fc_partial.specs.View.{key_view};
ghost use Rattle.fc_kind.specs.Collecting.{CollectsAmong};
ghost use Rattle.fc_kind.specs.Columns.{FitsColumns, HaveFields};
ghost use Rattle.fc_range.specs.GapKeys.{is_gap_of};

use crate::selecting::select_bucket;
use fc_base::{Stat, WantMemory};
use fc_docset::DocSet;
use fc_facet::Range;
use fc_kind::add_documents;
use fc_partial::{Key, Tally};
use fc_segment::Segment;
use std::alloc::Global;

// Collects one bucket. It makes `own` the set of the documents in it.
pub(crate) fn collect_bucket(
    alloc: Global,
    segment: &Segment,
    docs: &DocSet,
    range: &Range,
    stats: &[Stat],
    key: Key,
    own: &mut DocSet,
    into: &mut Tally,
) -> Result<(), WantMemory>
    requires fits { FitsColumns segment.now.texts (kind.range (range_view range.now)) }
    requires fields { HaveFields segment.now.texts (map stat_view stats.now) }
    requires limits { IsWithinLimits (segment.now.blocks ∷ []) }
    requires length { length docs.now ≡ document_total segment.now.blocks }
    requires same_length { length own.old ≡ document_total segment.now.blocks }
    requires stats { into.old.stats ≡ map stat_view stats.now }
    requires add_up { ForSome (entry_at into.old.entries (key_view key)) (λ there. AddUp there
        (stats_over into.old.stats (bucket_places (kind.range (range_view range.now)) (key_view key)
        (places_on 0 segment.now.blocks docs.now)))) }
    ensures collects { OnOk result (CollectsAmong (λ k. same_key k (key_view key))
        (kind.range (range_view range.now)) into.old.stats
        (places_on 0 segment.now.blocks docs.now) into.old into.new) }
    ensures kept { length own.new ≡ length own.old }
{
    select_bucket(segment, docs, range, &key, own);
    add_documents(alloc, segment, stats, own, key, into)?;
    Ok(())
}

/// Collects the buckets of the gaps, one after another.
pub(crate) fn collect_gaps_by_sets(
    alloc: Global,
    segment: &Segment,
    docs: &DocSet,
    range: &Range,
    stats: &[Stat],
    into: &mut Tally,
) -> Result<(), WantMemory>
    requires fits { FitsColumns segment.now.texts (kind.range (range_view range.now)) }
    requires fields { HaveFields segment.now.texts (map stat_view stats.now) }
    requires limits { IsWithinLimits (segment.now.blocks ∷ []) }
    requires length { length docs.now ≡ document_total segment.now.blocks }
    requires stats { into.old.stats ≡ map stat_view stats.now }
    requires add_up { (k : bucket.Key) → is_gap_of (range_view range.now) k ≡ true
        → ForSome (entry_at into.old.entries k) (λ there. AddUp there (stats_over into.old.stats
        (bucket_places (kind.range (range_view range.now)) k
        (places_on 0 segment.now.blocks docs.now)))) }
    ensures { OnOk result (CollectsAmong (is_gap_of (range_view range.now))
        (kind.range (range_view range.now)) into.old.stats
        (places_on 0 segment.now.blocks docs.now) into.old into.new) }
{
    let mut own = DocSet::empty(alloc, docs.len())?;
    for number in 0..range.gaps() {
        collect_bucket(
            alloc,
            segment,
            docs,
            range,
            stats,
            Key::Gap(number),
            &mut own,
            into,
        )?;
    }
    Ok(())
}
