// The buckets beside the gaps of a range facet over dates.
ghost use Rattle.std.specs.Prelude.{◌≡◌, ◌&&◌, [], ◌∷◌, length, map, OnOk, true, IsTrue};
ghost use Rattle.std.specs.Option.{ForSome};
ghost use Rattle.fc_spec.specs.documents.Sets.{places_on};
ghost use Rattle.fc_spec.specs.documents.Totals.{document_total};
ghost use Rattle.fc_spec.specs.messages.KeyOrder.{same_key};
ghost use Rattle.fc_spec.specs.requests.Buckets.{bucket_places, is_date_range_key};
ghost use Rattle.fc_spec.specs.requests.Request as kind;
ghost use Rattle.fc_spec.specs.requests.Statistics.{stats_over};
ghost use Rattle.fc_spec.specs.scripts.WorldLimits.{IsWithinLimits};
ghost use Rattle.fc_base.specs.StatisticView.{stat_view};
ghost use Rattle.fc_facet.specs.KindView.{date_range_view};
ghost use Rattle.fc_partial.specs.Adding.{AddUp};
ghost use Rattle.fc_partial.specs.Tallying.{entry_at};
ghost use Rattle.fc_partial.specs.View.{key_view};
ghost use Rattle.fc_kind.specs.Collecting.{CollectsAmong};
ghost use Rattle.fc_kind.specs.Columns.{FitsColumns, HaveFields};

use crate::selecting::select_bucket;
use fc_base::{Stat, WantMemory};
use fc_docset::DocSet;
use fc_facet::DateRange;
use fc_kind::add_documents;
use fc_partial::{Key, Tally};
use fc_segment::Segment;
use std::alloc::Global;

// Collects one bucket.
fn collect_bucket(
    alloc: Global,
    segment: &Segment,
    docs: &DocSet,
    range: &DateRange,
    stats: &[Stat],
    key: Key,
    into: &mut Tally,
) -> Result<(), WantMemory>
    requires fits { FitsColumns segment.now.texts (kind.date_range (date_range_view range.now)) }
    requires key { IsTrue (is_date_range_key (date_range_view range.now) (key_view key)) }
    requires fields { HaveFields segment.now.texts (map stat_view stats.now) }
    requires limits { IsWithinLimits (segment.now.blocks ∷ []) }
    requires length { length docs.now ≡ document_total segment.now.blocks }
    requires stats { into.old.stats ≡ map stat_view stats.now }
    requires add_up { ForSome (entry_at into.old.entries (key_view key)) (λ there. AddUp there
        (stats_over into.old.stats (bucket_places (kind.date_range (date_range_view range.now))
        (key_view key) (places_on 0 segment.now.blocks docs.now)))) }
    ensures { OnOk result (CollectsAmong (λ k. same_key k (key_view key))
        (kind.date_range (date_range_view range.now)) into.old.stats
        (places_on 0 segment.now.blocks docs.now) into.old into.new) }
{
    let mut own = DocSet::empty(alloc, docs.len())?;
    select_bucket(segment, docs, range, &key, &mut own);
    add_documents(alloc, segment, stats, &own, key, into)?;
    Ok(())
}

/// Collects a bucket beside the gaps, if it is asked for.
pub(crate) fn collect_beside(
    alloc: Global,
    segment: &Segment,
    docs: &DocSet,
    range: &DateRange,
    stats: &[Stat],
    key: Key,
    asked: bool,
    into: &mut Tally,
) -> Result<(), WantMemory>
    requires fits { FitsColumns segment.now.texts (kind.date_range (date_range_view range.now)) }
    requires key { asked ≡ true → IsTrue (is_date_range_key (date_range_view range.now) (key_view key)) }
    requires fields { HaveFields segment.now.texts (map stat_view stats.now) }
    requires limits { IsWithinLimits (segment.now.blocks ∷ []) }
    requires length { length docs.now ≡ document_total segment.now.blocks }
    requires stats { into.old.stats ≡ map stat_view stats.now }
    requires add_up { asked ≡ true → ForSome (entry_at into.old.entries (key_view key)) (λ there. AddUp there
        (stats_over into.old.stats (bucket_places (kind.date_range (date_range_view range.now))
        (key_view key) (places_on 0 segment.now.blocks docs.now)))) }
    ensures { OnOk result (CollectsAmong (λ k. asked && same_key k (key_view key))
        (kind.date_range (date_range_view range.now)) into.old.stats
        (places_on 0 segment.now.blocks docs.now) into.old into.new) }
{
    if !asked {
        return Ok(());
    }
    collect_bucket(alloc, segment, docs, range, stats, key, into)?;
    Ok(())
}
