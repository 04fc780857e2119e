// Adding the statistics of documents to a tally.
ghost use Rattle.std.specs.Prelude.{◌≡◌, [], ◌∷◌, length, map, OnOk};
ghost use Rattle.std.specs.Option.{ForSome};
ghost use Rattle.fc_spec.specs.documents.Sets.{places_on};
ghost use Rattle.fc_spec.specs.documents.Totals.{document_total};
ghost use Rattle.fc_spec.specs.requests.Statistics.{stats_over};
ghost use Rattle.fc_spec.specs.scripts.WorldLimits.{IsWithinLimits};
ghost use Rattle.fc_base.specs.StatisticView.{stat_view};
ghost use Rattle.fc_partial.specs.Adding.{AddUp};
ghost use Rattle.fc_partial.specs.Tallying.{entry_at};
ghost use Rattle.fc_partial.specs.View.{key_view};
ghost use Rattle.fc_kind.specs.Collecting.{GrowsBy};
ghost use Rattle.fc_kind.specs.Columns.{HaveFields};

use crate::set_stats;
use fc_base::{Stat, WantMemory};
use fc_docset::DocSet;
use fc_partial::{Key, Tally};
use fc_segment::Segment;
use std::alloc::Global;

/// Combines the statistics of the documents in a set with those of a key of the tally, where there are such documents.
pub fn add_documents(
    alloc: Global,
    segment: &Segment,
    stats: &[Stat],
    docs: &DocSet,
    key: Key,
    into: &mut Tally,
) -> Result<(), WantMemory>
    requires fields { HaveFields segment.now.texts (map stat_view stats.now) }
    requires limits { IsWithinLimits (segment.now.blocks ∷ []) }
    requires length { length docs.now ≡ document_total segment.now.blocks }
    requires stats { into.old.stats ≡ map stat_view stats.now }
    requires add_up { ForSome (entry_at into.old.entries (key_view key))
        (λ there. AddUp there (stats_over into.old.stats (places_on 0 segment.now.blocks docs.now))) }
    ensures { OnOk result (GrowsBy (key_view key)
        (places_on 0 segment.now.blocks docs.now) into.old into.new) }
{
    let over = set_stats(alloc, segment, stats, docs)?;
    if over.count == 0 {
        return Ok(());
    }
    into.add(key, &over)?;
    Ok(())
}
