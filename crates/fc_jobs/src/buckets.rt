// One segment of a top bucket's job.
ghost use Rattle.std.specs.Prelude.{◌≡◌, ◌∷◌, [], IsTrue, OnOk, length, map};
ghost use Rattle.fc_spec.specs.documents.Sets.{places_on};
ghost use Rattle.fc_spec.specs.documents.Totals.{document_total};
ghost use Rattle.fc_spec.specs.requests.Buckets.{is_key_of};
ghost use Rattle.fc_spec.specs.requests.DomainSets.{bucket_set};
ghost use Rattle.fc_spec.specs.requests.Request.{stats_of};
ghost use Rattle.fc_spec.specs.requests.Statistics.{stats_over};
ghost use Rattle.fc_spec.specs.requests.Combining.{combined};
ghost use Rattle.fc_spec.specs.scripts.WorldLimits.{IsWithinLimits};
ghost use Rattle.fc_base.specs.StatisticView.{stat_view};
ghost use Rattle.fc_partial.specs.Adding.{AddUp, HasShape};
ghost use Rattle.fc_partial.specs.StatsView.{stats_view};
ghost use Rattle.fc_partial.specs.View.{key_view};
ghost use Rattle.fc_request.specs.FacetNode.{kind_of, kind_view};
ghost use Rattle.fc_request.specs.NodeView.{inner_view};
ghost use Rattle.fc_kind.specs.Names.{Covers};
ghost use Rattle.fc_jobs.specs.FacetFits.{FacetFits};

use crate::choosing::selected;
use fc_base::{Stat, WantMemory};
use fc_docset::DocSet;
use fc_kind::{FacetKind, set_stats};
use fc_partial::{Key, Stats};
use fc_request::Node;
use fc_segment::Segment;
use std::alloc::Global;

/// One segment of a bucket by itself, which is that of a key of the node: its count and its statistics there, combined with
/// those of other segments.
pub fn bucket_unit(
    alloc: Global,
    kinds: &[Box<dyn FacetKind>],
    segment: &Segment,
    docs: &DocSet,
    node: &Node,
    key: &Key,
    stats: &[Stat],
    over: &mut Stats,
) -> Result<(), WantMemory>
    requires covers { Covers (map name kinds.now) }
    requires limits { IsWithinLimits (segment.now.blocks ∷ []) }
    requires node { FacetFits segment.now.texts node.now }
    requires key { IsTrue (is_key_of (kind_view (kind_of node.now)) (key_view key.now)) }
    requires length { length docs.now ≡ document_total segment.now.blocks }
    requires stats { map stat_view stats.now ≡ stats_of (inner_view node.now) }
    requires shaped { HasShape (map stat_view stats.now) (stats_view over.old) }
    requires add_up { AddUp (stats_view over.old) (stats_over (map stat_view stats.now) (places_on 0 segment.now.blocks
        (bucket_set (kind_view (kind_of node.now)) (key_view key.now) segment.now.blocks docs.now))) }
    ensures { OnOk result (stats_view over.new ≡ combined (map stat_view stats.now) (stats_view over.old)
        (stats_over (map stat_view stats.now) (places_on 0 segment.now.blocks
        (bucket_set (kind_view (kind_of node.now)) (key_view key.now) segment.now.blocks docs.now)))) }
{
    let bucket = selected(alloc, kinds, segment, docs, node, key)?;
    let here = set_stats(alloc, segment, stats, &bucket)?;
    over.combine(stats, &here);
    Ok(())
}
