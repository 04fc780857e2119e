// The work of a facet in a segment by the kind that was handed in for it.
ghost use Rattle.std.specs.Prelude.{◌≡◌, ◌∷◌, [], IfOk, IsTrue, OnOk, length, map};
ghost use Rattle.fc_spec.specs.documents.Sets.{places_on};
ghost use Rattle.fc_spec.specs.documents.Totals.{document_total};
ghost use Rattle.fc_spec.specs.requests.Buckets.{is_key_of};
ghost use Rattle.fc_spec.specs.requests.DomainSets.{bucket_set};
ghost use Rattle.fc_spec.specs.requests.Request.{stats_of};
ghost use Rattle.fc_spec.specs.scripts.WorldLimits.{IsWithinLimits};
ghost use Rattle.fc_partial.specs.View.{key_view};
ghost use Rattle.fc_request.specs.FacetNode.{has_buckets, kind_of, kind_view};
ghost use Rattle.fc_request.specs.NodeView.{inner_view};
ghost use Rattle.fc_kind.specs.Collecting.{BucketsAddUp, Collects};
ghost use Rattle.fc_kind.specs.Columns.{FitsColumns, HaveFields};
ghost use Rattle.fc_kind.specs.Names.{Covers};

use fc_base::WantMemory;
use fc_docset::DocSet;
use fc_kind::{FacetKind, name_of, the_kind};
use fc_partial::{Key, Tally};
use fc_request::Node;
use fc_segment::Segment;
use std::alloc::Global;

/// Combines the statistics of the documents in the set into each bucket of the node that has one of them. No
/// document is looked at where the set is empty.
pub(crate) fn collect(
    alloc: Global,
    kinds: &[Box<dyn FacetKind>],
    segment: &Segment,
    docs: &DocSet,
    node: &Node,
    into: &mut Tally,
) -> Result<(), WantMemory>
    requires covers { Covers (map name kinds.now) }
    requires facet { IsTrue (has_buckets (kind_of node.now)) }
    requires fits { FitsColumns segment.now.texts (kind_view (kind_of node.now)) }
    requires fields { HaveFields segment.now.texts (stats_of (inner_view node.now)) }
    requires limits { IsWithinLimits (segment.now.blocks ∷ []) }
    requires length { length docs.now ≡ document_total segment.now.blocks }
    requires stats { into.old.stats ≡ stats_of (inner_view node.now) }
    requires add_up { BucketsAddUp (kind_view (kind_of node.now)) into.old.stats
        (places_on 0 segment.now.blocks docs.now) into.old.entries }
    ensures { OnOk result (Collects (kind_view (kind_of node.now)) into.old.stats
        (places_on 0 segment.now.blocks docs.now) into.old into.new) }
{
    if docs.next_from(0).is_none() {
        return Ok(());
    }
    match name_of(node) {
        Some(name) => the_kind(kinds, name).collect(alloc, segment, docs, node, into),
        None => unreachable!(),
    }
}

/// The documents in the set that are in a bucket of the node. No document is looked at where the set is empty.
pub(crate) fn selected(
    alloc: Global,
    kinds: &[Box<dyn FacetKind>],
    segment: &Segment,
    docs: &DocSet,
    node: &Node,
    key: &Key,
) -> Result<DocSet, WantMemory>
    requires covers { Covers (map name kinds.now) }
    requires facet { IsTrue (has_buckets (kind_of node.now)) }
    requires fits { FitsColumns segment.now.texts (kind_view (kind_of node.now)) }
    requires length { length docs.now ≡ document_total segment.now.blocks }
    requires key { IsTrue (is_key_of (kind_view (kind_of node.now)) (key_view key.now)) }
    ensures { IfOk result (λ set. set ≡ bucket_set (kind_view (kind_of node.now)) (key_view key.now)
        segment.now.blocks docs.now) }
{
    let mut into = DocSet::empty(alloc, docs.len())?;
    if docs.next_from(0).is_none() {
        return Ok(into);
    }
    match name_of(node) {
        Some(name) => the_kind(kinds, name).select(alloc, segment, docs, node, key, &mut into)?,
        None => unreachable!(),
    }
    Ok(into)
}
