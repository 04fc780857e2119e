// A kind of facet.
ghost use Rattle.std.specs.Prelude.{◌≡◌, [], ◌∷◌, length, Some, OnOk};
ghost use Rattle.std.specs.Bool.{IsTrue};
ghost use Rattle.fc_spec.specs.documents.Sets.{places_on};
ghost use Rattle.fc_spec.specs.documents.Totals.{document_total};
ghost use Rattle.fc_spec.specs.requests.Buckets.{is_key_of};
ghost use Rattle.fc_spec.specs.requests.DomainSets.{bucket_set};
ghost use Rattle.fc_spec.specs.requests.Request.{stats_of};
ghost use Rattle.fc_spec.specs.scripts.WorldLimits.{IsWithinLimits};
ghost use Rattle.fc_partial.specs.View.{key_view};
ghost use Rattle.fc_request.specs.FacetNode.{kind_of, kind_view};
ghost use Rattle.fc_request.specs.NodeView.{inner_view};
ghost use Rattle.fc_kind.specs.Names as names;
ghost use Rattle.fc_kind.specs.Collecting.{BucketsAddUp, Collects};
ghost use Rattle.fc_kind.specs.Columns.{FitsColumns, HaveFields};

use crate::KindName;
use fc_base::WantMemory;
use fc_docset::DocSet;
use fc_partial::{Key, Tally};
use fc_request::Node;
use fc_segment::Segment;
use std::alloc::Global;

/// A kind of facet that has buckets: how they are counted in a segment, and which documents they have there.
pub trait FacetKind: Send + Sync + Drop {
    ghost use Rattle.fc_kind.specs.declared.name.KindName.{KindName};

    ghost name: { Self → KindName };

    /// Its name.
    fn kind(&self) -> KindName
        ensures { result ≡ name self.now };

    /// Combines the statistics of the documents in the set into each bucket that has one of them. After want of
    /// memory some of the buckets have theirs.
    fn collect(
        &self,
        alloc: Global,
        segment: &Segment,
        docs: &DocSet,
        node: &Node,
        into: &mut Tally,
    ) -> Result<(), WantMemory>
        requires kind { names.name_of (kind_of node.now) ≡ Some (name self.now) }
        requires fits { FitsColumns segment.now.texts (kind_view (kind_of node.now)) }
        requires fields { HaveFields segment.now.texts (stats_of (inner_view node.now)) }
        requires limits { IsWithinLimits (segment.now.blocks ∷ []) }
        requires length { length docs.now ≡ document_total segment.now.blocks }
        requires stats { into.old.stats ≡ stats_of (inner_view node.now) }
        requires add_up { BucketsAddUp (kind_view (kind_of node.now)) into.old.stats
            (places_on 0 segment.now.blocks docs.now) into.old.entries }
        ensures { OnOk result (Collects (kind_view (kind_of node.now)) into.old.stats
            (places_on 0 segment.now.blocks docs.now) into.old into.new) };

    /// Makes the set those of the documents in the other set that are in the bucket. After want of memory nothing is
    /// known of it but its length.
    fn select(
        &self,
        alloc: Global,
        segment: &Segment,
        docs: &DocSet,
        node: &Node,
        key: &Key,
        into: &mut DocSet,
    ) -> Result<(), WantMemory>
        requires kind { names.name_of (kind_of node.now) ≡ Some (name self.now) }
        requires fits { FitsColumns segment.now.texts (kind_view (kind_of node.now)) }
        requires length { length docs.now ≡ document_total segment.now.blocks }
        requires same_length { length into.old ≡ document_total segment.now.blocks }
        requires key { IsTrue (is_key_of (kind_view (kind_of node.now)) (key_view key.now)) }
        ensures set { OnOk result (into.new ≡ bucket_set (kind_view (kind_of node.now)) (key_view key.now)
            segment.now.blocks docs.now) }
        ensures kept { length into.new ≡ length into.old };
}

impl FacetKind for Box<dyn FacetKind> {
    ghost name = { λ b. (FacetKind-box b).name b.value };

    fn kind(&self) -> KindName {
        (**self).kind()
    }

    fn collect(
        &self,
        alloc: Global,
        segment: &Segment,
        docs: &DocSet,
        node: &Node,
        into: &mut Tally,
    ) -> Result<(), WantMemory> {
        (**self).collect(alloc, segment, docs, node, into)
    }

    fn select(
        &self,
        alloc: Global,
        segment: &Segment,
        docs: &DocSet,
        node: &Node,
        key: &Key,
        into: &mut DocSet,
    ) -> Result<(), WantMemory> {
        (**self).select(alloc, segment, docs, node, key, into)
    }
}
