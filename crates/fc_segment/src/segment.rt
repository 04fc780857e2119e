// Segments.
ghost use Rattle.std.specs.Prelude.{◌≡◌, ◌<◌, ◌≤◌, ◌||◌, length, map, replicate, slice_index_or, All, IfOk, false, true};
ghost use Rattle.std.specs.Arc.{arc_value};
ghost use Rattle.fc_spec.specs.documents.Columns.{column_of};
ghost use Rattle.fc_spec.specs.documents.Live.{blocks_where, HasWholeBlocks};
ghost use Rattle.fc_spec.specs.documents.Operations.{blocks_added, has_id};
ghost use Rattle.fc_spec.specs.documents.Sets.{zip_with};
ghost use Rattle.fc_spec.specs.documents.Totals.{document_total, documents_in};
ghost use Rattle.fc_spec.specs.documents.Schema.{texts_held};
ghost use Rattle.fc_spec.specs.documents.ValidBlocks.{IsBlockOf};
ghost use Rattle.fc_spec.specs.words.Lists.{joined};
ghost use Rattle.fc_docs.specs.View.{batch_view};
ghost use Rattle.fc_segment.specs.BlockPositions.{first_in_block, parent_in_block};
ghost use Rattle.fc_segment.specs.Columns.{column_values, is_text_column};
ghost use Rattle.fc_segment.specs.Merged.{live_blocks_of};
ghost use Rattle.fc_segment.specs.Parents.{parents_in};

use crate::Column;
use crate::segment_core::SegmentCore;
use fc_base::{FieldId, Schema, WantMemory};
use fc_docs::Batch;
use fc_docset::DocSet;
use std::alloc::Global;
use std::marker::Model;
use std::sync::Arc;

/// Blocks that nothing changes, as one column for each field of the schema, and which of them are live. Its
/// documents stand at positions from 0, block after block, each parent behind its children.
#[derive(Debug, Drop)]
pub struct Segment {
    core: Arc<SegmentCore>,
    live: DocSet,
}

impl Model for Segment {
    ghost use Rattle.fc_segment.specs.Segmented.{Segmented};

    ghost Value = { Segmented };

    ghost use Rattle.fc_segment.specs.Marked.{segmented, IsMarked};

    ghost view = { segmented };

    ghost invariant = { IsMarked };
}

impl Segment {
    /// The blocks that a batch adds, all live.
    pub fn build(alloc: Global, schema: &Schema, batch: &Batch) -> Result<Segment, WantMemory>
        requires valid { All (IsBlockOf schema.now) (blocks_added (batch_view batch.now)) }
        requires few { document_total (blocks_added (batch_view batch.now)) ≤ 1_048_576 }
        ensures { IfOk result (λ segment. segment ≡ record {
          texts = texts_held schema.now.fields;
          blocks = blocks_added (batch_view batch.now);
          live = replicate (document_total (blocks_added (batch_view batch.now))) true;
        }) }
    {
        let core = SegmentCore::build(alloc, schema, batch)?;
        let segment = Segment::all_live(alloc, core)?;
        Ok(segment)
    }

    /// The blocks that batches add, one batch behind the other, all live. Each document is let go when it is copied, so that the
    /// batches and the segment never stand beside each other whole.
    pub fn of_batches(
        alloc: Global,
        schema: &Schema,
        batches: Vec<Batch>,
    ) -> Result<Segment, WantMemory>
        requires valid { All (IsBlockOf schema.now) (blocks_added (joined (map batch_view batches.items))) }
        requires few { document_total (blocks_added (joined (map batch_view batches.items))) ≤ 1_048_576 }
        ensures { IfOk result (λ segment. segment ≡ record {
          texts = texts_held schema.now.fields;
          blocks = blocks_added (joined (map batch_view batches.items));
          live = replicate
              (document_total (blocks_added (joined (map batch_view batches.items)))) true;
        }) }
    {
        let core = SegmentCore::of_batches(alloc, schema, batches)?;
        let segment = Segment::all_live(alloc, core)?;
        Ok(segment)
    }

    /// The live blocks of segments, one segment behind the other, all live. No document is read again, and no text is
    /// compared for a document. A segment has at most 4,294,967,295 documents: more are answered as want of memory.
    pub fn merge(
        alloc: Global,
        schema: &Schema,
        segments: &[Arc<Segment>],
    ) -> Result<Segment, WantMemory>
        requires kinds { All (λ segment. segment.texts ≡ texts_held schema.now.fields)
            (map arc_value segments.now) }
        requires valid { All (IsBlockOf schema.now) (live_blocks_of (map arc_value segments.now)) }
        ensures { IfOk result (λ segment. segment ≡ record {
          texts = texts_held schema.now.fields;
          blocks = live_blocks_of (map arc_value segments.now);
          live = replicate (document_total (live_blocks_of (map arc_value segments.now))) true;
        }) }
    {
        let core = SegmentCore::merge(alloc, schema, segments)?;
        let segment = Segment::all_live(alloc, core)?;
        Ok(segment)
    }

    // All blocks, live.
    fn all_live(alloc: Global, core: SegmentCore) -> Result<Segment, WantMemory>
        ensures { IfOk result (λ segment. segment ≡ record {
          texts = core.texts;
          blocks = core.blocks;
          live = replicate (document_total core.blocks) true;
        }) }
    {
        let live = DocSet::full(alloc, core.doc_count())?;
        let core = Arc::new(alloc, core)?;
        Ok(Segment { core, live })
    }

    /// The same blocks, of which these are live: their columns are shared.
    pub fn with_live(&self, alloc: Global, live: DocSet) -> Result<Segment, WantMemory>
        requires whole { HasWholeBlocks self.now.blocks live }
        ensures { IfOk result (λ segment. segment ≡ record self.now { live = live }) }
    {
        Ok(Segment {
            core: Arc::try_clone(&self.core)?,
            live,
        })
    }

    /// The positions of the documents that are live: of each block all, or none.
    pub fn live(&self) -> &DocSet
        ensures live { result.now ≡ self.now.live }
        ensures whole { HasWholeBlocks self.now.blocks self.now.live }
    {
        &self.live
    }

    /// How many documents there are, children and parents, live or not.
    pub fn doc_count(&self) -> u32
        ensures { result ≡ document_total self.now.blocks }
    {
        self.core.doc_count()
    }

    /// The values of a field, position by position.
    pub fn column(&self, field: FieldId) -> &Column
        requires { field.0 < length self.now.texts }
        ensures values { column_values result.now
            ≡ column_of field.0 (documents_in self.now.blocks) }
        ensures kind { is_text_column result.now ≡ slice_index_or self.now.texts field.0 false }
    {
        self.core.column(field)
    }

    /// The positions of the parents.
    pub fn parents(&self) -> &DocSet
        ensures { result.now ≡ parents_in self.now.blocks }
    {
        self.core.parents()
    }

    /// The position of the parent of the block in which a position stands.
    pub fn parent_of(&self, at: u32) -> u32
        requires { at < document_total self.now.blocks }
        ensures { result ≡ parent_in_block self.now.blocks at }
    {
        self.core.parent_of(at)
    }

    /// The first position of the block in which a position stands: its first child, or the parent where it has none.
    pub fn first_child(&self, at: u32) -> u32
        requires { at < document_total self.now.blocks }
        ensures { result ≡ first_in_block self.now.blocks at }
    {
        self.core.first_child(at)
    }

    /// Adds the positions of the blocks whose parent has the id, by its UTF-8 bytes, live or not, children included. It takes
    /// no memory. The id is searched among the terms of field 0, and then each block that has it is added, by words of its
    /// positions: other blocks cost nothing, and neither do children that share the id.
    pub fn parents_with_id(&self, id: &[u8], into: &mut DocSet)
        requires texts { slice_index_or self.now.texts 0 false ≡ true }
        requires length { length into.old ≡ document_total self.now.blocks }
        ensures { into.new ≡ zip_with ◌||◌ into.old
            (blocks_where (has_id id.now) self.now.blocks) }
    {
        self.core.parents_with_id(id, into);
    }
}
