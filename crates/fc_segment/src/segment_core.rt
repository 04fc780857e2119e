// Blocks as columns.
ghost use Rattle.std.specs.Prelude.{◌≡◌, ◌<◌, ◌≤◌, ◌&&◌, ◌||◌, ℕ, length, map, slice_index_or, All, IfOk, false, true};
ghost use Rattle.std.specs.Arc.{arc_value};
ghost use Rattle.fc_spec.specs.documents.Columns.{column_of};
ghost use Rattle.fc_spec.specs.documents.Live.{blocks_where};
ghost use Rattle.fc_spec.specs.documents.Operations.{blocks_added, has_id};
ghost use Rattle.fc_spec.specs.documents.Sets.{zip_with};
ghost use Rattle.fc_spec.specs.documents.Val.{has_val, text};
ghost use Rattle.fc_spec.specs.documents.Totals.{document_total, documents_in};
ghost use Rattle.fc_spec.specs.documents.Schema.{texts_held};
ghost use Rattle.fc_spec.specs.documents.ValidBlocks.{IsBlockOf};
ghost use Rattle.fc_spec.specs.words.Lists.{joined};
ghost use Rattle.fc_docs.specs.View.{batch_view};
ghost use Rattle.fc_docset.specs.Positions.{contains, positions};
ghost use Rattle.fc_segment.specs.BlockPositions.{first_in_block, is_in_block_of, parent_in_block};
ghost use Rattle.fc_segment.specs.Columns.{column_values, is_text_column};
ghost use Rattle.fc_segment.specs.Cut.{ends_with_parent};
ghost use Rattle.fc_segment.specs.Merged.{live_blocks_of};
ghost use Rattle.fc_segment.specs.Parents.{parents_in};
ghost use Rattle.fc_segment.specs.Stored.{columned};

use crate::columns::{columns_of, columns_of_batches};
use crate::ids::parents_by_id;
use crate::merged_columns::merged_columns;
use crate::merged_parents::merged_parents;
use crate::parents::{parents_of, parents_of_batches};
use crate::{Column, Segment};
use fc_base::{FieldId, Schema, WantMemory};
use fc_docs::Batch;
use fc_docset::DocSet;
use fc_lists::Lists;
use std::alloc::Global;
use std::marker::Model;
use std::sync::Arc;

/// The blocks of a segment, live or not, which nothing changes: segments that differ in what is live share them.
#[derive(Debug, Drop)]
pub struct SegmentCore {
    parents: DocSet,
    columns: Vec<Column>,
    // For each term of field 0 the positions of the parents that have it. There are none where each document is a parent.
    ids: Option<Lists<u32>>,
}

impl Model for SegmentCore {
    ghost use Rattle.fc_segment.specs.Columned.{Columned};

    ghost Value = { Columned };

    ghost use Rattle.fc_segment.specs.Stored.{stored, IsStored};

    ghost view = { stored };

    ghost invariant = { IsStored };
}

impl SegmentCore {
    /// The blocks that a batch adds.
    pub fn build(alloc: Global, schema: &Schema, batch: &Batch) -> Result<SegmentCore, WantMemory>
        requires valid { All (IsBlockOf schema.now) (blocks_added (batch_view batch.now)) }
        requires few { document_total (blocks_added (batch_view batch.now)) ≤ 1_048_576 }
        ensures { IfOk result (λ core. core ≡ record {
          texts = texts_held schema.now.fields;
          blocks = blocks_added (batch_view batch.now);
        }) }
    {
        let parents = parents_of(alloc, &batch.ops)?;
        let columns = columns_of(alloc, schema, &batch.ops)?;
        let core = SegmentCore::of(alloc, parents, columns)?;
        Ok(core)
    }

    /// The blocks that batches add, one batch behind the other.
    pub fn of_batches(
        alloc: Global,
        schema: &Schema,
        batches: Vec<Batch>,
    ) -> Result<SegmentCore, WantMemory>
        requires valid { All (IsBlockOf schema.now) (blocks_added (joined (map batch_view batches.items))) }
        requires few { document_total (blocks_added (joined (map batch_view batches.items))) ≤ 1_048_576 }
        ensures { IfOk result (λ core. core ≡ record {
          texts = texts_held schema.now.fields;
          blocks = blocks_added (joined (map batch_view batches.items));
        }) }
    {
        let parents = parents_of_batches(alloc, &batches)?;
        let columns = columns_of_batches(alloc, schema, batches)?;
        let core = SegmentCore::of(alloc, parents, columns)?;
        Ok(core)
    }

    /// The live blocks of segments, one segment behind the other.
    pub fn merge(
        alloc: Global,
        schema: &Schema,
        segments: &[Arc<Segment>],
    ) -> Result<SegmentCore, WantMemory>
        requires kinds { All (λ segment. segment.texts ≡ texts_held schema.now.fields)
            (map arc_value segments.now) }
        requires valid { All (IsBlockOf schema.now) (live_blocks_of (map arc_value segments.now)) }
        ensures { IfOk result (λ core. core ≡ record {
          texts = texts_held schema.now.fields;
          blocks = live_blocks_of (map arc_value segments.now);
        }) }
    {
        let parents = merged_parents(alloc, segments)?;
        let columns = merged_columns(alloc, schema, segments)?;
        let core = SegmentCore::of(alloc, parents, columns)?;
        Ok(core)
    }

    // The blocks with these columns, whose parents stand at these positions.
    fn of(alloc: Global, parents: DocSet, columns: Vec<Column>) -> Result<SegmentCore, WantMemory>
        requires even { All (λ column. length (column_values column) ≡ length parents)
            columns.items }
        requires whole { ends_with_parent true parents ≡ true }
        ensures { IfOk result (λ core. core ≡ columned parents columns.items) }
    {
        let ids = parents_by_id(alloc, &columns, &parents)?;
        Ok(SegmentCore {
            parents,
            columns,
            ids,
        })
    }

    /// How many documents there are, children and parents.
    pub fn doc_count(&self) -> u32
        ensures { result ≡ document_total self.now.blocks }
    {
        self.parents.len()
    }

    /// The values of a field, position by position.
    pub fn column(&self, field: FieldId) -> &Column
        requires { field.0 < length self.now.texts }
        ensures values { column_values result.now
            ≡ column_of field.0 (documents_in self.now.blocks) }
        ensures kind { is_text_column result.now ≡ slice_index_or self.now.texts field.0 false }
    {
        &self.columns[field.0 as usize]
    }

    /// The positions of the parents.
    pub fn parents(&self) -> &DocSet
        ensures { result.now ≡ parents_in self.now.blocks }
    {
        &self.parents
    }

    /// The position of the parent of the block in which a position stands.
    pub fn parent_of(&self, at: u32) -> u32
        requires { at < document_total self.now.blocks }
        ensures { result ≡ parent_in_block self.now.blocks at }
    {
        match self.parents.next_from(at) {
            Some(parent) => parent,
            None => unreachable!(),
        }
    }

    /// The first position of the block in which a position stands: its first child, or the parent where it has none.
    pub fn first_child(&self, at: u32) -> u32
        requires { at < document_total self.now.blocks }
        ensures { result ≡ first_in_block self.now.blocks at }
    {
        if at == 0 {
            return 0;
        }
        match self.parents.last_up_to(at - 1) {
            Some(parent) => parent + 1,
            None => 0,
        }
    }

    // The positions of the parents that have an id.
    fn parents_having(&self, id: &[u8]) -> &[u32]
        requires { slice_index_or self.now.texts 0 false ≡ true }
        ensures { result.now ≡ positions (zip_with ◌&&◌ (parents_in self.now.blocks)
            (map (has_val (text id.now)) (column_of 0 (documents_in self.now.blocks)))) }
    {
        let Some(Column::Text(texts)) = self.columns.first() else {
            unreachable!()
        };
        let Some(ord) = texts.ordinal_of(id) else {
            return &[];
        };
        match &self.ids {
            Some(lists) => lists.list(ord),
            None => texts.positions_of(ord),
        }
    }

    // Adds the positions of the block of a parent.
    fn add_block(&self, parent: u32, into: &mut DocSet)
        requires within { parent < document_total self.now.blocks }
        requires parent { contains (parents_in self.now.blocks) parent ≡ true }
        requires length { length into.old ≡ document_total self.now.blocks }
        ensures set { (k : ℕ) → contains into.new k
            ≡ (contains into.old k || is_in_block_of self.now.blocks parent k) }
        ensures length { length into.new ≡ length into.old }
    {
        let _len = into.len();
        into.add_range(self.first_child(parent), parent + 1);
    }

    /// Adds the positions of the blocks whose parent has the id, children included. It looks at the positions of parents that
    /// have the id alone.
    pub fn parents_with_id(&self, id: &[u8], into: &mut DocSet)
        requires texts { slice_index_or self.now.texts 0 false ≡ true }
        requires length { length into.old ≡ document_total self.now.blocks }
        ensures { into.new ≡ zip_with ◌||◌ into.old
            (blocks_where (has_id id.now) self.now.blocks) }
    {
        for parent in self.parents_having(id) {
            self.add_block(*parent, into);
        }
    }
}
