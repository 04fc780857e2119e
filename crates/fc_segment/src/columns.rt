// Making the columns of all fields in one walk over the documents.
ghost use Rattle.std.specs.Prelude.{◌≡◌, ℕ, ◌+◌, ◌^◌, ◌<◌, ◌≤◌, [], ◌∷◌, ◌++◌, length, map, slice_index_or, slice_set, false, All, IfOk, OnOk};
ghost use Rattle.std.specs.List.{range_with_len};
ghost use Rattle.fc_spec.specs.documents.Columns.{column_of};
ghost use Rattle.fc_spec.specs.documents.Document.{values_of};
ghost use Rattle.fc_spec.specs.documents.Operations.{blocks_added};
ghost use Rattle.fc_spec.specs.documents.Totals.{document_total, documents_in, documents_of};
ghost use Rattle.fc_spec.specs.documents.Schema.{texts_held};
ghost use Rattle.fc_spec.specs.documents.ValidBlocks.{IsBlockOf};
ghost use Rattle.fc_spec.specs.words.Lists.{joined};
ghost use Rattle.fc_base.specs.View.{val_view};
ghost use Rattle.fc_docs.specs.View.{batch_view, block_view, op_view};
ghost use Rattle.fc_segment.specs.Building.{builds_texts, padded, values_built, FitsTexts, IsRow};
ghost use Rattle.fc_segment.specs.Columns.{column_values, is_text_column};

use crate::Column;
use crate::builder::Builder;
use fc_base::{FieldId, Schema, Val, WantMemory};
use fc_docs::{Batch, Block, Document, Op};
use std::alloc::Global;
use std::marker::Model;

// The columns of all fields, document by document.
#[derive(Debug, Drop)]
struct Columns {
    builders: Vec<Builder>,
    // How many documents there are. A builder may lack the last ones, which have no value for it.
    len: u32,
}

impl Model for Columns {
    ghost use Rattle.fc_segment.specs.Walked.{Walked};

    ghost Value = { Walked };

    ghost use Rattle.fc_segment.specs.ColumnsSoFar.{walked, AreSoFar};

    ghost view = { walked };

    ghost invariant = { AreSoFar };
}

impl Columns {
    // Those of no document.
    fn new(alloc: Global, schema: &Schema) -> Result<Columns, WantMemory>
        ensures { IfOk result (λ columns. columns
            ≡ record { texts = texts_held schema.now.fields; documents = [] }) }
    {
        let mut builders = Vec::with_capacity(alloc, schema.fields() as usize)?;
        for field in 0..schema.fields() {
            builders.push(Builder::new(alloc, schema.field_type(FieldId(field)))?)?;
        }
        Ok(Columns { builders, len: 0 })
    }

    // With one more document.
    fn push(self, document: &Document) -> Result<Columns, WantMemory>
        requires fits { FitsTexts self.texts document.now }
        requires few { length self.documents + 1 < 2 ^ 32 }
        ensures { IfOk result (λ columns. columns
            ≡ record self { documents = self.documents ++ document.now ∷ [] }) }
    {
        let Columns { mut builders, len } = self;
        push_fields(&mut builders, len, document)?;
        Ok(Columns {
            builders,
            len: len + 1,
        })
    }

    // With the documents of one more block.
    fn push_block(self, block: &Block) -> Result<Columns, WantMemory>
        requires fit { All (FitsTexts self.texts) (documents_of (block_view block.now)) }
        requires few { length self.documents
            + length (documents_of (block_view block.now)) < 2 ^ 32 }
        ensures { IfOk result (λ columns. columns
            ≡ record self { documents = self.documents ++ documents_of (block_view block.now) }) }
    {
        let mut columns = self;
        for child in &block.children {
            columns = columns.push(child)?;
        }
        let whole = columns.push(&block.parent)?;
        Ok(whole)
    }

    // With the documents that an operation adds.
    fn push_op(self, op: &Op) -> Result<Columns, WantMemory>
        requires fit { All (FitsTexts self.texts)
            (documents_in (blocks_added (op_view op.now ∷ []))) }
        requires few { length self.documents
            + document_total (blocks_added (op_view op.now ∷ [])) < 2 ^ 32 }
        ensures { IfOk result (λ columns. columns ≡ record self {
          documents = self.documents ++ documents_in (blocks_added (op_view op.now ∷ []));
        }) }
    {
        match op {
            Op::Add(block) => {
                let whole = self.push_block(block)?;
                Ok(whole)
            }
            Op::Delete(_) => Ok(self),
        }
    }

    // With the documents that a batch adds, of which each is let go when it is copied.
    fn push_batch(self, batch: Batch) -> Result<Columns, WantMemory>
        requires fit { All (FitsTexts self.texts)
            (documents_in (blocks_added (batch_view batch))) }
        requires few { length self.documents
            + document_total (blocks_added (batch_view batch)) < 2 ^ 32 }
        ensures { IfOk result (λ columns. columns ≡ record self {
          documents = self.documents ++ documents_in (blocks_added (batch_view batch));
        }) }
    {
        let mut columns = self;
        for op in batch.ops {
            columns = columns.push_op(&op)?;
        }
        Ok(columns)
    }

    // The columns of the documents.
    fn finish(self, alloc: Global) -> Result<Vec<Column>, WantMemory>
        ensures values { IfOk result (λ columns. map column_values columns.items
            ≡ map (λ field. column_of field self.documents)
            (range_with_len 0 (length self.texts))) }
        ensures kinds { IfOk result (λ columns. map is_text_column columns.items ≡ self.texts) }
    {
        let Columns { builders, len } = self;
        let columns = finish(alloc, builders, len)?;
        Ok(columns)
    }
}

// The columns of so many documents.
fn finish(alloc: Global, builders: Vec<Builder>, len: u32) -> Result<Vec<Column>, WantMemory>
    requires { All (λ builder. length (values_built builder) ≤ len) builders.items }
    ensures values { IfOk result (λ columns. map column_values columns.items
        ≡ map (λ builder. padded len (values_built builder)) builders.items) }
    ensures kinds { IfOk result (λ columns. map is_text_column columns.items
        ≡ map builds_texts builders.items) }
{
    let mut columns = Vec::with_capacity(alloc, builders.len())?;
    for builder in builders {
        columns.push(builder.finish(len)?)?;
    }
    Ok(columns)
}

// Adds the document at a position to the builders of the fields that it has values for.
fn push_fields(builders: &mut Vec<Builder>, at: u32, document: &Document) -> Result<(), WantMemory>
    requires behind { All (λ builder. length (values_built builder) ≤ at) builders.old.items }
    requires fits { FitsTexts (map builds_texts builders.old.items) document.now }
    ensures kinds { map builds_texts builders.new.items ≡ map builds_texts builders.old.items }
    ensures behind { OnOk result
        (All (λ builder. length (values_built builder) ≤ at + 1) builders.new.items) }
    ensures values { OnOk result ((n : ℕ) → n < length builders.old.items →
        padded (at + 1) (slice_index_or (map values_built builders.new.items) n [])
        ≡ padded at (slice_index_or (map values_built builders.old.items) n [])
        ++ values_of document.now n ∷ []) }
{
    for (field, values) in document.fields() {
        push_field(builders, at, field, values)?;
    }
    Ok(())
}

// Adds the values of the document at a position to the builder of a field.
fn push_field(
    builders: &mut Vec<Builder>,
    at: u32,
    field: FieldId,
    values: &[Val],
) -> Result<(), WantMemory>
    requires within { field.0 < length builders.old.items }
    requires behind { length (slice_index_or (map values_built builders.old.items) field.0 []) ≤ at }
    requires row { IsRow (slice_index_or (map builds_texts builders.old.items) field.0 false)
        (map val_view values.now) }
    ensures kinds { map builds_texts builders.new.items ≡ map builds_texts builders.old.items }
    ensures values { OnOk result (map values_built builders.new.items
        ≡ slice_set (map values_built builders.old.items) field.0
        (padded at (slice_index_or (map values_built builders.old.items) field.0 [])
        ++ map val_view values.now ∷ [])) }
{
    builders[field.0 as usize].push_at(at, values)?;
    Ok(())
}

/// The column of each field of the schema, of the blocks that operations add.
pub fn columns_of(alloc: Global, schema: &Schema, ops: &[Op]) -> Result<Vec<Column>, WantMemory>
    requires valid { All (IsBlockOf schema.now) (blocks_added (map op_view ops.now)) }
    requires few { document_total (blocks_added (map op_view ops.now)) ≤ 1_048_576 }
    ensures values { IfOk result (λ columns. map column_values columns.items
        ≡ map (λ field. column_of field (documents_in (blocks_added (map op_view ops.now))))
        (range_with_len 0 (length schema.now.fields))) }
    ensures kinds { IfOk result (λ columns. map is_text_column columns.items
        ≡ texts_held schema.now.fields) }
{
    let mut columns = Columns::new(alloc, schema)?;
    for op in ops {
        columns = columns.push_op(op)?;
    }
    let finished = columns.finish(alloc)?;
    Ok(finished)
}

/// The column of each field of the schema, of the blocks that batches add. Each document is let go when it is copied.
pub fn columns_of_batches(
    alloc: Global,
    schema: &Schema,
    batches: Vec<Batch>,
) -> Result<Vec<Column>, WantMemory>
    requires valid { All (IsBlockOf schema.now) (blocks_added (joined (map batch_view batches.items))) }
    requires few { document_total (blocks_added (joined (map batch_view batches.items))) ≤ 1_048_576 }
    ensures values { IfOk result (λ columns. map column_values columns.items ≡ map
        (λ field. column_of field (documents_in (blocks_added (joined (map batch_view batches.items)))))
        (range_with_len 0 (length schema.now.fields))) }
    ensures kinds { IfOk result (λ columns. map is_text_column columns.items
        ≡ texts_held schema.now.fields) }
{
    let mut columns = Columns::new(alloc, schema)?;
    for batch in batches {
        columns = columns.push_batch(batch)?;
    }
    let finished = columns.finish(alloc)?;
    Ok(finished)
}
