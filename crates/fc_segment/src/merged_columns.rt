// Merging the columns of segments, of each of which only what is live is kept.
ghost use Rattle.std.specs.Prelude.{◌≡◌, ◌<◌, ◌++◌, true, false, length, map, slice_index_or, All, IfOk};
ghost use Rattle.std.specs.Arc.{arc_value};
ghost use Rattle.std.specs.List.{items_where_true, range_with_len};
ghost use Rattle.fc_spec.specs.documents.Schema.{holds_texts, texts_held};
ghost use Rattle.fc_spec.specs.documents.Val.{long, text};
ghost use Rattle.fc_base.specs.View.{field_type_view};
ghost use Rattle.fc_segment.specs.Columns.{column_values, is_text_column};
ghost use Rattle.fc_segment.specs.Merged.{live_values};

use crate::{Column, Segment};
use fc_base::{FieldId, FieldType, Schema, WantMemory};
use fc_column::{LongMerger, TextMerger};
use fc_docset::DocSet;
use std::alloc::Global;
use std::sync::Arc;

// Adds the positions of a column of texts that are in the set.
fn with_texts(merger: TextMerger, column: &Column, live: &DocSet) -> Result<TextMerger, WantMemory>
    requires kind { is_text_column column.now ≡ true }
    requires length { length live.now ≡ length (column_values column.now) }
    ensures { IfOk result (λ merged. map (map text) merged
        ≡ map (map text) merger ++ items_where_true live.now (column_values column.now)) }
{
    match column {
        Column::Text(texts) => {
            let merged = merger.with(texts, live)?;
            Ok(merged)
        }
        Column::Long(_) => unreachable!(),
    }
}

// Adds the positions of a column of integers that are in the set.
fn with_longs(merger: LongMerger, column: &Column, live: &DocSet) -> Result<LongMerger, WantMemory>
    requires kind { is_text_column column.now ≡ false }
    requires length { length live.now ≡ length (column_values column.now) }
    ensures { IfOk result (λ merged. map (map long) merged
        ≡ map (map long) merger ++ items_where_true live.now (column_values column.now)) }
{
    match column {
        Column::Text(_) => unreachable!(),
        Column::Long(longs) => {
            let merged = merger.with(longs, live)?;
            Ok(merged)
        }
    }
}

// The column of a field of texts.
fn merged_texts(
    alloc: Global,
    field: FieldId,
    segments: &[Arc<Segment>],
) -> Result<Column, WantMemory>
    requires fields { All (λ segment. field.0 < length segment.texts)
        (map arc_value segments.now) }
    requires kinds { All (λ segment. slice_index_or segment.texts field.0 false ≡ true)
        (map arc_value segments.now) }
    ensures values { IfOk result (λ column. column_values column
        ≡ live_values field.0 (map arc_value segments.now)) }
    ensures kind { IfOk result (λ column. is_text_column column ≡ true) }
{
    let mut merger = TextMerger::new(alloc);
    for segment in segments {
        merger = with_texts(merger, segment.column(field), segment.live())?;
    }
    Ok(Column::Text(merger.finish()?))
}

// The column of a field of integers.
fn merged_longs(
    alloc: Global,
    field: FieldId,
    segments: &[Arc<Segment>],
) -> Result<Column, WantMemory>
    requires fields { All (λ segment. field.0 < length segment.texts)
        (map arc_value segments.now) }
    requires kinds { All (λ segment. slice_index_or segment.texts field.0 false ≡ false)
        (map arc_value segments.now) }
    ensures values { IfOk result (λ column. column_values column
        ≡ live_values field.0 (map arc_value segments.now)) }
    ensures kind { IfOk result (λ column. is_text_column column ≡ false) }
{
    let mut merger = LongMerger::new(alloc);
    for segment in segments {
        merger = with_longs(merger, segment.column(field), segment.live())?;
    }
    Ok(Column::Long(merger.finish()?))
}

// The column of a field, of what is live, one segment behind the other.
fn merged_column(
    alloc: Global,
    texts: bool,
    field: FieldId,
    segments: &[Arc<Segment>],
) -> Result<Column, WantMemory>
    requires fields { All (λ segment. field.0 < length segment.texts)
        (map arc_value segments.now) }
    requires kinds { All (λ segment. slice_index_or segment.texts field.0 false ≡ texts)
        (map arc_value segments.now) }
    ensures values { IfOk result (λ column. column_values column
        ≡ live_values field.0 (map arc_value segments.now)) }
    ensures kind { IfOk result (λ column. is_text_column column ≡ texts) }
{
    if texts {
        merged_texts(alloc, field, segments)
    } else {
        merged_longs(alloc, field, segments)
    }
}

/// The column of each field of the schema, of what is live, one segment behind the other.
pub fn merged_columns(
    alloc: Global,
    schema: &Schema,
    segments: &[Arc<Segment>],
) -> Result<Vec<Column>, WantMemory>
    requires { All (λ segment. segment.texts ≡ texts_held schema.now.fields)
        (map arc_value segments.now) }
    ensures values { IfOk result (λ columns. map column_values columns.items
        ≡ map (λ field. live_values field (map arc_value segments.now))
        (range_with_len 0 (length schema.now.fields))) }
    ensures kinds { IfOk result (λ columns. map is_text_column columns.items
        ≡ texts_held schema.now.fields) }
{
    let mut columns = Vec::with_capacity(alloc, schema.fields() as usize)?;
    for field in 0..schema.fields() {
        let texts = holds_texts(schema.field_type(FieldId(field)));
        columns.push(merged_column(alloc, texts, FieldId(field), segments)?)?;
    }
    Ok(columns)
}

// Whether a field of the type holds texts.
fn holds_texts(kind: FieldType) -> bool
    ensures { result ≡ holds_texts (field_type_view kind) }
{
    match kind {
        FieldType::Str | FieldType::Strs | FieldType::Date | FieldType::Dates => true,
        FieldType::Long | FieldType::Longs => false,
    }
}
