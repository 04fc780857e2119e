// Making the column of one field.
ghost use Rattle.std.specs.Prelude.{◌≡◌, ◌≤◌, [], ◌∷◌, ◌++◌, length, map, replicate, IfOk, OnOk};
ghost use Rattle.fc_spec.specs.documents.Schema.{holds_texts};
ghost use Rattle.fc_base.specs.View.{field_type_view, val_view};
ghost use Rattle.fc_segment.specs.Building.{IsRow, builds_texts, padded, values_built};
ghost use Rattle.fc_segment.specs.Columns.{column_values, is_text_column};

use crate::Column;
use fc_base::{FieldType, Val, WantMemory};
use fc_column::{LongBuilder, TextBuilder};
use std::alloc::Global;

/// Makes a column, position by position.
#[derive(Debug, Drop)]
pub enum Builder {
    Text(TextBuilder),
    Long(LongBuilder),
}

impl Builder {
    /// A column with no position, for a field of this type.
    pub fn new(alloc: Global, kind: FieldType) -> Result<Builder, WantMemory>
        ensures values { IfOk result (λ builder. values_built builder ≡ []) }
        ensures kind { IfOk result (λ builder.
            builds_texts builder ≡ holds_texts (field_type_view kind)) }
    {
        Ok(match kind {
            FieldType::Str | FieldType::Strs | FieldType::Date | FieldType::Dates => Builder::Text(
                TextBuilder::new(alloc)?,
            ),
            FieldType::Long | FieldType::Longs => Builder::Long(LongBuilder::new(alloc)?),
        })
    }

    // How many positions were added.
    fn len(&self) -> u32
        ensures { result ≡ length (values_built self.now) }
    {
        match self {
            Builder::Text(builder) => builder.len(),
            Builder::Long(builder) => builder.len(),
        }
    }

    // Adds so many positions without a value.
    fn skip(&mut self, count: u32) -> Result<(), WantMemory>
        ensures values { OnOk result
            (values_built self.new ≡ values_built self.old ++ replicate count []) }
        ensures kind { builds_texts self.new ≡ builds_texts self.old }
    {
        match self {
            Builder::Text(builder) => builder.skip(count),
            Builder::Long(builder) => builder.skip(count),
        }
    }

    // Adds a position with these values.
    fn push_doc(&mut self, values: &[Val]) -> Result<(), WantMemory>
        requires { IsRow (builds_texts self.old) (map val_view values.now) }
        ensures values { OnOk result
            (values_built self.new ≡ values_built self.old ++ map val_view values.now ∷ []) }
        ensures kind { builds_texts self.new ≡ builds_texts self.old }
    {
        match self {
            Builder::Text(builder) => builder.push_doc(values),
            Builder::Long(builder) => builder.push_doc(values),
        }
    }

    /// Adds positions without a value up to a position, and there one with these values.
    pub fn push_at(&mut self, at: u32, values: &[Val]) -> Result<(), WantMemory>
        requires row { IsRow (builds_texts self.old) (map val_view values.now) }
        requires behind { length (values_built self.old) ≤ at }
        ensures values { OnOk result (values_built self.new
            ≡ padded at (values_built self.old) ++ map val_view values.now ∷ []) }
        ensures kind { builds_texts self.new ≡ builds_texts self.old }
    {
        self.skip(at - self.len())?;
        self.push_doc(values)
    }

    /// The column of the positions that were added, and behind them positions without a value up to
    /// `len`.
    pub fn finish(mut self, len: u32) -> Result<Column, WantMemory>
        requires { length (values_built self) ≤ len }
        ensures values { IfOk result (λ column.
            column_values column ≡ padded len (values_built self)) }
        ensures kind { IfOk result (λ column. is_text_column column ≡ builds_texts self) }
    {
        self.skip(len - self.len())?;
        Ok(match self {
            Builder::Text(builder) => Column::Text(builder.finish()?),
            Builder::Long(builder) => Column::Long(builder.finish()?),
        })
    }
}
