// Making columns of texts.
ghost use Rattle.std.specs.Prelude.{◌≡◌, [], ◌∷◌, ◌++◌, length, map, replicate, All, IfOk, OnOk};
ghost use Rattle.fc_spec.specs.documents.Columns.{IsText, IsAscending, texts_in};
ghost use Rattle.fc_spec.specs.documents.Val.{val_cmp};
ghost use Rattle.fc_base.specs.View.{val_view};

use crate::numbers::number_of;
use crate::term::Term;
use crate::{TextColumn, TextMerger};
use fc_base::{Val, WantMemory};
use fc_lists::Entries;
use indexmap::IndexMap;
use std::alloc::Global;
use std::marker::Model;

/// Makes a column of texts, position by position. After want of memory it is only dropped.
#[derive(Debug, Drop)]
pub struct TextBuilder {
    // Each text, with its number: the numbers count the texts in the order in which they came.
    numbers: IndexMap<Term, u32>,
    // The numbers of the texts of each position.
    rows: Entries<u32>,
    // A call wanted memory, and a position may be half made.
    spent: bool,
    alloc: Global,
}

impl Model for TextBuilder {
    ghost use Rattle.std.specs.Prelude.{List};
    ghost use Rattle.fc_spec.specs.documents.Val.{Text};

    ghost Value = { List (List Text) };

    ghost use Rattle.fc_column.specs.TextBuilder.{texts_built, IsSound};

    ghost view = { texts_built };

    ghost invariant = { IsSound };
}

impl TextBuilder {
    /// A column with no position.
    pub fn new(alloc: Global) -> Result<TextBuilder, WantMemory>
        ensures { IfOk result (λ builder. builder ≡ []) }
    {
        Ok(TextBuilder {
            numbers: IndexMap::new(alloc),
            rows: Entries::new(alloc),
            spent: false,
            alloc,
        })
    }

    /// How many positions were added.
    pub fn len(&self) -> u32
        ensures { result ≡ length self.now }
    {
        self.rows.len()
    }

    /// Adds a position with these values, which stand in index order, each once. There are at most
    /// 4,294,967,295 positions and values, as a `u32` counts them, and as many terms as a hash table has
    /// room for (2,415,919,104): one more is answered as want of memory.
    pub fn push_doc(&mut self, values: &[Val]) -> Result<(), WantMemory>
        requires texts { All IsText (map val_view values.now) }
        requires ascending { IsAscending val_cmp (map val_view values.now) }
        ensures { OnOk result (self.new ≡ self.old ++ texts_in (map val_view values.now) ∷ []) }
    {
        if self.spent {
            return Err(WantMemory);
        }
        self.spent = true;
        for value in values {
            let Val::Text(text) = value else {
                unreachable!()
            };
            let number = number_of(self.alloc, &mut self.numbers, text)?;
            self.rows.push(number)?;
        }
        self.rows.end_row()?;
        self.spent = false;
        Ok(())
    }

    /// Adds so many positions without a value. They cost no memory.
    pub fn skip(&mut self, count: u32) -> Result<(), WantMemory>
        ensures { OnOk result (self.new ≡ self.old ++ replicate count []) }
    {
        if self.spent {
            return Err(WantMemory);
        }
        self.rows.skip(count)?;
        Ok(())
    }

    /// The column of the positions that were added.
    pub fn finish(self) -> Result<TextColumn, WantMemory>
        ensures { IfOk result (λ column. column ≡ self) }
    {
        if self.spent {
            return Err(WantMemory);
        }
        let count = self.numbers.len() as u32;
        let texts: Vec<(Term, u32)> = self.numbers.into_iter().collect(self.alloc)?;
        let merger = TextMerger::of(self.alloc, texts, count, self.rows);
        let column = merger.finish()?;
        Ok(column)
    }
}
