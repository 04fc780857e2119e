// Merging columns of texts.
ghost use Rattle.std.specs.Prelude.{◌≡◌, ◌<◌, ◌+◌, ◌^◌, [], ◌++◌, length, map, All, IfOk, OnOk};
ghost use Rattle.std.specs.List.{items_where_true, list_any};
ghost use Rattle.fc_docset.specs.Positions.{contains};
ghost use Rattle.fc_column.specs.Numbering.{text_numbered};
ghost use Rattle.fc_column.specs.TextMerger.{Keeps, numbered_terms};

use crate::TextColumn;
use crate::merged_terms::{in_order, terms_and_places};
use crate::term::Term;
use fc_base::WantMemory;
use fc_docset::DocSet;
use fc_lists::{Entries, Lists};
use std::alloc::Global;
use std::marker::Model;

/// Makes a column of texts from positions of others, one column behind the other. Terms are compared as they are merged, and no text
/// is compared for a position.
#[derive(Debug, Drop)]
pub struct TextMerger {
    // The texts of positions, each with a number. Those of one column ascend.
    texts: Vec<(Term, u32)>,
    // The numbers are below this one.
    count: u32,
    // The numbers of the texts of each position.
    rows: Entries<u32>,
    alloc: Global,
}

impl Model for TextMerger {
    ghost use Rattle.std.specs.Prelude.{List};
    ghost use Rattle.fc_spec.specs.documents.Val.{Text};

    ghost Value = { List (List Text) };

    ghost use Rattle.fc_column.specs.TextMerger.{texts_merged, IsSound};

    ghost view = { texts_merged };

    ghost invariant = { IsSound };
}

impl TextMerger {
    /// A column with no position.
    pub fn new(alloc: Global) -> TextMerger
        ensures { result ≡ [] }
    {
        TextMerger {
            texts: Vec::new(alloc),
            count: 0,
            rows: Entries::new(alloc),
            alloc,
        }
    }

    /// The texts of positions, by their numbers, which stand below `count`.
    pub(crate) fn of(
        alloc: Global,
        texts: Vec<(Term, u32)>,
        count: u32,
        rows: Entries<u32>,
    ) -> TextMerger
        requires keeps { Keeps texts.items count rows.rows }
        requires whole { rows.next ≡ [] }
        ensures { result ≡ map (map (text_numbered texts.items)) rows.rows }
    {
        TextMerger {
            texts,
            count,
            rows,
            alloc,
        }
    }

    /// With the positions of a column that are in the set, in order. There are at most 4,294,967,295 positions, values and terms,
    /// as a `u32` counts them, the terms of each column for themselves: one more is answered as want of memory.
    pub fn with(self, column: &TextColumn, live: &DocSet) -> Result<TextMerger, WantMemory>
        requires { length live.now ≡ length column.now }
        ensures { IfOk result (λ merger. merger ≡ self ++ items_where_true live.now column.now) }
    {
        let TextMerger {
            mut texts,
            count,
            mut rows,
            alloc,
        } = self;
        let next = count.checked_add(column.terms()).ok_or(WantMemory)?;
        rows.add_rows(alloc, &column.ordinals, live, count)?;
        add_terms(
            alloc,
            &mut texts,
            &column.terms,
            &column.positions,
            live,
            count,
        )?;
        Ok(TextMerger {
            texts,
            count: next,
            rows,
            alloc,
        })
    }

    /// The column of the positions that were added.
    pub fn finish(self) -> Result<TextColumn, WantMemory>
        ensures { IfOk result (λ column. column ≡ self) }
    {
        let texts = in_order(self.texts)?;
        let (terms, places) = terms_and_places(self.alloc, texts, self.count)?;
        let mut rows = self.rows;
        rows.renumber(&places);
        let ordinals = rows.rows(self.alloc)?;
        let positions = rows.positions(self.alloc, terms.len() as u32)?;
        Ok(TextColumn {
            terms,
            ordinals,
            positions,
        })
    }
}

// Whether one of the positions is in the set.
fn has_one(positions: &[u32], live: &DocSet) -> bool
    requires { All (λ at. at < length live.now) positions.now }
    ensures { result ≡ list_any (contains live.now) positions.now }
{
    for at in positions {
        if live.contains(*at) {
            return true;
        }
    }
    false
}

// Adds the terms that have a position in the set, with the numbers from `first` on.
fn add_terms(
    alloc: Global,
    texts: &mut Vec<(Term, u32)>,
    terms: &[Term],
    positions: &Lists<u32>,
    live: &DocSet,
    first: u32,
) -> Result<(), WantMemory>
    requires lists { length positions.now ≡ length terms.now }
    requires small { first + length terms.now < 2 ^ 32 }
    requires within { All (All (λ at. at < length live.now)) positions.now }
    ensures { OnOk result (texts.new.items ≡ texts.old.items
        ++ numbered_terms first terms.now (map (list_any (contains live.now)) positions.now)) }
{
    for (ord, term) in terms.iter().enumerate() {
        if has_one(positions.list(ord as u32), live) {
            let copy = Term {
                text: term.text.copy(alloc)?,
            };
            texts.push((copy, first + ord as u32))?;
        }
    }
    Ok(())
}
