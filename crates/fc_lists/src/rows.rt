// The items of each position, where most positions may have none.
ghost use Rattle.std.specs.Prelude.{◌≡◌, ◌+◌, ◌<◌, ◌≤◌, ◌^◌, [], ◌∷◌, length, map, not, slice_index, slice_index_or, take, true, vec_len, ◌↔◌, All, IfOk, IfSome, IsTrue, MatchBool};
ghost use Rattle.std.specs.Bool.{OnTrue};
ghost use Rattle.std.specs.List.Sorted.{IsNonDecreasingBy};
ghost use Rattle.fc_spec.specs.documents.Bits.{words_for, first_bits, HasBits};
ghost use Rattle.fc_spec.specs.words.Lists.{is_empty};
ghost use Rattle.fc_lists.specs.Among.{is_among};
ghost use Rattle.fc_lists.specs.Items.{rows_below};
ghost use Rattle.fc_lists.specs.Flat.{flat, spread_over};
ghost use Rattle.fc_lists.specs.Heads.{AreHeads};

use crate::bits::{bits_before, copy_bits, copy_front, rank_among, words_of};
use crate::entries::{Entry, items_of};
use crate::lists::Lists;
use fc_base::WantMemory;
use fc_docset::{next_in_both, set_bits};
use std::alloc::Global;
use std::marker::Model;

/// The items of each position, seen as the list of their lists.
#[derive(Debug, Drop)]
pub struct Rows<T> {
    len: u32,
    // Each position has items. Where this is not said, some may have none.
    filled: bool,
    // Bit j of word i is 1 where position 64 i + j has items. There are no words past the last one.
    words: Vec<u64>,
    // How many positions before each word have items.
    before: Vec<u32>,
    // The items of the positions that have some.
    lists: Lists<T>,
}

impl<T> Model for Rows<T> {
    ghost use Rattle.std.specs.Prelude.{List};

    ghost Value = { List (List T) };

    ghost use Rattle.fc_lists.specs.Rows.{rows_in, AreRows};

    ghost view = { rows_in };

    ghost invariant = { AreRows };
}

impl<T: Copy> Rows<T> {
    /// The items of each position below `len`, from entries in the order of their positions.
    pub fn of(alloc: Global, entries: &[Entry<T>], len: u32) -> Result<Rows<T>, WantMemory>
        requires rising { IsNonDecreasingBy (λ entry. entry.at) entries.now }
        requires below { All (λ entry. entry.at < len) entries.now }
        requires few { length entries.now < 2 ^ 32 }
        ensures { IfOk result (λ rows. rows ≡ rows_below entries.now len) }
    {
        let (positions, starts) = heads(alloc, entries)?;
        let items = items_of(alloc, entries)?;
        let words = words_of(alloc, &positions)?;
        let before = bits_before(alloc, &words)?;
        let lists = Lists::new(items, starts);
        Ok(Rows {
            len,
            filled: lists.len() == len as usize,
            words,
            before,
            lists,
        })
    }
}

impl<T: Drop> Rows<T> {
    /// How many positions there are.
    pub fn len(&self) -> u32
        ensures { result ≡ length self.now }
    {
        self.len
    }

    /// The items of a position.
    pub fn row(&self, at: u32) -> &[T]
        requires { at < length self.now }
        ensures { result.now ≡ slice_index_or self.now at [] }
    {
        match rank_among(self.filled, &self.words, &self.before, at) {
            Some(rank) => self.lists.list(rank),
            None => &[],
        }
    }

    /// The items of all positions, one position behind the other.
    pub fn flat(&self) -> &[T]
        ensures { result.now ≡ flat self.now }
    {
        self.lists.flat()
    }

    /// The item of each position, where it is known that each position has exactly one.
    pub fn singles(&self) -> Option<&[T]>
        ensures { IfSome result (λ items. self.now ≡ map (λ item. item ∷ []) items.now) }
    {
        if self.filled {
            self.lists.singles()
        } else {
            None
        }
    }

    /// Makes the bits exactly those of the places in `flat` whose position has the bit 1 in `docs`. Bits
    /// of `docs` past the last position are passed over.
    pub fn spread(&self, docs: &[u64], into: &mut [u64])
        requires enough { words_for (length self.now) ≤ length docs.now }
        requires room { words_for (length (flat self.now)) ≤ length into.old }
        ensures { HasBits into.new (spread_over (first_bits (length self.now) docs.now) self.now) }
    {
        if self.singles().is_some() {
            copy_front(docs, self.len, into);
        } else {
            self.spread_rows(docs, into);
        }
    }

    // Makes the bits exactly those of the places in `flat` whose position has the bit 1 in `docs`.
    fn spread_rows(&self, docs: &[u64], into: &mut [u64])
        requires { words_for (length (flat self.now)) ≤ length into.old }
        ensures { HasBits into.new (spread_over (first_bits (length self.now) docs.now) self.now) }
    {
        into.fill(0);
        let mut from = 0;
        while let Some(at) = next_in_both(&self.words, docs, from) {
            let (start, end) = self.places(at);
            set_bits(into, start, end);
            from = at + 1;
        }
    }

    // Where the items of a position that has some stand among those of all positions.
    fn places(&self, at: u32) -> (u32, u32)
        requires within { at < length self.now }
        requires some { 0 < length (slice_index_or self.now at []) }
        ensures start { result.0 ≡ length (flat (take at self.now)) }
        ensures end { result.1 ≡ length (flat (take (at + 1) self.now)) }
    {
        match rank_among(self.filled, &self.words, &self.before, at) {
            Some(rank) => self.lists.places(rank),
            None => unreachable!(),
        }
    }

    /// Whether no position has more than one item.
    pub fn are_single(&self) -> bool
        ensures { IsTrue result ↔ All (λ row. length row ≤ 1) self.now }
    {
        self.lists.flat().len() == self.lists.len()
    }

    /// Whether there are no bits at all: then no position has an item.
    pub fn are_empty(&self) -> bool
        ensures { OnTrue result (All (λ row. row ≡ []) self.now) }
    {
        self.words.is_empty()
    }

    /// Makes the bits exactly those of the positions with an item.
    pub fn any(&self, into: &mut [u64])
        requires { words_for (length self.now) ≤ length into.old }
        ensures { HasBits into.new (map (λ row. not (is_empty row)) self.now) }
    {
        copy_bits(&self.words, into);
    }
}

// The positions that have items, where the items of each start, and where the last ones end.
fn heads<T: Copy>(alloc: Global, entries: &[Entry<T>]) -> Result<(Vec<u32>, Vec<u32>), WantMemory>
    requires rising { IsNonDecreasingBy (λ entry. entry.at) entries.now }
    requires few { length entries.now < 2 ^ 32 }
    ensures { IfOk result (λ made.
        AreHeads (map (λ entry. entry.at) entries.now) made.0.items made.1.items) }
{
    let mut positions = Vec::new(alloc);
    let mut starts = Vec::new(alloc);
    for (place, entry) in entries.iter().enumerate() {
        if is_head(entries, place) {
            positions.push(entry.at)?;
            starts.push(place as u32)?;
        }
    }
    starts.push(entries.len() as u32)?;
    Ok((positions, starts))
}

// Whether the entry at a place is the first of its position.
fn is_head<T: Copy>(entries: &[Entry<T>], place: usize) -> bool
    requires rising { IsNonDecreasingBy (λ entry. entry.at) entries.now }
    requires within { place < length entries.now }
    ensures { let all = map (λ entry. entry.at) entries.now in let at = slice_index all place in
        MatchBool result (All (λ before. before < at) (take place all))
        (is_among at (take place all) ≡ true) }
{
    place == 0 || entries[place - 1].at != entries[place].at
}
