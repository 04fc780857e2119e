// Sets of positions.
ghost use Rattle.std.specs.Prelude.{◌≡◌, ◌<◌, ◌≤◌, ◌^◌, ◌&&◌, ◌||◌, ℕ, true, false, not, length, count_by, nat_le, nat_lt, replicate, slice_set, vec_len, IfOk, MatchOption};
ghost use Rattle.fc_spec.specs.documents.Bits.{words_for, first_bits, HasBits};
ghost use Rattle.fc_spec.specs.documents.Sets.{zip_with};
ghost use Rattle.fc_docset.specs.Positions.{contains, positions};
ghost use Rattle.fc_docset.specs.Neighbours.{HasNoneFrom, HasNoneUpTo, IsLastUpTo, IsNextFrom};

use crate::Positions;
use crate::neighbours::{last_bit, next_bit};
use crate::words::{clear_bit, clear_from, has_bit, set_bit, set_bits, word_count};
use fc_base::WantMemory;
use fc_lane::{and_not_words, and_words, count_bits, or_words};
use std::alloc::Global;
use std::marker::Model;

/// A set of positions below a length, seen as a list that says of each position below the length
/// whether it is in the set.
#[derive(Debug, Drop)]
pub struct DocSet {
    len: u32,
    words: Vec<u64>,
}

impl Model for DocSet {
    ghost use Rattle.std.specs.Prelude.{Bool, List};

    ghost Value = { List Bool };

    ghost use Rattle.fc_docset.specs.Stored.{stored, IsStored};

    ghost view = { stored };

    ghost invariant = { IsStored };
}

impl DocSet {
    /// No position below the length.
    pub fn empty(alloc: Global, len: u32) -> Result<DocSet, WantMemory>
        ensures { IfOk result (λ set. set ≡ replicate len false) }
    {
        Ok(DocSet {
            len,
            words: vec![in alloc; 0; word_count(len)]?,
        })
    }

    /// Each position below the length.
    pub fn full(alloc: Global, len: u32) -> Result<DocSet, WantMemory>
        ensures { IfOk result (λ set. set ≡ replicate len true) }
    {
        let words = vec![in alloc; u64::MAX; word_count(len)]?;
        Ok(DocSet::within(len, words))
    }

    /// The positions below the length whose bit is 1: bit j of word i stands for position 64 i + j.
    /// Bits past the length are passed over.
    pub fn from_mask(alloc: Global, len: u32, words: &[u64]) -> Result<DocSet, WantMemory>
        requires { words_for len ≤ length words.now }
        ensures { IfOk result (λ set. set ≡ first_bits len words.now) }
    {
        let words = words[..word_count(len)].to_vec(alloc)?;
        Ok(DocSet::within(len, words))
    }

    // The positions below the length whose bit is 1.
    fn within(len: u32, mut words: Vec<u64>) -> DocSet
        requires { vec_len words ≡ words_for len }
        ensures { result ≡ first_bits len words.items }
    {
        clear_from(&mut words, len);
        DocSet { len, words }
    }

    /// Another set of the same positions.
    pub fn copy(&self, alloc: Global) -> Result<DocSet, WantMemory>
        ensures { IfOk result (λ set. set ≡ self.now) }
    {
        Ok(DocSet {
            len: self.len,
            words: self.words.to_vec(alloc)?,
        })
    }

    /// Keeps the positions that are in the other set too.
    pub fn and_with(&mut self, other: &DocSet)
        requires { length self.old ≡ length other.now }
        ensures { self.new ≡ zip_with ◌&&◌ self.old other.now }
    {
        and_words(&mut self.words, &other.words);
    }

    /// Adds the positions of the other set.
    pub fn or_with(&mut self, other: &DocSet)
        requires { length self.old ≡ length other.now }
        ensures { self.new ≡ zip_with ◌||◌ self.old other.now }
    {
        or_words(&mut self.words, &other.words);
    }

    /// Takes away the positions of the other set.
    pub fn without(&mut self, other: &DocSet)
        requires { length self.old ≡ length other.now }
        ensures { self.new ≡ zip_with (λ here there. here && not there) self.old other.now }
    {
        and_not_words(&mut self.words, &other.words);
    }

    /// Makes the set exactly the positions whose bit is 1: bit j of word i stands for position 64 i + j.
    /// Bits past the length are passed over.
    pub fn set_mask(&mut self, words: &[u64])
        requires { words_for (length self.old) ≤ length words.now }
        ensures { self.new ≡ first_bits (length self.old) words.now }
    {
        let count = self.words.len();
        self.words.copy_from_slice(&words[..count]);
        clear_from(&mut self.words, self.len);
    }

    /// Takes every position away.
    pub fn clear(&mut self)
        ensures { self.new ≡ replicate (length self.old) false }
    {
        self.words.fill(0);
    }

    /// Puts every position below the length into the set.
    pub fn fill(&mut self)
        ensures { self.new ≡ replicate (length self.old) true }
    {
        self.words.fill(u64::MAX);
        clear_from(&mut self.words, self.len);
    }

    /// Puts a position into the set.
    pub fn add(&mut self, at: u32)
        requires { at < length self.old }
        ensures { self.new ≡ slice_set self.old at true }
    {
        set_bit(&mut self.words, at);
    }

    /// Takes a position out of the set.
    pub fn remove(&mut self, at: u32)
        requires { at < length self.old }
        ensures { self.new ≡ slice_set self.old at false }
    {
        clear_bit(&mut self.words, at);
    }

    /// Puts the positions from one up to another, which is left out, into the set.
    pub fn add_range(&mut self, from: u32, to: u32)
        requires ordered { from ≤ to }
        requires within { to ≤ length self.old }
        ensures set { (k : ℕ) → contains self.new k
            ≡ (contains self.old k || (nat_le from k && nat_lt k to)) }
        ensures length { length self.new ≡ length self.old }
    {
        set_bits(&mut self.words, from, to);
    }

    /// The least position of the set that is at least `from`.
    pub fn next_from(&self, from: u32) -> Option<u32>
        ensures found { MatchOption result
            (HasNoneFrom (contains self.now) from)
            (IsNextFrom (contains self.now) from) }
        ensures small { length self.now < 2 ^ 32 }
    {
        next_bit(&self.words, from)
    }

    /// The greatest position of the set that is at most `to`.
    pub fn last_up_to(&self, to: u32) -> Option<u32>
        requires { to < length self.now }
        ensures { MatchOption result
            (HasNoneUpTo (contains self.now) to)
            (IsLastUpTo (contains self.now) to) }
    {
        last_bit(&self.words, to)
    }

    /// Whether a position is in the set.
    pub fn contains(&self, at: u32) -> bool
        requires { at < length self.now }
        ensures { result ≡ contains self.now at }
    {
        has_bit(&self.words, at)
    }

    /// The length below which the positions lie.
    pub fn len(&self) -> u32
        ensures { result ≡ length self.now }
    {
        self.len
    }

    /// How many positions are in the set.
    pub fn count(&self) -> u32
        ensures { result ≡ count_by (λ here. here) self.now }
    {
        count_bits(&self.words) as u32
    }

    /// Bit j of word i is 1 exactly where position 64 i + j is in the set. There are as many words as
    /// the length needs.
    pub fn words(&self) -> &[u64]
        ensures count { length result.now ≡ words_for (length self.now) }
        ensures bits { HasBits result.now self.now }
    {
        &self.words
    }

    /// The positions in the set, in ascending order.
    pub fn iter(&self) -> Positions<'_>
        ensures { result ≡ positions self.now }
    {
        Positions::over(&self.words)
    }
}
