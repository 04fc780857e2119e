// Columns of texts.
ghost use Rattle.std.specs.Prelude.{◌≡◌, ℕ, ◌<◌, ◌≤◌, ◌&&◌, ◌||◌, [], length, map, not, nat_eq, nat_le, nat_lt, slice_index_or, ◌↔◌, All, IfSome, IsPermutation, IsTrue, is_some};
ghost use Rattle.std.specs.List.{filter, list_any, range_with_len, starts_with};
ghost use Rattle.std.specs.List.Sorted.{IsStrictlyIncreasing};
ghost use Rattle.std.specs.Ordering.{is_lt};
ghost use Rattle.fc_spec.specs.documents.Bits.{words_for, HasBits};
ghost use Rattle.fc_spec.specs.documents.Val.{text_cmp};
ghost use Rattle.fc_spec.specs.words.Lists.{is_empty};
ghost use Rattle.fc_docset.specs.Positions.{positions};
ghost use Rattle.fc_lists.specs.Among.{is_among};
ghost use Rattle.fc_column.specs.Terms.{terms_of, terms_below, terms_up_to, ordinals_in, has_text, has_from_to};

use crate::term::Term;
use fc_base::Name;
use fc_lists::{Lists, Rows, mark};
use std::marker::Model;

/// The texts of each position, seen as the list, position by position, of its texts in ascending
/// order, each once. The terms are the different texts of all positions, in ascending order, and the
/// ordinal of a term is how many stand below it.
#[derive(Debug, Drop)]
pub struct TextColumn {
    pub(crate) terms: Vec<Term>,
    pub(crate) ordinals: Rows<u32>,
    // The positions of each ordinal.
    pub(crate) positions: Lists<u32>,
}

impl Model for TextColumn {
    ghost use Rattle.std.specs.Prelude.{List};
    ghost use Rattle.fc_spec.specs.documents.Val.{Text};

    ghost Value = { List (List Text) };

    ghost use Rattle.fc_column.specs.Dictionary.{texts_of, IsDictionary};

    ghost view = { texts_of };

    ghost invariant = { IsDictionary };
}

impl TextColumn {
    /// How many positions there are.
    pub fn len(&self) -> u32
        ensures { result ≡ length self.now }
    {
        self.ordinals.len()
    }

    /// How many terms there are.
    pub fn terms(&self) -> u32
        ensures { result ≡ length (terms_of self.now) }
    {
        self.terms.len() as u32
    }

    /// The term with an ordinal.
    pub fn term(&self, ord: u32) -> &Name
        requires { ord < length (terms_of self.now) }
        ensures { result.now ≡ slice_index_or (terms_of self.now) ord [] }
    {
        &self.terms[ord as usize].text
    }

    /// The ordinals of the texts of a position, in ascending order.
    pub fn ordinals_of(&self, doc: u32) -> &[u32]
        requires { doc < length self.now }
        ensures ordinals { result.now ≡ ordinals_in self.now (slice_index_or self.now doc []) }
        ensures within { All (λ ord. ord < length (terms_of self.now)) result.now }
        ensures ascending { IsStrictlyIncreasing result.now }
    {
        self.ordinals.row(doc)
    }

    /// The ordinal of a text, by its UTF-8 bytes. There is none where no position has the text.
    pub fn ordinal_of(&self, text: &[u8]) -> Option<u32>
        ensures found { is_some result ≡ list_any (has_text text.now) self.now }
        ensures ordinal { IfSome result (λ ord. ord ≡ terms_below self.now text.now) }
        ensures within { IfSome result (λ ord. ord < length (terms_of self.now)) }
    {
        match self
            .terms
            .binary_search_by(|term| term.text.bytes().cmp(text))
        {
            Ok(place) => Some(place as u32),
            Err(_) => None,
        }
    }

    /// How many terms stand below a text, by its UTF-8 bytes.
    pub fn first_from(&self, text: &[u8]) -> u32
        ensures { result ≡ terms_below self.now text.now }
    {
        self.terms
            .partition_point(|term| term.text.bytes().cmp(text).is_lt()) as u32
    }

    /// How many terms stand below a text, by its UTF-8 bytes, or are the text.
    pub fn first_past(&self, text: &[u8]) -> u32
        ensures { result ≡ terms_up_to self.now text.now }
    {
        self.terms
            .partition_point(|term| term.text.bytes().cmp(text).is_le()) as u32
    }

    /// The ordinals of the terms that begin with a prefix, by its UTF-8 bytes: from the first number up to but not
    /// including the second.
    pub fn with_prefix(&self, prefix: &[u8]) -> (u32, u32)
        ensures ordered { result.0 ≤ result.1 }
        ensures within { result.1 ≤ length (terms_of self.now) }
        ensures prefix { (ord : ℕ) → ord < length (terms_of self.now)
            → starts_with nat_eq (slice_index_or (terms_of self.now) ord []) prefix.now
            ≡ (nat_le result.0 ord && nat_lt ord result.1) }
    {
        let from = self
            .terms
            .partition_point(|term| term.text.bytes().cmp(prefix).is_lt());
        let to = self
            .terms
            .partition_point(|term| begins_or_is_below(term, prefix));
        (from as u32, to as u32)
    }

    /// The positions that have a term, by its ordinal, in ascending order.
    pub fn positions_of(&self, ord: u32) -> &[u32]
        requires { ord < length (terms_of self.now) }
        ensures positions { result.now
            ≡ positions (map (has_text (slice_index_or (terms_of self.now) ord [])) self.now) }
        ensures within { All (λ at. at < length self.now) result.now }
        ensures ascending { IsStrictlyIncreasing result.now }
    {
        self.positions.list(ord)
    }

    /// Whether no position has more than one text.
    pub fn are_single(&self) -> bool
        ensures { IsTrue result ↔ All (λ texts. length texts ≤ 1) self.now }
    {
        self.ordinals.are_single()
    }

    /// Makes the bits exactly those of the positions with a text. Bit j of word i stands for position
    /// 64 i + j.
    pub fn any(&self, into: &mut [u64])
        requires { words_for (length self.now) ≤ length into.old }
        ensures { HasBits into.new (map (λ texts. not (is_empty texts)) self.now) }
    {
        self.ordinals.any(into);
    }

    /// Makes the bits exactly those of the positions with an ordinal from `lo` up to but not including
    /// `hi`. Bit j of word i stands for position 64 i + j.
    pub fn between(&self, lo: u32, hi: u32, into: &mut [u64])
        requires { words_for (length self.now) ≤ length into.old }
        ensures { HasBits into.new
            (map (λ texts. has_from_to lo hi (ordinals_in self.now texts)) self.now) }
    {
        mark(self.positions_between(lo, hi), into);
    }

    /// The positions with an ordinal from `first` up to but not including `past`, in any order; each once
    /// where no position has more than one text.
    pub fn positions_between(&self, first: u32, past: u32) -> &[u32]
        ensures positions { (at : ℕ) → is_among at result.now
            ≡ has_from_to first past (ordinals_in self.now (slice_index_or self.now at [])) }
        ensures within { All (λ at. at < length self.now) result.now }
        ensures once { All (λ texts. length texts ≤ 1) self.now → IsPermutation result.now
            (filter (λ at. has_from_to first past (ordinals_in self.now (slice_index_or self.now at [])))
            (range_with_len 0 (length self.now))) }
    {
        let past = past.min(self.terms());
        if first < past {
            self.positions.span(first, past)
        } else {
            &[]
        }
    }
}

// Whether a term is below a prefix or begins with it.
fn begins_or_is_below(term: &Term, prefix: &[u8]) -> bool
    ensures { result ≡ (is_lt (text_cmp term.now prefix.now) || starts_with nat_eq term.now prefix.now) }
{
    term.text.bytes().cmp(prefix).is_lt() || term.text.bytes().starts_with(prefix)
}
