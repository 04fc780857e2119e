// The positions of a set, one after another.
ghost use Rattle.std.specs.Prelude.{◌≡◌, ◌≤◌, ◌*◌, ◌^◌, length};
ghost use Rattle.std.specs.Iterator.{YieldsFirst, item_count};
ghost use Rattle.fc_spec.specs.documents.Bits.{first_bits};
ghost use Rattle.fc_docset.specs.Positions.{positions};

use std::marker::Model;

/// The positions of a set in ascending order, seen as the list of those that are left.
#[derive(Debug, Drop)]
pub struct Positions<'a> {
    // What is left of the word that is read now, the position of its first bit, and the words behind
    // it.
    word: u64,
    base: u32,
    words: &'a [u64],
}

impl<'a> Model for Positions<'a> {
    ghost use Rattle.std.specs.Prelude.{List, ℕ};

    ghost Value = { List ℕ };

    ghost use Rattle.fc_docset.specs.Left.{positions_left, Fits};

    ghost view = { positions_left };

    ghost invariant = { Fits };
}

impl<'a> Positions<'a> {
    /// The positions whose bit is 1.
    pub(crate) fn over(words: &'a [u64]) -> Self
        requires { 64 * length words.now ≤ 2 ^ 32 }
        ensures { result ≡ positions (first_bits (64 * length words.now) words.now) }
    {
        match words.split_first() {
            Some((word, words)) => Positions {
                word: *word,
                base: 0,
                words,
            },
            None => Positions {
                word: 0,
                base: 0,
                words,
            },
        }
    }
}

impl Iterator for Positions<'_> {
    type Item = u32;

    ghost next_gives = { YieldsFirst (λ left. left) };

    ghost remaining = { item_count (λ left. left) };

    fn next(&mut self) -> Option<u32> {
        while self.word == 0 {
            let (word, words) = self.words.split_first()?;
            self.word = *word;
            self.words = words;
            self.base += 64;
        }
        let bit = self.word.trailing_zeros();
        self.word &= self.word - 1;
        Some(self.base + bit)
    }
}
