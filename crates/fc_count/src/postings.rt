// Numbers with the documents that each counts.
ghost use Rattle.std.specs.Prelude.{ℕ, Bool, IsPermutation};
ghost use Rattle.std.specs.List.{filter, range_with_len};

/// The positions that each number counts.
pub trait Postings {
    // How many positions there are.
    ghost positions: { Self → ℕ };
    // Which numbers have a list.
    ghost has_list: { Self → ℕ → Type 0 };
    // Whether the document at a position is counted by a number.
    ghost holds: { Self → ℕ → ℕ → Bool };

    /// The positions whose documents a number counts, each once, in any order.
    fn positions_of(&self, number: usize) -> &[u32]
        requires { has_list self.now number }
        ensures { IsPermutation result.now
            (filter (λ at. holds self.now at number) (range_with_len 0 (positions self.now))) };
}
