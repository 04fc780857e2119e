// Texts as keys of a hash table.
ghost use Rattle.std.specs.Prelude.{◌≡◌, ◌==◌, refl};
ghost use Rattle.std.proofs.Common.{ap, rules};
ghost use Rattle.std.specs.Cmp.{partial_equiv_from_equiv};
ghost use Rattle.std.specs.Cmp.Lexicographic.{pointwise, bytes_decides, nat_list_cmp_total, nat_list_eq_equiv, texts_ties, texts_po};
ghost use Rattle.std.specs.Cmp.Rules.{hashing};
ghost use Rattle.std.specs.Hash as fed;
ghost use Rattle.std.specs.Ordering.{as_partial_cmp};
ghost use Rattle.fc_spec.specs.documents.Val.{text_cmp};

use fc_base::Name;
use indexmap::Equivalent;
use std::cmp::Ordering;
use std::hash::{Hash, Hasher};
use std::marker::Model;

/// A text that a column keeps, hashed by its bytes.
#[derive(Debug, Drop)]
pub struct Term {
    pub text: Name,
}

impl Model for Term {
    ghost use Rattle.std.specs.Prelude.{List, ℕ};

    ghost Value = { List ℕ };

    ghost view = { λ term. term.text };
}

impl PartialEq for Term {
    ghost eq = { pointwise (◌==◌) };

    ghost laws = { partial_equiv_from_equiv nat_list_eq_equiv };

    fn eq(&self, other: &Term) -> bool {
        self.text == other.text
    }
}

impl Eq for Term {
    ghost laws = { nat_list_eq_equiv };
}

impl Ord for Term {
    ghost cmp = { text_cmp };

    ghost total = { nat_list_cmp_total };

    ghost matches_partial_cmp = { λ a b. refl };

    ghost matches_eq = { texts_ties };

    fn cmp(&self, other: &Term) -> Ordering {
        self.text.cmp(&other.text)
    }
}

impl PartialOrd for Term {
    ghost partial_cmp = { as_partial_cmp text_cmp };

    ghost laws = { texts_po };

    fn partial_cmp(&self, other: &Term) -> Option<Ordering> {
        Some(self.cmp(other))
    }
}

impl Hash for Term {
    ghost hash_input = { fed.str };

    ghost respects_eq = { Prim.search (hashing, rules) };

    fn hash<H: Hasher>(&self, state: &mut H) {
        self.text.text().hash(state);
    }
}

impl Equivalent<Term> for &str {
    ghost equivalent = { λ text term. pointwise (◌==◌) text.now term };

    ghost respects_hash = { λ text term same. ap fed.str ((bytes_decides text.now term).0 same) };

    ghost respects_eq = { λ text x y. nat_list_eq_equiv.congr text.now x y };

    fn equivalent(&self, key: &Term) -> bool {
        *self == key.text.text()
    }
}
