// Names of fields, tags and facets, and text values.
ghost use Rattle.std.specs.Prelude.{◌≡◌, ◌==◌, IfOk, IsUtf8, refl};
ghost use Rattle.std.specs.Cmp.{partial_equiv_from_equiv};
ghost use Rattle.std.specs.Cmp.Lexicographic.{pointwise, nat_list_cmp_total, nat_list_eq_equiv, texts_ties, texts_po};
ghost use Rattle.std.specs.Ordering.{as_partial_cmp};
ghost use Rattle.fc_spec.specs.documents.Val.{text_cmp};

mod text;

use crate::WantMemory;
use std::alloc::Global;
use std::cmp::Ordering;
use std::fmt;
use std::marker::Model;
use text::Text;

/// A text that nothing changes, seen as the list of its UTF-8 bytes. Its order is that of the
/// bytes. The value is 16 bytes in size: a text of at most 14 bytes stands in it and takes no
/// memory, one of at most 40 bytes takes one piece of memory, and a longer one two.
#[derive(Drop)]
pub struct Name {
    text: Text,
}

impl Model for Name {
    ghost use Rattle.std.specs.Prelude.{List, ℕ};

    ghost Value = { List ℕ };

    ghost use Rattle.fc_base.specs.TextBytes.{text_bytes};
    ghost use Rattle.fc_base.specs.IsText.{IsText};

    ghost view = { λ name. text_bytes name.text };

    ghost invariant = { λ name. IsText name.text };
}

impl Name {
    /// A name of this text.
    pub fn new(alloc: Global, text: &str) -> Result<Name, WantMemory>
        ensures { IfOk result (λ name. name ≡ text.now) }
    {
        Ok(Name {
            text: Text::new(alloc, text)?,
        })
    }

    /// The UTF-8 bytes of the text.
    pub fn bytes(&self) -> &[u8]
        ensures value { result.now ≡ self.now }
        ensures utf8 { IsUtf8 self.now }
    {
        self.text().as_bytes()
    }

    /// The text.
    pub fn text(&self) -> &str
        ensures { result.now ≡ self.now }
    {
        self.text.as_str()
    }

    /// Another name of the same text.
    pub fn copy(&self, alloc: Global) -> Result<Name, WantMemory>
        ensures { IfOk result (λ name. name ≡ self.now) }
    {
        Name::new(alloc, self.text())
    }
}

impl fmt::Debug for Name {
    fn fmt<W: fmt::Write>(&self, f: &mut fmt::Formatter<W>) -> fmt::Result {
        f.debug_struct("Name").field("text", &self.text()).finish()
    }
}

impl PartialEq for Name {
    ghost eq = { pointwise (◌==◌) };

    ghost laws = { partial_equiv_from_equiv nat_list_eq_equiv };

    fn eq(&self, other: &Name) -> bool {
        self.text() == other.text()
    }
}

impl Eq for Name {
    ghost laws = { nat_list_eq_equiv };
}

impl Ord for Name {
    ghost cmp = { text_cmp };

    ghost total = { nat_list_cmp_total };

    ghost matches_partial_cmp = { λ a b. refl };

    ghost matches_eq = { texts_ties };

    fn cmp(&self, other: &Name) -> Ordering {
        self.text().cmp(other.text())
    }
}

impl PartialOrd for Name {
    ghost partial_cmp = { as_partial_cmp text_cmp };

    ghost laws = { texts_po };

    fn partial_cmp(&self, other: &Name) -> Option<Ordering> {
        Some(self.cmp(other))
    }
}
