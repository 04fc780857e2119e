// Texts with numbers.
ghost use Rattle.std.specs.Prelude.{◌≡◌, ◌||◌, ℕ, true, map, IfOk, OnOk};
ghost use Rattle.fc_spec.specs.documents.Val.{Text, same_text};
ghost use Rattle.fc_column.specs.Terms.{has_text};
ghost use Rattle.fc_column.specs.Numbering.{IsNumbering, has_number, text_numbered};

use crate::term::Term;
use fc_base::{Name, WantMemory};
use indexmap::IndexMap;
use std::alloc::Global;

/// The number of a text, which gets the next one where it has none.
pub fn number_of(
    alloc: Global,
    numbers: &mut IndexMap<Term, u32>,
    text: &Name,
) -> Result<u32, WantMemory>
    requires { IsNumbering numbers.old.entries }
    ensures numbering { IsNumbering numbers.new.entries }

    ensures has { IfOk result (λ n. has_number n numbers.new.entries ≡ true) }
    ensures text { IfOk result (λ n. text_numbered numbers.new.entries n ≡ text.now) }
    ensures texts { OnOk result ((t : Text) → has_text t (map (λ entry. entry.0) numbers.new.entries)
        ≡ (same_text t text.now || has_text t (map (λ entry. entry.0) numbers.old.entries))) }

    ensures others { (n : ℕ) → has_number n numbers.old.entries ≡ true
        → has_number n numbers.new.entries ≡ true }
    ensures other_texts { (n : ℕ) → has_number n numbers.old.entries ≡ true
        → text_numbered numbers.new.entries n ≡ text_numbered numbers.old.entries n }
{
    if let Some(number) = numbers.get(text.text()) {
        return Ok(*number);
    }
    let number = numbers.len();
    if number >= u32::MAX as usize {
        return Err(WantMemory);
    }
    let term = Term {
        text: text.copy(alloc)?,
    };
    numbers.insert(term, number as u32)?;
    Ok(number as u32)
}
