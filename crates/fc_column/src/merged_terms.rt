// Texts with numbers become terms, each once.
ghost use Rattle.std.specs.Prelude.{◌≡◌, ◌<◌, ◌^◌, ◌||◌, ℕ, false, length, vec_len, All, IfOk, IsPermutation, OnOk};
ghost use Rattle.std.specs.Ordering.{is_lt};
ghost use Rattle.fc_spec.specs.documents.Columns.{IsAscending};
ghost use Rattle.fc_spec.specs.documents.Val.{Text, same_text, text_cmp};
ghost use Rattle.fc_column.specs.Dictionary.{term_at};
ghost use Rattle.fc_column.specs.MergedTerms.{ArePlaced, HaveOneText, IsNotBelow, NeverFall};
ghost use Rattle.fc_column.specs.Numbering.{texts_numbered};
ghost use Rattle.fc_column.specs.Terms.{has_text};

use crate::term::Term;
use fc_base::WantMemory;
use std::alloc::Global;

/// Texts with numbers, in the order of the texts.
pub fn in_order(texts: Vec<(Term, u32)>) -> Result<Vec<(Term, u32)>, WantMemory>
    ensures same { IfOk result (λ sorted. IsPermutation texts.items sorted.items) }
    ensures order { IfOk result (λ sorted. NeverFall (texts_numbered sorted.items)) }
{
    let mut texts = texts;
    texts.sort_by(|a, b| a.0.cmp(&b.0))?;
    Ok(texts)
}

// Whether the last term is the text.
fn is_last(terms: &[Term], text: &Term) -> bool
    requires ascending { IsAscending text_cmp terms.now }
    requires above { IsNotBelow terms.now text.now }
    ensures { result ≡ has_text text.now terms.now }
{
    match terms.last() {
        Some(last) => last.cmp(text).is_eq(),
        None => false,
    }
}

// Puts a text behind the terms, unless it is the last of them, and answers its place.
fn put(terms: &mut Vec<Term>, text: Term) -> Result<u32, WantMemory>
    requires few { vec_len terms.old < 2 ^ 32 }
    requires ascending { IsAscending text_cmp terms.old.items }
    requires above { IsNotBelow terms.old.items text }
    ensures few { OnOk result (vec_len terms.new < 2 ^ 32) }
    ensures ascending { OnOk result (IsAscending text_cmp terms.new.items) }
    ensures below { OnOk result ((t : Text) → is_lt (text_cmp t text) ≡ false
        → IsNotBelow terms.new.items t) }
    ensures place { IfOk result (λ place. place < length terms.new.items) }
    ensures text { IfOk result (λ place. term_at terms.new.items place ≡ text) }
    ensures kept { OnOk result ((ord : ℕ) → ord < length terms.old.items
        → (ord < length terms.new.items) × (term_at terms.new.items ord ≡ term_at terms.old.items ord)) }
    ensures texts { OnOk result ((t : Text) → has_text t terms.new.items
        ≡ (has_text t terms.old.items || same_text t text)) }
{
    if is_last(terms, &text) {
        return Ok(terms.len() as u32 - 1);
    }
    let place = terms.len();
    if place >= u32::MAX as usize {
        return Err(WantMemory);
    }
    terms.push(text)?;
    Ok(place as u32)
}

/// The different texts, which never fall, in ascending order; and by each number the place of its text among them.
pub fn terms_and_places(
    alloc: Global,
    texts: Vec<(Term, u32)>,
    count: u32,
) -> Result<(Vec<Term>, Vec<u32>), WantMemory>
    requires order { NeverFall (texts_numbered texts.items) }
    requires below { All (λ one. one.1 < count) texts.items }
    requires one { HaveOneText texts.items }
    ensures few { IfOk result (λ made. vec_len made.0 < 2 ^ 32) }
    ensures ascending { IfOk result (λ made. IsAscending text_cmp made.0.items) }
    ensures len { IfOk result (λ made. vec_len made.1 ≡ count) }
    ensures placed { IfOk result (λ made. ArePlaced made.0.items made.1.items texts.items) }
    ensures texts { IfOk result (λ made. (t : Text) → has_text t made.0.items
        ≡ has_text t (texts_numbered texts.items)) }
{
    let mut terms = Vec::new(alloc);
    let mut places = vec![in alloc; 0; count as usize]?;
    for one in texts {
        let (text, number) = one;
        places[number as usize] = put(&mut terms, text)?;
    }
    terms.shrink_to_fit();
    Ok((terms, places))
}
