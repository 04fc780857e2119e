// Which documents of a segment match a query.
ghost use Rattle.std.specs.Prelude.{◌≡◌, ◌≤◌, false, length, map, replicate, Bool, List, OnOk};
ghost use Rattle.std.specs.Bool.{OnTrue};
ghost use Rattle.fc_spec.specs.documents.Bits.{words_for};
ghost use Rattle.fc_spec.specs.documents.Document.{Document};
ghost use Rattle.fc_spec.specs.queries.Matching.{answers, matches, same_need};
ghost use Rattle.fc_spec.specs.queries.Query.{must};
ghost use Rattle.fc_spec.specs.documents.Totals.{document_total, documents_in};
ghost use Rattle.fc_spec.specs.documents.Sets.{zip_with};
ghost use Rattle.fc_docset.specs.Neighbours.{HasNoneFrom};
ghost use Rattle.fc_docset.specs.Positions.{contains};
ghost use Rattle.fc_query.specs.QueryView.{clauses_view, need_view, query_view};
ghost use Rattle.fc_domain.specs.FieldsFit.{AllFitFields, FitsFields};
ghost use Rattle.fc_domain.specs.Grouping.{all_taken, first_need, has_need, taken};

use crate::columns::{select_any, select_between, select_value};
use fc_base::WantMemory;
use fc_docset::DocSet;
use fc_query::{Clause, Need, Query};
use fc_segment::Segment;
use std::alloc::Global;

fn has_need(clauses: &[Clause], need: Need) -> bool
    ensures { result ≡ has_need (need_view need) (clauses_view clauses.now) }
{
    for clause in clauses {
        if clause.need == need {
            return true;
        }
    }
    false
}

// Takes the answers of one clause with this need.
fn take(need: Need, set: &mut DocSet, answers: &DocSet)
    requires { length set.old ≡ length answers.now }
    ensures { set.new ≡ zip_with (taken (need_view need)) set.old answers.now }
{
    match need {
        Need::Must => set.and_with(answers),
        Need::MustNot => set.without(answers),
        Need::May => set.or_with(answers),
    }
}

// Which clauses of a group are taken first, and the set onto which they are: every position for the
// required ones, and none for the optional ones.
fn begin(clauses: &[Clause], into: &mut DocSet) -> Need
    ensures need { need_view result ≡ first_need (clauses_view clauses.now) }
    ensures set { into.new
        ≡ replicate (length into.old) (same_need (first_need (clauses_view clauses.now)) must) }
{
    if has_need(clauses, Need::May) && !has_need(clauses, Need::Must) {
        into.clear();
        Need::May
    } else {
        into.fill();
        Need::Must
    }
}

// Whether no answer with this need can change the set any more, since nothing is left of it.
fn is_settled(need: Need, set: &DocSet) -> bool
    ensures none { OnTrue result (HasNoneFrom (contains set.now) 0) }
    ensures stays { OnTrue result
        ((answers : List Bool) → all_taken (need_view need) false answers ≡ false) }
{
    match need {
        Need::Must => set.next_from(0).is_none(),
        Need::MustNot => set.next_from(0).is_none(),
        Need::May => false,
    }
}

// Takes the answers of each clause with this need. The scratch set and the mask are written over.
#[cycle(matching)]
fn take_clauses(
    alloc: Global,
    segment: &Segment,
    clauses: &[Clause],
    need: Need,
    mask: &mut [u64],
    scratch: &mut DocSet,
    into: &mut DocSet,
) -> Result<(), WantMemory>
    requires fits { AllFitFields segment.now.texts (clauses_view clauses.now) }
    requires length { length into.old ≡ document_total segment.now.blocks }
    requires scratch { length scratch.old ≡ document_total segment.now.blocks }
    requires room { words_for (document_total segment.now.blocks) ≤ length mask.old }
    ensures set { OnOk result ((before : Document → Bool)
        → into.old ≡ map before (documents_in segment.now.blocks)
        → into.new ≡ map (λ d. all_taken (need_view need) (before d)
        (answers (clauses_view clauses.now) (need_view need) d))
        (documents_in segment.now.blocks)) }
    ensures length { length into.new ≡ length into.old }
    ensures scratch { length scratch.new ≡ length scratch.old }
{
    for clause in clauses {
        if is_settled(need, into) {
            return Ok(());
        }
        if clause.need == need {
            select(alloc, segment, &clause.query, mask, scratch)?;
            take(need, into, scratch);
        }
    }
    Ok(())
}

// Makes the set the positions whose document matches. The mask is written over.
#[cycle(matching)]
fn select(
    alloc: Global,
    segment: &Segment,
    query: &Query,
    mask: &mut [u64],
    into: &mut DocSet,
) -> Result<(), WantMemory>
    requires fits { FitsFields segment.now.texts (query_view query.now) }
    requires length { length into.old ≡ document_total segment.now.blocks }
    requires room { words_for (document_total segment.now.blocks) ≤ length mask.old }
    ensures set { OnOk result
        (into.new ≡ map (matches (query_view query.now)) (documents_in segment.now.blocks)) }
    ensures length { length into.new ≡ length into.old }
{
    match query {
        Query::All => into.fill(),
        Query::Has(field) => select_any(segment.column(*field), mask, into),
        Query::Is(field, value) => select_value(segment.column(*field), value, mask, into),
        Query::Between(field, low, high) => {
            select_between(segment.column(*field), low, high, mask, into);
        }
        Query::Group(clauses) => {
            let mut scratch = DocSet::empty(alloc, into.len())?;
            let first = begin(clauses, into);
            take_clauses(alloc, segment, clauses, first, mask, &mut scratch, into)?;
            return take_clauses(
                alloc,
                segment,
                clauses,
                Need::MustNot,
                mask,
                &mut scratch,
                into,
            );
        }
    }
    Ok(())
}

/// Makes the set the positions of the segment whose document matches the query. After want of memory
/// nothing is known of the set but its length.
pub fn matches(
    alloc: Global,
    segment: &Segment,
    query: &Query,
    into: &mut DocSet,
) -> Result<(), WantMemory>
    requires fits { FitsFields segment.now.texts (query_view query.now) }
    requires length { length into.old ≡ document_total segment.now.blocks }
    ensures set { OnOk result
        (into.new ≡ map (matches (query_view query.now)) (documents_in segment.now.blocks)) }
    ensures length { length into.new ≡ length into.old }
{
    let mut mask = vec![in alloc; 0; into.words().len()]?;
    select(alloc, segment, query, &mut mask, into)
}
