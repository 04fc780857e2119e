// The base that is rebuilt inside buckets.
ghost use Rattle.std.specs.Prelude.{◌≡◌, ◌++◌, All, Bool, IfOk, List, OnOk, length, map};
ghost use Rattle.fc_spec.specs.documents.Totals.{document_total};
ghost use Rattle.fc_query.specs.QueryView.{query_view};
ghost use Rattle.fc_request.specs.RequestView.{request_view};
ghost use Rattle.fc_domain.specs.FieldsFit.{BaseFits, FitsFields};
ghost use Rattle.fc_kind.specs.Names.{Covers};
ghost use Rattle.fc_answers.specs.SetAnswer.{base_in};
ghost use Rattle.fc_jobs.specs.BasesKept.{AreBasesAt, StayBases};
ghost use Rattle.fc_jobs.specs.FilterLists.{AllQueriesFit, queries_in};
ghost use Rattle.fc_jobs.specs.Pieces.{piece_of};
ghost use Rattle.fc_jobs.specs.Scopes.{AllEnclosingFit, filters_in, scope_over, selected_inside, tags_in};

use crate::bases::Bases;
use crate::choosing::selected;
use crate::enclosing::Enclosing;
use fc_base::{Name, WantMemory};
use fc_docset::DocSet;
use fc_kind::FacetKind;
use fc_query::Query;
use fc_request::Request;
use fc_segment::Segment;
use std::alloc::Global;

fn push_all(alloc: Global, tags: &mut Vec<Name>, more: &[Name]) -> Result<(), WantMemory>
    ensures { OnOk result (tags.new.items ≡ tags.old.items ++ more.now) }
{
    for tag in more {
        let tag = tag.copy(alloc)?;
        tags.push(tag)?;
    }
    Ok(())
}

// The tags that facets exclude, and these behind them.
fn all_tags(
    alloc: Global,
    enclosing: &[Enclosing<'_, '_>],
    own: &[Name],
) -> Result<Vec<Name>, WantMemory>
    ensures { IfOk result (λ tags. tags.items ≡ tags_in enclosing.now ++ own.now) }
{
    let mut tags = Vec::new(alloc);
    for around in enclosing {
        push_all(alloc, &mut tags, &around.node.domain.exclude)?;
    }
    push_all(alloc, &mut tags, own)?;
    Ok(tags)
}

// One more list of filters, where there are any in it.
fn push_filters<'a>(filters: &mut Vec<&'a [Query]>, more: &'a [Query]) -> Result<(), WantMemory>
    ensures queries { OnOk result (queries_in filters.new.items ≡ queries_in filters.old.items ++ map query_view more.now) }
    ensures fit { OnOk result ((texts : List Bool) → AllQueriesFit texts filters.old.items
        → All (FitsFields texts) (map query_view more.now) → AllQueriesFit texts filters.new.items) }
{
    if more.is_empty() {
        return Ok(());
    }
    filters.push(more)?;
    Ok(())
}

// The filters of the domains of facets.
fn all_filters<'a>(
    alloc: Global,
    enclosing: &[Enclosing<'a, '_>],
) -> Result<Vec<&'a [Query]>, WantMemory>
    ensures queries { IfOk result (λ filters. queries_in filters.items ≡ filters_in enclosing.now) }
    ensures fit { IfOk result (λ filters. (texts : List Bool) → AllEnclosingFit texts enclosing.now → AllQueriesFit texts filters.items) }
{
    let mut filters = Vec::new(alloc);
    for around in enclosing {
        push_filters(&mut filters, &around.node.domain.filters)?;
    }
    Ok(filters)
}

// Those of the documents that are in the bucket of each of these facets.
fn inside_all(
    alloc: Global,
    kinds: &[Box<dyn FacetKind>],
    segment: &Segment,
    docs: &DocSet,
    enclosing: &[Enclosing<'_, '_>],
) -> Result<DocSet, WantMemory>
    requires covers { Covers (map name kinds.now) }
    requires enclosing { AllEnclosingFit segment.now.texts enclosing.now }
    requires docs { length docs.now ≡ document_total segment.now.blocks }
    ensures { IfOk result (λ set. set ≡ selected_inside segment.now.blocks enclosing.now docs.now) }
{
    let Some((outermost, others)) = enclosing.split_first() else {
        return docs.copy(alloc);
    };
    let mut set = selected(alloc, kinds, segment, docs, outermost.node, outermost.key)?;
    for around in others {
        set = selected(alloc, kinds, segment, &set, around.node, around.key)?;
    }
    Ok(set)
}

/// The base inside the buckets of these facets: without the filters that have a tag that one of them excludes, or one of these,
/// what matches the filters of each of their domains and is in its bucket. They stand from the outermost inwards.
pub(crate) fn rebuilt<'a>(
    alloc: Global,
    kinds: &[Box<dyn FacetKind>],
    request: &Request,
    segment: &Segment,
    at: usize,
    bases: &mut Bases<'a>,
    enclosing: &[Enclosing<'a, '_>],
    exclude: &[Name],
) -> Result<DocSet, WantMemory>
    requires covers { Covers (map name kinds.now) }
    requires base { BaseFits segment.now.texts (request_view request.now) }
    requires enclosing { AllEnclosingFit segment.now.texts enclosing.now }
    requires kept { AreBasesAt (request_view request.now) at (piece_of segment.now) bases.old }
    ensures set { IfOk result (λ set. set ≡ base_in (scope_over (request_view request.now) enclosing.now) exclude.now (piece_of segment.now)) }
    ensures length { IfOk result (λ set. length set ≡ document_total segment.now.blocks) }
    ensures kept { StayBases (request_view request.now) at (piece_of segment.now) bases.old bases.new }
{
    let tags = all_tags(alloc, enclosing, exclude)?;
    let filters = all_filters(alloc, enclosing)?;
    let number = bases.base_at(alloc, request, segment, at, tags, filters)?;
    let docs = inside_all(alloc, kinds, segment, bases.docs(number), enclosing)?;
    Ok(docs)
}
