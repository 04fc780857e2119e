// One segment of a job.
ghost use Rattle.std.specs.Prelude.{◌≡◌, ◌≢◌, ◌⊎◌, ◌<◌, ◌≤◌, ◌+◌, ◌-◌, ◌++◌, ◌∷◌, [], IfOk, OnOk, MatchOption, drop, length, map, slice_index_or};
ghost use Rattle.std.specs.Arc.{arc_value};
ghost use Rattle.fc_spec.specs.documents.Live.{HasWholeBlocks};
ghost use Rattle.fc_spec.specs.documents.Schema.{Schema};
ghost use Rattle.fc_request.specs.FacetNode.{facet_view};
ghost use Rattle.fc_request.specs.RequestView.{request_view};
ghost use Rattle.fc_domain.specs.FieldsFit.{BaseFits, ChangeFits};
ghost use Rattle.fc_kind.specs.Names.{Covers};
ghost use Rattle.fc_refine.specs.AskView.{ask_view};
ghost use Rattle.fc_answers.specs.SetAnswer.{base_of};
ghost use Rattle.fc_jobs.specs.BasesKept.{AreBases, AreBasesAt, StayBases};
ghost use Rattle.fc_jobs.specs.FacetFits.{AllFit};
ghost use Rattle.fc_refine.specs.Named.{NamesKeys};
ghost use Rattle.fc_jobs.specs.Pieces.{piece_of, pieces_in};
ghost use Rattle.fc_units.specs.Asked.{asked_count, top_set};
ghost use Rattle.fc_units.specs.Stepping.{IsFacetStep, IsTopStep, StandsAtFacet, StandsAtTop};

use crate::asked::want_at;
use crate::enclosing::enclosing_for;
use crate::jobs::{FacetJob, TopJob};
use fc_base::WantMemory;
use fc_docset::DocSet;
use fc_domain::base;
use fc_jobs::{Bases, bucket_unit, domain_where, facet_unit};
use fc_kind::FacetKind;
use fc_levels::Level;
use fc_refine::Ask;
use fc_request::{Node, Request};
use fc_segment::Segment;
use std::alloc::Global;
use std::sync::Arc;

// The base of the request in a segment.
fn base_of(alloc: Global, request: &Request, segment: &Segment) -> Result<DocSet, WantMemory>
    requires { BaseFits segment.now.texts (request_view request.now) }
    ensures { IfOk result (λ docs. docs ≡ base_of (request_view request.now) [] (piece_of segment.now)) }
{
    let mut docs = DocSet::empty(alloc, segment.doc_count())?;
    base(alloc, segment, request, &[], &mut docs)?;
    Ok(docs)
}

// The base of the request in a segment: the one that is there, or else a new one, kept where it is the next.
fn reach(
    alloc: Global,
    request: &Request,
    segment: &Segment,
    at: usize,
    roots: &mut Vec<DocSet>,
) -> Result<DocSet, WantMemory>
    requires fits { BaseFits segment.now.texts (request_view request.now) }
    requires there { at < length roots.old.items
        → slice_index_or roots.old.items at [] ≡ base_of (request_view request.now) [] (piece_of segment.now) }
    ensures docs { IfOk result (λ docs. docs ≡ base_of (request_view request.now) [] (piece_of segment.now)) }
    ensures same { length roots.old.items ≢ at → roots.new.items ≡ roots.old.items }
    ensures put { OnOk result (length roots.old.items ≡ at
        → roots.new.items ≡ roots.old.items ++ base_of (request_view request.now) [] (piece_of segment.now) ∷ []) }
{
    if at < roots.len() {
        return Ok(roots[at].copy(alloc)?);
    }
    let docs = base_of(alloc, request, segment)?;
    if roots.len() != at {
        return Ok(docs);
    }
    let kept = docs.copy(alloc)?;
    roots.push(kept)?;
    Ok(docs)
}

// The domain of a wanted bucket's facet in a segment, from the base there.
fn wanted_domain<'a>(
    alloc: Global,
    kinds: &[Box<dyn FacetKind>],
    request: &'a Request,
    segment: &Segment,
    at: usize,
    bases: &mut Bases<'a>,
    ask: &Ask,
    number: usize,
    base_docs: &DocSet,
    node: &Node,
) -> Result<DocSet, WantMemory>
    requires covers { Covers (map name kinds.now) }
    requires base { BaseFits segment.now.texts (request_view request.now) }
    requires fit { AllFit segment.now.texts (request_view request.now).nodes }
    requires whole { HasWholeBlocks segment.now.blocks segment.now.live }
    requires docs { base_docs.now ≡ base_of (request_view request.now) [] (piece_of segment.now) }
    requires number { number < asked_count (ask_view ask.now) }
    requires names { NamesKeys (request_view request.now).nodes (ask_view ask.now) }
    requires change { ChangeFits segment.now.texts (facet_view node.now).change }
    requires kept { AreBasesAt (request_view request.now) at (piece_of segment.now) bases.old }
    ensures set { IfOk result (λ set. set ≡ top_set (request_view request.now) (ask_view ask.now) number (facet_view node.now) (piece_of segment.now)) }
    ensures kept { StayBases (request_view request.now) at (piece_of segment.now) bases.old bases.new }
{
    match ask {
        Ask::First => Ok(base_docs.copy(alloc)?),
        Ask::More(wants) => {
            let docs = domain_where(
                alloc,
                kinds,
                request,
                segment,
                at,
                bases,
                base_docs,
                want_at(wants, number).way(),
                node,
            )?;
            Ok(docs)
        }
    }
}

// The domain of a top bucket's facet in a segment: the one that is there, or else a new one, which is the next.
fn look_at<'a>(
    alloc: Global,
    kinds: &[Box<dyn FacetKind>],
    request: &'a Request,
    segment: &Segment,
    at: usize,
    bases: &mut Bases<'a>,
    ask: &Ask,
    number: usize,
    node: &Node,
    roots: &mut Vec<DocSet>,
    domain: &mut Vec<DocSet>,
) -> Result<(), WantMemory>
    requires covers { Covers (map name kinds.now) }
    requires base { BaseFits segment.now.texts (request_view request.now) }
    requires fit { AllFit segment.now.texts (request_view request.now).nodes }
    requires number { number < asked_count (ask_view ask.now) }
    requires names { NamesKeys (request_view request.now).nodes (ask_view ask.now) }
    requires change { ChangeFits segment.now.texts (facet_view node.now).change }
    requires whole { HasWholeBlocks segment.now.blocks segment.now.live }
    requires there { at < length roots.old.items
        → slice_index_or roots.old.items at [] ≡ base_of (request_view request.now) [] (piece_of segment.now) }
    requires kept { AreBasesAt (request_view request.now) at (piece_of segment.now) bases.old }
    ensures roots { OnOk result ((roots.new.items ≡ roots.old.items)
        ⊎ ((length roots.old.items ≡ at) × (roots.new.items ≡ roots.old.items ++ base_of (request_view request.now) [] (piece_of segment.now) ∷ []))) }
    ensures domain { OnOk result (((at < length domain.old.items) × (domain.new.items ≡ domain.old.items))
        ⊎ ((length domain.old.items ≤ at) × (domain.new.items ≡ domain.old.items
        ++ top_set (request_view request.now) (ask_view ask.now) number (facet_view node.now) (piece_of segment.now) ∷ []))) }
    ensures kept { StayBases (request_view request.now) at (piece_of segment.now) bases.old bases.new }
{
    if at < domain.len() {
        return Ok(());
    }
    let base_docs = reach(alloc, request, segment, at, roots)?;
    let docs = wanted_domain(
        alloc, kinds, request, segment, at, bases, ask, number, &base_docs, node,
    )?;
    domain.push(docs)?;
    Ok(())
}

/// The segment with a number.
pub(crate) fn segment_at(segments: &[Arc<Segment>], at: usize) -> Option<&Segment>
    ensures { MatchOption result (length (map arc_value segments.now) ≤ at)
        (λ segment. drop at (map arc_value segments.now) ≡ segment.now ∷ drop (at + 1) (map arc_value segments.now)) }
{
    if at < segments.len() {
        return Some(&*segments[at]);
    }
    None
}

// The innermost level.
fn innermost<'a, 'b>(levels: &'b [Level<'a>]) -> &'b Level<'a>
    requires { 0 < length levels.now }
    ensures { drop (length levels.now - 1) levels.now ≡ result.now ∷ [] }
{
    &levels[levels.len() - 1]
}

/// One segment of a top bucket's job, where there is one left.
pub(crate) fn top_segment<'a>(
    alloc: Global,
    kinds: &[Box<dyn FacetKind>],
    request: &'a Request,
    segments: &[Arc<Segment>],
    bases: &mut Bases<'a>,
    ask: &Ask,
    number: usize,
    roots: &mut Vec<DocSet>,
    job: &mut TopJob<'_>,
) -> Result<(), WantMemory>
    requires covers { Covers (map name kinds.now) }
    requires number { number < asked_count (ask_view ask.now) }
    requires names { NamesKeys (request_view request.now).nodes (ask_view ask.now) }
    requires stands { (s : Schema) × StandsAtTop s (map arc_value segments.now) request.now (ask_view ask.now) number roots.old.items job.old }
    requires bases { AreBases (request_view request.now) (pieces_in (map arc_value segments.now)) bases.old }
    ensures stepped { OnOk result ((s : Schema) → StandsAtTop s (map arc_value segments.now) request.now (ask_view ask.now) number roots.old.items job.old
        → IsTopStep s (map arc_value segments.now) request.now (ask_view ask.now) number roots.new.items job.old job.new) }
    ensures bases { AreBases (request_view request.now) (pieces_in (map arc_value segments.now)) bases.new }
{
    let at = job.at;
    let Some(segment) = segment_at(segments, at) else {
        return Ok(());
    };
    look_at(
        alloc,
        kinds,
        request,
        segment,
        at,
        bases,
        ask,
        number,
        job.node,
        roots,
        &mut job.domain,
    )?;
    bucket_unit(
        alloc,
        kinds,
        segment,
        &job.domain[at],
        job.node,
        &job.key,
        &job.stats,
        &mut job.over,
    )?;
    job.at = at + 1;
    Ok(())
}

/// One segment of a facet's job, where there is one left.
pub(crate) fn facet_segment<'a>(
    alloc: Global,
    kinds: &[Box<dyn FacetKind>],
    request: &'a Request,
    segments: &[Arc<Segment>],
    bases: &mut Bases<'a>,
    ask: &Ask,
    number: usize,
    levels: &[Level<'a>],
    job: &mut FacetJob<'_>,
) -> Result<(), WantMemory>
    requires covers { Covers (map name kinds.now) }
    requires number { number < asked_count (ask_view ask.now) }
    requires names { NamesKeys (request_view request.now).nodes (ask_view ask.now) }
    requires stands { (s : Schema) × StandsAtFacet s (map arc_value segments.now) request.now (ask_view ask.now) number levels.now job.old }
    requires bases { AreBases (request_view request.now) (pieces_in (map arc_value segments.now)) bases.old }
    ensures stepped { OnOk result ((s : Schema) → StandsAtFacet s (map arc_value segments.now) request.now (ask_view ask.now) number levels.now job.old
        → IsFacetStep s (map arc_value segments.now) request.now (ask_view ask.now) number levels.now job.old job.new) }
    ensures bases { AreBases (request_view request.now) (pieces_in (map arc_value segments.now)) bases.new }
{
    let at = job.domain.len();
    let Some(segment) = segment_at(segments, at) else {
        return Ok(());
    };
    let level = innermost(levels);
    let enclosing = enclosing_for(alloc, request, ask, number, levels, job.node)?;
    let docs = facet_unit(
        alloc,
        kinds,
        request,
        segment,
        at,
        bases,
        &enclosing,
        level.node,
        &level.key,
        &level.domain[at],
        job.node,
        &mut job.tally,
    )?;
    job.domain.push(docs)?;
    Ok(())
}
