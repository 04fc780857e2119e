// One segment of a facet's job.
ghost use Rattle.std.specs.Prelude.{◌≡◌, ◌∷◌, [], IfOk, IsTrue, length, map};
ghost use Rattle.fc_spec.specs.documents.Sets.{places_on};
ghost use Rattle.fc_spec.specs.documents.Totals.{document_total};
ghost use Rattle.fc_spec.specs.requests.Buckets.{is_key_of};
ghost use Rattle.fc_spec.specs.requests.DomainSets.{bucket_set};
ghost use Rattle.fc_spec.specs.requests.Request.{stats_of};
ghost use Rattle.fc_spec.specs.scripts.WorldLimits.{IsWithinLimits};
ghost use Rattle.fc_partial.specs.View.{key_view};
ghost use Rattle.fc_request.specs.FacetNode.{facet_view, kind_of, kind_view};
ghost use Rattle.fc_request.specs.NodeView.{inner_view};
ghost use Rattle.fc_request.specs.RequestView.{request_view};
ghost use Rattle.fc_domain.specs.FieldsFit.{BaseFits, ChangeFits};
ghost use Rattle.fc_kind.specs.Collecting.{BucketsAddUp, Collects};
ghost use Rattle.fc_kind.specs.Names.{Covers};
ghost use Rattle.fc_jobs.specs.BasesKept.{AreBasesAt, StayBases};
ghost use Rattle.fc_jobs.specs.FacetFits.{FacetFits};
ghost use Rattle.fc_jobs.specs.Pieces.{piece_of};
ghost use Rattle.fc_jobs.specs.Scopes.{AllEnclosingFit, scope_over};
ghost use Rattle.fc_jobs.specs.Walked.{domain_set};

use crate::bases::Bases;
use crate::choosing::{collect, selected};
use crate::enclosing::Enclosing;
use crate::rebuilding::rebuilt;
use fc_base::WantMemory;
use fc_docset::DocSet;
use fc_domain::step;
use fc_kind::FacetKind;
use fc_partial::{Key, Tally};
use fc_request::{Node, Request};
use fc_segment::Segment;
use std::alloc::Global;

/// The domain of a facet in a segment, inside the buckets of these facets, from the documents of the innermost one. Where the change
/// excludes tags, it begins with the base inside those buckets; where it excludes none, no base is asked for, and where there are no
/// documents besides, none is looked at.
pub(crate) fn changed<'a>(
    alloc: Global,
    kinds: &[Box<dyn FacetKind>],
    request: &Request,
    segment: &Segment,
    at: usize,
    bases: &mut Bases<'a>,
    enclosing: &[Enclosing<'a, '_>],
    node: &Node,
    docs: &DocSet,
) -> Result<DocSet, WantMemory>
    requires covers { Covers (map name kinds.now) }
    requires enclosing { AllEnclosingFit segment.now.texts enclosing.now }
    requires base { BaseFits segment.now.texts (request_view request.now) }
    requires fits { ChangeFits segment.now.texts (facet_view node.now).change }
    requires docs { length docs.now ≡ document_total segment.now.blocks }
    requires kept { AreBasesAt (request_view request.now) at (piece_of segment.now) bases.old }
    ensures set { IfOk result (λ set. set ≡ domain_set (scope_over (request_view request.now) enclosing.now) (piece_of segment.now) (facet_view node.now) docs.now) }
    ensures length { IfOk result (λ set. length set ≡ document_total segment.now.blocks) }
    ensures kept { StayBases (request_view request.now) at (piece_of segment.now) bases.old bases.new }
{
    let mut into = DocSet::empty(alloc, docs.len())?;
    if node.domain.exclude.is_empty() {
        if docs.next_from(0).is_none() {
            return Ok(into);
        }
        step(alloc, segment, &node.domain, docs, docs, &mut into)?;
        return Ok(into);
    }
    let base_docs = rebuilt(
        alloc,
        kinds,
        request,
        segment,
        at,
        bases,
        enclosing,
        &node.domain.exclude,
    )?;
    step(alloc, segment, &node.domain, docs, &base_docs, &mut into)?;
    Ok(into)
}

/// One segment of a facet's job, inside the buckets of these facets, of which the last is the one around it with this key: the facet's
/// domain there, whose documents are collected into its tally. The segment has this number; what base it needs is taken from the bases,
/// and one that is new is kept there.
pub fn facet_unit<'a>(
    alloc: Global,
    kinds: &[Box<dyn FacetKind>],
    request: &Request,
    segment: &Segment,
    at: usize,
    bases: &mut Bases<'a>,
    enclosing: &[Enclosing<'a, '_>],
    around: &Node,
    key: &Key,
    docs: &DocSet,
    node: &Node,
    tally: &mut Tally,
) -> Result<DocSet, WantMemory>
    requires covers { Covers (map name kinds.now) }
    requires base { BaseFits segment.now.texts (request_view request.now) }
    requires limits { IsWithinLimits (segment.now.blocks ∷ []) }
    requires enclosing { AllEnclosingFit segment.now.texts enclosing.now }
    requires around { FacetFits segment.now.texts around.now }
    requires key { IsTrue (is_key_of (kind_view (kind_of around.now)) (key_view key.now)) }
    requires length { length docs.now ≡ document_total segment.now.blocks }
    requires node { FacetFits segment.now.texts node.now }
    requires kept { AreBasesAt (request_view request.now) at (piece_of segment.now) bases.old }
    requires stats { tally.old.stats ≡ stats_of (inner_view node.now) }
    requires add_up { BucketsAddUp (kind_view (kind_of node.now)) tally.old.stats
        (places_on 0 segment.now.blocks (domain_set (scope_over (request_view request.now) enclosing.now) (piece_of segment.now) (facet_view node.now)
        (bucket_set (kind_view (kind_of around.now)) (key_view key.now) segment.now.blocks docs.now))) tally.old.entries }
    ensures set { IfOk result (λ set. set ≡ domain_set (scope_over (request_view request.now) enclosing.now) (piece_of segment.now) (facet_view node.now)
        (bucket_set (kind_view (kind_of around.now)) (key_view key.now) segment.now.blocks docs.now)) }
    ensures collected { IfOk result (λ set. Collects (kind_view (kind_of node.now)) tally.old.stats
        (places_on 0 segment.now.blocks set) tally.old tally.new) }
    ensures kept { StayBases (request_view request.now) at (piece_of segment.now) bases.old bases.new }
{
    let bucket = selected(alloc, kinds, segment, docs, around, key)?;
    let set = changed(
        alloc, kinds, request, segment, at, bases, enclosing, node, &bucket,
    )?;
    collect(alloc, kinds, segment, &set, node, tally)?;
    Ok(set)
}
