// Where a way leads in a segment.
ghost use Rattle.std.specs.Prelude.{◌≡◌, Bool, IfOk, List, IsTrue, length, map};
ghost use Rattle.fc_spec.specs.documents.Totals.{document_total};
ghost use Rattle.fc_spec.specs.laws.LacksLaws.{names_keys};
ghost use Rattle.fc_spec.specs.requests.Buckets.{is_key_of};
ghost use Rattle.fc_spec.specs.requests.DomainSets.{bucket_set};
ghost use Rattle.fc_spec.specs.requests.Paths.{at_root};
ghost use Rattle.fc_request.specs.FacetNode.{facet_view, has_buckets, kind_of, kind_view};
ghost use Rattle.fc_request.specs.NodeView.{nodes_view};
ghost use Rattle.fc_request.specs.RequestView.{request_view};
ghost use Rattle.fc_partial.specs.View.{key_view};
ghost use Rattle.fc_refine.specs.AskView.{way_view};
ghost use Rattle.fc_domain.specs.FieldsFit.{BaseFits, ChangeFits};
ghost use Rattle.fc_kind.specs.Columns.{FitsColumns};
ghost use Rattle.fc_kind.specs.Names.{Covers};
ghost use Rattle.fc_jobs.specs.BasesKept.{AreBasesAt, StayBases};
ghost use Rattle.fc_jobs.specs.FacetFits.{AllFit};
ghost use Rattle.fc_jobs.specs.Pieces.{piece_of};
ghost use Rattle.fc_answers.specs.SetAnswer.{Scope, scope_on};
ghost use Rattle.fc_jobs.specs.Scopes.{AllEnclosingFit, scope_from, scope_over};
ghost use Rattle.fc_jobs.specs.Walked.{domain_set, scope_along, walked};

use crate::bases::Bases;
use crate::choosing::selected;
use crate::enclosing::Enclosing;
use crate::facets::changed;
use fc_base::WantMemory;
use fc_docset::DocSet;
use fc_kind::FacetKind;
use fc_partial::Key;
use fc_refine::Step;
use fc_request::{Node, Request};
use fc_segment::Segment;
use std::alloc::Global;

// The documents of a facet's bucket, from those of the bucket around the facet.
fn entered<'a>(
    alloc: Global,
    kinds: &[Box<dyn FacetKind>],
    request: &Request,
    segment: &Segment,
    at: usize,
    bases: &mut Bases<'a>,
    enclosing: &[Enclosing<'a, '_>],
    node: &Node,
    key: &Key,
    docs: &DocSet,
) -> Result<DocSet, WantMemory>
    requires covers { Covers (map name kinds.now) }
    requires base { BaseFits segment.now.texts (request_view request.now) }
    requires enclosing { AllEnclosingFit segment.now.texts enclosing.now }
    requires facet { IsTrue (has_buckets (kind_of node.now)) }
    requires change { ChangeFits segment.now.texts (facet_view node.now).change }
    requires kind { FitsColumns segment.now.texts (kind_view (kind_of node.now)) }
    requires docs { length docs.now ≡ document_total segment.now.blocks }
    requires key { IsTrue (is_key_of (kind_view (kind_of node.now)) (key_view key.now)) }
    requires kept { AreBasesAt (request_view request.now) at (piece_of segment.now) bases.old }
    ensures set { IfOk result (λ set. set ≡ bucket_set (kind_view (kind_of node.now)) (key_view key.now) segment.now.blocks
        (domain_set (scope_over (request_view request.now) enclosing.now) (piece_of segment.now) (facet_view node.now) docs.now)) }
    ensures length { IfOk result (λ set. length set ≡ document_total segment.now.blocks) }
    ensures kept { StayBases (request_view request.now) at (piece_of segment.now) bases.old bases.new }
{
    let domain = changed(
        alloc, kinds, request, segment, at, bases, enclosing, node, docs,
    )?;
    selected(alloc, kinds, segment, &domain, node, key)
}

/// The facets along a way from these nodes on, each with the key of its bucket.
pub fn enclosing_along<'a, 'b>(
    alloc: Global,
    all: &'a [Node],
    way: &'b [Step],
) -> Result<Vec<Enclosing<'a, 'b>>, WantMemory>
    requires { IsTrue (names_keys (nodes_view all.now) (way_view way.now)) }
    ensures scope { IfOk result (λ enclosing. (o : Scope) → scope_from o enclosing.items ≡ scope_along o (nodes_view all.now) (way_view way.now)) }
    ensures fit { IfOk result (λ enclosing. (texts : List Bool) → AllFit texts (nodes_view all.now) → AllEnclosingFit texts enclosing.items) }
{
    let mut enclosing = Vec::new(alloc);
    let mut nodes = all;
    for step in way {
        let Some(around) = nodes.get(step.node as usize) else {
            unreachable!()
        };
        enclosing.push(Enclosing {
            node: around,
            key: &step.key,
        })?;
        nodes = &around.nodes;
    }
    Ok(enclosing)
}

/// The domain of a facet in a segment, which has this number, in the bucket where a way leads from the base. What other bases it
/// needs are taken from those that are there, and new ones are kept there.
pub fn domain_where<'a>(
    alloc: Global,
    kinds: &[Box<dyn FacetKind>],
    request: &'a Request,
    segment: &Segment,
    at: usize,
    bases: &mut Bases<'a>,
    base_docs: &DocSet,
    way: &[Step],
    node: &Node,
) -> Result<DocSet, WantMemory>
    requires covers { Covers (map name kinds.now) }
    requires base { BaseFits segment.now.texts (request_view request.now) }
    requires fit { AllFit segment.now.texts (request_view request.now).nodes }
    requires docs { length base_docs.now ≡ document_total segment.now.blocks }
    requires keys { IsTrue (names_keys (request_view request.now).nodes (way_view way.now)) }
    requires node { ChangeFits segment.now.texts (facet_view node.now).change }
    requires kept { AreBasesAt (request_view request.now) at (piece_of segment.now) bases.old }
    ensures set { IfOk result (λ set. set ≡ domain_set (scope_along (scope_on (request_view request.now) at_root)
        (request_view request.now).nodes (way_view way.now)) (piece_of segment.now) (facet_view node.now)
        (walked (scope_on (request_view request.now) at_root) (piece_of segment.now) (request_view request.now).nodes base_docs.now (way_view way.now))) }
    ensures kept { StayBases (request_view request.now) at (piece_of segment.now) bases.old bases.new }
{
    let mut docs = base_docs.copy(alloc)?;
    let mut nodes = request.root.nodes.as_slice();
    let mut enclosing = Vec::new(alloc);
    for step in way {
        let Some(around) = nodes.get(step.node as usize) else {
            unreachable!()
        };
        docs = entered(
            alloc, kinds, request, segment, at, bases, &enclosing, around, &step.key, &docs,
        )?;
        enclosing.push(Enclosing {
            node: around,
            key: &step.key,
        })?;
        nodes = &around.nodes;
    }
    changed(
        alloc, kinds, request, segment, at, bases, &enclosing, node, &docs,
    )
}
