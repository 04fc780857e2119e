// The bases that were made for an ask.
ghost use Rattle.std.specs.Prelude.{◌≡◌, ◌<◌, Bool, List, IfOk, IfSome, IsTrue, length, slice_index_or};
ghost use Rattle.fc_spec.specs.documents.Totals.{document_total};
ghost use Rattle.fc_spec.specs.requests.Request as definition;
ghost use Rattle.fc_request.specs.RequestView.{request_view};
ghost use Rattle.fc_domain.specs.FieldsFit.{BaseFits};
ghost use Rattle.fc_jobs.specs.BasesKept.{kept_base};
ghost use Rattle.fc_answers.specs.SetAnswer.{Pieces};
ghost use Rattle.fc_jobs.specs.FilterLists.{AllQueriesFit, queries_in};
ghost use Rattle.fc_jobs.specs.Pieces.{no_piece, piece_of};

use crate::same_filters::are_same;
use fc_base::{Name, WantMemory};
use fc_docset::DocSet;
use fc_domain::{base, keep_matching};
use fc_query::Query;
use fc_request::Request;
use fc_segment::Segment;
use std::alloc::Global;

/// A base that was made: of the live documents of the segment with this number, without the filters that have one of these tags, and
/// of it what matches each query of these lists, which are the filters of domains.
#[derive(Debug, Drop)]
pub(crate) struct KeptBase<'a> {
    pub(crate) at: usize,
    pub(crate) tags: Vec<Name>,
    pub(crate) filters: Vec<&'a [Query]>,
    pub(crate) docs: DocSet,
}

impl KeptBase<'_> {
    // Whether it is that of this segment, these tags and these filters.
    fn is_of(&self, at: usize, tags: &[Name], filters: &[&[Query]]) -> bool
        ensures { IsTrue result → (self.now.at ≡ at) × (self.now.tags.items ≡ tags.now)
            × (queries_in self.now.filters.items ≡ queries_in filters.now) }
    {
        self.at == at && self.tags.as_slice() == tags && are_same(&self.filters, filters)
    }
}

/// The bases that were made for an ask, so that none is made again.
#[derive(Debug, Drop)]
pub struct Bases<'a> {
    pub(crate) kept: Vec<KeptBase<'a>>,
}

impl<'a> Bases<'a> {
    ghost use Rattle.fc_jobs.specs.BasesKept.{AreBases, AreBasesAt, HasNone, Holds, StayBases};

    /// No base yet.
    pub fn new(alloc: Global) -> Bases<'a>
        ensures { HasNone result }
    {
        Bases {
            kept: Vec::new(alloc),
        }
    }

    // The number of the one of this segment, these tags and these filters.
    fn find(&self, at: usize, tags: &[Name], filters: &[&[Query]]) -> Option<usize>
        ensures docs { IfSome result (λ number. (r : definition.Request) (V : Pieces) → AreBases r V self.now
            → Holds self.now number (kept_base r tags.now (queries_in filters.now) (slice_index_or V at no_piece))) }
        ensures count { IfSome result (λ number. (r : definition.Request) (V : Pieces) → AreBases r V self.now
            → length (kept_base r tags.now (queries_in filters.now) (slice_index_or V at no_piece)) ≡ document_total (slice_index_or V at no_piece).blocks) }
    {
        for (number, base) in self.kept.iter().enumerate() {
            if base.is_of(at, tags, filters) {
                return Some(number);
            }
        }
        None
    }

    /// The base of the request in a segment, which has this number, without the filters that have one of these tags, and of it what
    /// matches each query of these lists: the number of the one that was made, or else of a new one, which is kept.
    pub(crate) fn base_at(
        &mut self,
        alloc: Global,
        request: &Request,
        segment: &Segment,
        at: usize,
        tags: Vec<Name>,
        filters: Vec<&'a [Query]>,
    ) -> Result<usize, WantMemory>
        requires fits { BaseFits segment.now.texts (request_view request.now) }
        requires filters { AllQueriesFit segment.now.texts filters.items }
        requires kept { AreBasesAt (request_view request.now) at (piece_of segment.now) self.old }
        ensures docs { IfOk result (λ number. Holds self.new number
            (kept_base (request_view request.now) tags.items (queries_in filters.entry.items) (piece_of segment.now))) }
        ensures count { IfOk result (λ number. length (kept_base (request_view request.now) tags.items (queries_in filters.entry.items) (piece_of segment.now))
            ≡ document_total segment.now.blocks) }
        ensures kept { StayBases (request_view request.now) at (piece_of segment.now) self.old self.new }
    {
        if let Some(number) = self.find(at, &tags, &filters) {
            return Ok(number);
        }
        let docs = made(alloc, request, segment, &tags, &filters)?;
        let number = self.kept.len();
        self.kept.push(KeptBase {
            at,
            tags,
            filters,
            docs,
        })?;
        Ok(number)
    }

    /// The documents of the base with a number.
    pub(crate) fn docs(&self, number: usize) -> &DocSet
        requires { number < length self.now.kept.items }
        ensures { (docs : List Bool) → Holds self.now number docs → result.now ≡ docs }
    {
        &self.kept[number].docs
    }
}

// A new base.
fn made(
    alloc: Global,
    request: &Request,
    segment: &Segment,
    tags: &[Name],
    filters: &[&[Query]],
) -> Result<DocSet, WantMemory>
    requires fits { BaseFits segment.now.texts (request_view request.now) }
    requires filters { AllQueriesFit segment.now.texts filters.now }
    ensures set { IfOk result (λ docs. docs ≡ kept_base (request_view request.now) tags.now (queries_in filters.now) (piece_of segment.now)) }
    ensures count { IfOk result (λ docs. length docs ≡ document_total segment.now.blocks) }
{
    let mut docs = DocSet::empty(alloc, segment.doc_count())?;
    base(alloc, segment, request, tags, &mut docs)?;
    for queries in filters {
        keep_matching(alloc, segment, queries, &mut docs)?;
    }
    Ok(docs)
}
