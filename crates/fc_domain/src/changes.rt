// Domain changes on a segment.
ghost use Rattle.std.specs.Prelude.{◌≡◌, ◌∷◌, [], length, map, All, OnOk};
ghost use Rattle.fc_spec.specs.documents.Sets.{passing_of, places_on};
ghost use Rattle.fc_spec.specs.documents.Totals.{document_total};
ghost use Rattle.fc_spec.specs.queries.Matching.{matches};
ghost use Rattle.fc_spec.specs.requests.Domain as definition;
ghost use Rattle.fc_spec.specs.requests.DomainSets.{changed_set, filtered_set, moved_set};
ghost use Rattle.fc_query.specs.QueryView.{query_view};
ghost use Rattle.fc_facet.specs.KindView.{domain_view, step_view};
ghost use Rattle.fc_domain.specs.FieldsFit.{ChangeFits, FitsFields, StepFits};

use crate::blocks::{gather, spread};
use crate::matches;
use fc_base::WantMemory;
use fc_docset::DocSet;
use fc_facet::{BlockStep, Domain};
use fc_query::Query;
use fc_segment::Segment;
use std::alloc::Global;

/// Makes the set what the domain change makes of `docs`: where the change excludes tags, `base_docs` stand in their place;
/// then the block step, then the change's own filters. After want of memory nothing is known of the set but its length.
pub fn step(
    alloc: Global,
    segment: &Segment,
    domain: &Domain,
    docs: &DocSet,
    base_docs: &DocSet,
    into: &mut DocSet,
) -> Result<(), WantMemory>
    requires fits { ChangeFits segment.now.texts (domain_view domain.now) }
    requires docs { length docs.now ≡ document_total segment.now.blocks }
    requires base_docs { length base_docs.now ≡ document_total segment.now.blocks }
    requires length { length into.old ≡ document_total segment.now.blocks }
    ensures set { OnOk result (into.new
        ≡ changed_set (domain_view domain.now) segment.now.blocks base_docs.now docs.now) }
    ensures places { OnOk result (places_on 0 segment.now.blocks into.new
        ≡ definition.changed (segment.now.blocks ∷ [])
        (places_on 0 segment.now.blocks base_docs.now) (domain_view domain.now)
        (places_on 0 segment.now.blocks docs.now)) }
    ensures length { length into.new ≡ length into.old }
{
    let begin = if domain.exclude.is_empty() {
        docs
    } else {
        base_docs
    };
    move_in_blocks(alloc, segment, &domain.block, begin, into)?;
    keep_matching(alloc, segment, &domain.filters, into)
}

// Makes the set what the block step makes of `docs`.
fn move_in_blocks(
    alloc: Global,
    segment: &Segment,
    step: &BlockStep,
    docs: &DocSet,
    into: &mut DocSet,
) -> Result<(), WantMemory>
    requires fits { StepFits segment.now.texts (step_view step.now) }
    requires docs { length docs.now ≡ document_total segment.now.blocks }
    requires length { length into.old ≡ document_total segment.now.blocks }
    ensures set { OnOk result
        (into.new ≡ moved_set (step_view step.now) segment.now.blocks docs.now) }
    ensures length { length into.new ≡ length into.old }
{
    match step {
        BlockStep::Stay => into.set_mask(docs.words()),
        BlockStep::Parents(query) => {
            gather(segment, docs, into);
            return keep_match(alloc, segment, query, into);
        }
        BlockStep::Children(query) => {
            matches(alloc, segment, query, into)?;
            into.and_with(docs);
            spread(segment, into);
        }
    }
    Ok(())
}

// Keeps the positions whose document matches.
fn keep_match(
    alloc: Global,
    segment: &Segment,
    query: &Query,
    into: &mut DocSet,
) -> Result<(), WantMemory>
    requires fits { FitsFields segment.now.texts (query_view query.now) }
    requires length { length into.old ≡ document_total segment.now.blocks }
    ensures set { OnOk result (into.new
        ≡ passing_of (matches (query_view query.now)) segment.now.blocks into.old) }
    ensures length { length into.new ≡ length into.old }
{
    let mut answers = DocSet::empty(alloc, into.len())?;
    matches(alloc, segment, query, &mut answers)?;
    into.and_with(&answers);
    Ok(())
}

/// Keeps the positions whose document matches each of the queries. After want of memory nothing is known of the set but its length.
pub fn keep_matching(
    alloc: Global,
    segment: &Segment,
    queries: &[Query],
    into: &mut DocSet,
) -> Result<(), WantMemory>
    requires fits { All (FitsFields segment.now.texts) (map query_view queries.now) }
    requires length { length into.old ≡ document_total segment.now.blocks }
    ensures set { OnOk result
        (into.new ≡ filtered_set (map query_view queries.now) segment.now.blocks into.old) }
    ensures length { length into.new ≡ length into.old }
{
    if queries.is_empty() {
        return Ok(());
    }
    let mut answers = DocSet::empty(alloc, into.len())?;
    for query in queries {
        matches(alloc, segment, query, &mut answers)?;
        into.and_with(&answers);
    }
    Ok(())
}
