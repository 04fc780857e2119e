// The base of a request on a segment.
ghost use Rattle.std.specs.Prelude.{◌≡◌, ◌∷◌, ◌||◌, [], length, map, All, OnOk};
ghost use Rattle.std.specs.List.{items_where_true, list_all};
ghost use Rattle.fc_spec.specs.documents.Live.{live_in};
ghost use Rattle.fc_spec.specs.documents.Sets.{passing_of};
ghost use Rattle.fc_spec.specs.documents.Totals.{document_total, documents_in};
ghost use Rattle.fc_spec.specs.queries.Matching.{matches};
ghost use Rattle.fc_spec.specs.requests.Base as definition;
ghost use Rattle.fc_query.specs.FilterView.{filter_view};
ghost use Rattle.fc_request.specs.RequestView.{request_view};
ghost use Rattle.fc_domain.specs.FieldsFit.{BaseFits, FitsFields};

use crate::matches;
use fc_base::{Name, WantMemory};
use fc_docset::DocSet;
use fc_query::Filter;
use fc_request::Request;
use fc_segment::Segment;
use fc_spec::sets_hold_on_live_blocks;
use std::alloc::Global;

/// Makes the set the positions of the segment whose document is live and matches the request's query and each of its filters
/// that has no tag in `exclude`. After want of memory nothing is known of the set but its length.
pub fn base(
    alloc: Global,
    segment: &Segment,
    request: &Request,
    exclude: &[Name],
    into: &mut DocSet,
) -> Result<(), WantMemory>
    requires fits { BaseFits segment.now.texts (request_view request.now) }
    requires length { length into.old ≡ document_total segment.now.blocks }
    ensures set { OnOk result (into.new
        ≡ passing_of (definition.meets_base (request_view request.now) exclude.now)
        segment.now.blocks segment.now.live) }
    ensures documents { OnOk result (items_where_true into.new (documents_in segment.now.blocks)
        ≡ map (λ p. p.document) (definition.base (request_view request.now)
        (live_in segment.now.blocks segment.now.live ∷ []) exclude.now)) }
    ensures length { length into.new ≡ length into.old }
{
    sets_hold_on_live_blocks();
    matches(alloc, segment, &request.query, into)?;
    keep_filtered(alloc, segment, &request.filters, exclude, into)?;
    into.and_with(segment.live());
    Ok(())
}

// Keeps the positions whose document matches each filter that has no tag in `exclude`.
fn keep_filtered(
    alloc: Global,
    segment: &Segment,
    filters: &[Filter],
    exclude: &[Name],
    into: &mut DocSet,
) -> Result<(), WantMemory>
    requires fits { All (λ f. FitsFields segment.now.texts f.query) (map filter_view filters.now) }
    requires length { length into.old ≡ document_total segment.now.blocks }
    ensures set { OnOk result (into.new ≡ passing_of
        (λ d. list_all (λ f. definition.has_tag_in exclude.now f || matches f.query d)
        (map filter_view filters.now))
        segment.now.blocks into.old) }
    ensures length { length into.new ≡ length into.old }
{
    if filters.is_empty() {
        return Ok(());
    }
    let mut answers = DocSet::empty(alloc, into.len())?;
    for filter in filters {
        if !filter.has_tag_in(exclude) {
            matches(alloc, segment, &filter.query, &mut answers)?;
            into.and_with(&answers);
        }
    }
    Ok(())
}
