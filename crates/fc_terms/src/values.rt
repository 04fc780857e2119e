// The values of a terms facet.
ghost use Rattle.std.specs.Prelude.{◌≡◌, [], ◌∷◌, length, map, OnOk};
ghost use Rattle.fc_spec.specs.documents.Columns.{column_of};
ghost use Rattle.fc_spec.specs.documents.Sets.{places_on};
ghost use Rattle.fc_spec.specs.documents.Totals.{document_total, documents_in};
ghost use Rattle.fc_spec.specs.documents.Val.{text};
ghost use Rattle.fc_spec.specs.requests.Request as definition;
ghost use Rattle.fc_spec.specs.scripts.WorldLimits.{IsWithinLimits};
ghost use Rattle.fc_base.specs.StatisticView.{stat_view};
ghost use Rattle.fc_facet.specs.KindView.{terms_view};
ghost use Rattle.fc_kind.specs.Collecting.{BucketsAddUp, CollectsAmong};
ghost use Rattle.fc_kind.specs.Columns.{FitsColumns, HaveFields};
ghost use Rattle.fc_terms.specs.Values.{is_value_key};

use crate::density::{have_many_texts, holds_much, is_dense};
use crate::long_values::collect_longs;
use crate::prefix::prefix_span;
use crate::repeated::are_repeated;
use crate::text_postings::collect_texts_by_postings;
use crate::text_runs::collect_texts_in_runs;
use crate::texts::collect_texts_densely;
use fc_base::{Stat, WantMemory};
use fc_column::TextColumn;
use fc_docset::DocSet;
use fc_facet::Terms;
use fc_partial::Tally;
use fc_segment::{Column, Segment};
use std::alloc::Global;

// Combines the statistics of the documents in the set into each text that begins with the prefix: by the documents of
// each text where the set holds much of the segment and of its texts and nothing is read anew for each text of a document, else
// side by side where the terms are not many more than the documents, else in runs.
fn collect_texts(
    alloc: Global,
    segment: &Segment,
    docs: &DocSet,
    terms: &Terms,
    column: &TextColumn,
    stats: &[Stat],
    into: &mut Tally,
) -> Result<(), WantMemory>
    requires fields { HaveFields segment.now.texts (map stat_view stats.now) }
    requires limits { IsWithinLimits (segment.now.blocks ∷ []) }
    requires length { length docs.now ≡ document_total segment.now.blocks }
    requires column { map (map text) column.now
        ≡ column_of terms.now.field.0 (documents_in segment.now.blocks) }
    requires stats { into.old.stats ≡ map stat_view stats.now }
    requires add_up { BucketsAddUp (definition.terms (terms_view terms.now)) into.old.stats
        (places_on 0 segment.now.blocks docs.now) into.old.entries }
    ensures { OnOk result (CollectsAmong (is_value_key (terms_view terms.now))
        (definition.terms (terms_view terms.now)) into.old.stats
        (places_on 0 segment.now.blocks docs.now) into.old into.new) }
{
    let span = prefix_span(column, terms);
    let count = docs.count();
    let by_text = holds_much(count, docs.len())
        && have_many_texts(docs, column, span.1 - span.0)
        && !are_repeated(alloc, segment, docs, column, stats)?;
    if by_text {
        collect_texts_by_postings(alloc, segment, docs, terms, column, span, stats, into)
    } else if is_dense(u64::from(span.1 - span.0), count) {
        let stats = stats.to_vec(alloc)?;
        collect_texts_densely(alloc, segment, docs, terms, column, span, stats, into)
    } else {
        collect_texts_in_runs(alloc, segment, docs, terms, column, span, stats, into)
    }
}

/// Combines the statistics of the documents in the set into the bucket of each value that begins with the prefix.
pub(crate) fn collect_values(
    alloc: Global,
    segment: &Segment,
    docs: &DocSet,
    terms: &Terms,
    stats: &[Stat],
    into: &mut Tally,
) -> Result<(), WantMemory>
    requires fits { FitsColumns segment.now.texts (definition.terms (terms_view terms.now)) }
    requires fields { HaveFields segment.now.texts (map stat_view stats.now) }
    requires limits { IsWithinLimits (segment.now.blocks ∷ []) }
    requires length { length docs.now ≡ document_total segment.now.blocks }
    requires stats { into.old.stats ≡ map stat_view stats.now }
    requires add_up { BucketsAddUp (definition.terms (terms_view terms.now)) into.old.stats
        (places_on 0 segment.now.blocks docs.now) into.old.entries }
    ensures { OnOk result (CollectsAmong (is_value_key (terms_view terms.now))
        (definition.terms (terms_view terms.now)) into.old.stats
        (places_on 0 segment.now.blocks docs.now) into.old into.new) }
{
    match segment.column(terms.field) {
        Column::Text(column) => collect_texts(alloc, segment, docs, terms, column, stats, into),
        Column::Long(column) => collect_longs(alloc, segment, docs, terms, column, stats, into),
    }
}
