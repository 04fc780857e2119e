// Terms facets over a field of texts, of which few documents are in the set.
ghost use Rattle.std.specs.Prelude.{◌≡◌, ◌<◌, ◌≤◌, ◌++◌, [], ◌∷◌, length, map, All, IfOk, OnOk};
ghost use Rattle.fc_spec.specs.documents.Columns.{column_of};
ghost use Rattle.fc_spec.specs.documents.Sets.{places_on};
ghost use Rattle.fc_spec.specs.documents.Totals.{document_total, documents_in};
ghost use Rattle.fc_spec.specs.documents.Val.{text};
ghost use Rattle.fc_spec.specs.requests.Request as definition;
ghost use Rattle.fc_spec.specs.scripts.WorldLimits.{IsWithinLimits};
ghost use Rattle.fc_base.specs.StatisticView.{stat_view};
ghost use Rattle.fc_column.specs.Terms.{terms_of};
ghost use Rattle.fc_docset.specs.Positions.{positions};
ghost use Rattle.fc_facet.specs.KindView.{terms_view};
ghost use Rattle.fc_kind.specs.Collecting.{BucketsAddUp, CollectsAmong};
ghost use Rattle.fc_kind.specs.Columns.{HaveFields};
ghost use Rattle.fc_terms.specs.Gathered.{AreGathered, countings_at, ordinals_above, terms_at};
ghost use Rattle.fc_terms.specs.Spans.{IsPrefixSpan};
ghost use Rattle.fc_terms.specs.TermSpan.{IsTermNumber};
ghost use Rattle.fc_terms.specs.Values.{is_value_key};

use crate::numbers::TermSpan;
use fc_base::{Stat, WantMemory};
use fc_column::TextColumn;
use fc_count::{Countings, add_runs};
use fc_docset::DocSet;
use fc_facet::Terms;
use fc_partial::Tally;
use fc_segment::Segment;
use std::alloc::Global;

// Puts a position behind the others, once for each of its ordinals in the span, by how far that stands above the first.
fn push_ordinals(
    ordinals: &[u32],
    span: (u32, u32),
    at: u32,
    into: &mut Countings,
) -> Result<(), WantMemory>
    ensures { OnOk result (into.new
        ≡ into.old ++ countings_at at (ordinals_above span.0 span.1 ordinals.now)) }
{
    let (from, to) = span;
    for ord in ordinals {
        if from <= *ord && *ord < to {
            into.push(i64::from(*ord - from), at)?;
        }
    }
    Ok(())
}

// Each position in the set, once for each of its terms in the span, with the term's number.
fn term_countings(
    alloc: Global,
    docs: &DocSet,
    column: &TextColumn,
    span: (u32, u32),
) -> Result<Countings, WantMemory>
    requires length { length docs.now ≡ length column.now }
    requires within { span.1 ≤ length (terms_of column.now) }
    ensures gathered { IfOk result (λ countings.
        AreGathered (terms_at column.now span.0 span.1) (positions docs.now) countings) }
    ensures there { IfOk result (λ countings. All (λ c. c.at < length column.now) countings) }
    ensures numbers { IfOk result (λ countings.
        All (λ c. IsTermNumber column.now span.0 span.1 c.number) countings) }
{
    let mut countings = Countings::new(alloc);
    for at in docs.iter() {
        push_ordinals(column.ordinals_of(at), span, at, &mut countings)?;
    }
    Ok(countings)
}

/// Combines the statistics of the documents in the set into each text that begins with the prefix, one run of documents
/// with a text after another. The span has the ordinals of these texts.
pub(crate) fn collect_texts_in_runs(
    alloc: Global,
    segment: &Segment,
    docs: &DocSet,
    terms: &Terms,
    column: &TextColumn,
    span: (u32, u32),
    stats: &[Stat],
    into: &mut Tally,
) -> Result<(), WantMemory>
    requires fields { HaveFields segment.now.texts (map stat_view stats.now) }
    requires limits { IsWithinLimits (segment.now.blocks ∷ []) }
    requires length { length docs.now ≡ document_total segment.now.blocks }
    requires column { map (map text) column.now
        ≡ column_of terms.now.field.0 (documents_in segment.now.blocks) }
    requires span { IsPrefixSpan (terms_view terms.now).prefix column.now span.0 span.1 }
    requires stats { into.old.stats ≡ map stat_view stats.now }
    requires add_up { BucketsAddUp (definition.terms (terms_view terms.now)) into.old.stats
        (places_on 0 segment.now.blocks docs.now) into.old.entries }
    ensures { OnOk result (CollectsAmong (is_value_key (terms_view terms.now))
        (definition.terms (terms_view terms.now)) into.old.stats
        (places_on 0 segment.now.blocks docs.now) into.old into.new) }
{
    let countings = term_countings(alloc, docs, column, span)?;
    let terms_in_span = TermSpan {
        column,
        from: span.0,
        to: span.1,
    };
    add_runs(alloc, segment, stats, countings, &terms_in_span, into)?;
    Ok(())
}
