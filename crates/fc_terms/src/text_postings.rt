// Terms facets over a field of texts, of whose documents many are in the set.
ghost use Rattle.std.specs.Prelude.{◌≡◌, [], ◌∷◌, length, map, OnOk};
ghost use Rattle.fc_spec.specs.documents.Columns.{column_of};
ghost use Rattle.fc_spec.specs.documents.Sets.{places_on};
ghost use Rattle.fc_spec.specs.documents.Totals.{document_total, documents_in};
ghost use Rattle.fc_spec.specs.documents.Val.{text};
ghost use Rattle.fc_spec.specs.requests.Request as definition;
ghost use Rattle.fc_spec.specs.scripts.WorldLimits.{IsWithinLimits};
ghost use Rattle.fc_base.specs.StatisticView.{stat_view};
ghost use Rattle.fc_facet.specs.KindView.{terms_view};
ghost use Rattle.fc_kind.specs.Collecting.{BucketsAddUp, CollectsAmong};
ghost use Rattle.fc_kind.specs.Columns.{HaveFields};
ghost use Rattle.fc_terms.specs.Spans.{IsPrefixSpan};
ghost use Rattle.fc_terms.specs.Values.{is_value_key};

use crate::numbers::TermSpan;
use fc_base::{Stat, WantMemory};
use fc_column::TextColumn;
use fc_count::add_postings;
use fc_docset::DocSet;
use fc_facet::Terms;
use fc_partial::Tally;
use fc_segment::Segment;
use std::alloc::Global;

/// Combines the statistics of the documents in the set into each text that begins with the prefix, one text with all
/// its documents after another. The span has the ordinals of these texts.
pub(crate) fn collect_texts_by_postings(
    alloc: Global,
    segment: &Segment,
    docs: &DocSet,
    terms: &Terms,
    column: &TextColumn,
    span: (u32, u32),
    stats: &[Stat],
    into: &mut Tally,
) -> Result<(), WantMemory>
    requires fields { HaveFields segment.now.texts (map stat_view stats.now) }
    requires limits { IsWithinLimits (segment.now.blocks ∷ []) }
    requires length { length docs.now ≡ document_total segment.now.blocks }
    requires column { map (map text) column.now
        ≡ column_of terms.now.field.0 (documents_in segment.now.blocks) }
    requires span { IsPrefixSpan (terms_view terms.now).prefix column.now span.0 span.1 }
    requires stats { into.old.stats ≡ map stat_view stats.now }
    requires add_up { BucketsAddUp (definition.terms (terms_view terms.now)) into.old.stats
        (places_on 0 segment.now.blocks docs.now) into.old.entries }
    ensures { OnOk result (CollectsAmong (is_value_key (terms_view terms.now))
        (definition.terms (terms_view terms.now)) into.old.stats
        (places_on 0 segment.now.blocks docs.now) into.old into.new) }
{
    let numbers = TermSpan {
        column,
        from: span.0,
        to: span.1,
    };
    let bound = (span.1 - span.0) as usize;
    add_postings(alloc, segment, docs, stats, bound, &numbers, into)?;
    Ok(())
}
