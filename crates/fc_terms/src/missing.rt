// Counting the documents without a value.
ghost use Rattle.std.specs.Prelude.{◌≡◌, [], ◌∷◌, length, map, OnOk};
ghost use Rattle.fc_spec.specs.documents.Sets.{places_on};
ghost use Rattle.fc_spec.specs.documents.Totals.{document_total};
ghost use Rattle.fc_spec.specs.requests.Request as definition;
ghost use Rattle.fc_spec.specs.scripts.WorldLimits.{IsWithinLimits};
ghost use Rattle.fc_base.specs.StatisticView.{stat_view};
ghost use Rattle.fc_domain.specs.FieldsFit.{HasField};
ghost use Rattle.fc_facet.specs.KindView.{terms_view};
ghost use Rattle.fc_kind.specs.Collecting.{CollectsAmong};
ghost use Rattle.fc_kind.specs.Columns.{HaveFields};
ghost use Rattle.fc_terms.specs.AddingUp.{AddUpAmong};
ghost use Rattle.fc_terms.specs.Values.{is_missing_key};

use crate::selecting::select_missing;
use fc_base::{Stat, WantMemory};
use fc_docset::DocSet;
use fc_facet::Terms;
use fc_kind::add_documents;
use fc_partial::{Key, Tally};
use fc_segment::Segment;
use std::alloc::Global;

/// Combines the statistics of the documents in the set without a value into their bucket, where it is asked for.
pub(crate) fn collect_missing(
    alloc: Global,
    segment: &Segment,
    docs: &DocSet,
    terms: &Terms,
    stats: &[Stat],
    into: &mut Tally,
) -> Result<(), WantMemory>
    requires field { HasField segment.now.texts (terms_view terms.now).field }
    requires fields { HaveFields segment.now.texts (map stat_view stats.now) }
    requires limits { IsWithinLimits (segment.now.blocks ∷ []) }
    requires length { length docs.now ≡ document_total segment.now.blocks }
    requires stats { into.old.stats ≡ map stat_view stats.now }
    requires add_up { AddUpAmong (is_missing_key (terms_view terms.now))
        (definition.terms (terms_view terms.now)) into.old.stats
        (places_on 0 segment.now.blocks docs.now) into.old.entries }
    ensures { OnOk result (CollectsAmong (is_missing_key (terms_view terms.now))
        (definition.terms (terms_view terms.now)) into.old.stats
        (places_on 0 segment.now.blocks docs.now) into.old into.new) }
{
    if !terms.missing {
        return Ok(());
    }
    let mut without = DocSet::empty(alloc, docs.len())?;
    select_missing(alloc, segment.column(terms.field), docs, &mut without)?;
    add_documents(alloc, segment, stats, &without, Key::Missing, into)
}
