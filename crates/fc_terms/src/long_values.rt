// Terms facets over a field of integers.
ghost use Rattle.std.specs.Prelude.{◌≡◌, ◌≤ℤ◌, ◌<ℤ◌, ◌-ℤ◌, pos, None, [], ◌∷◌, length, map, OnOk};
ghost use Rattle.std.specs.Bool.{OnTrue};
ghost use Rattle.fc_spec.specs.documents.Columns.{column_of};
ghost use Rattle.fc_spec.specs.documents.Sets.{places_on};
ghost use Rattle.fc_spec.specs.documents.Totals.{document_total, documents_in};
ghost use Rattle.fc_spec.specs.documents.Val.{long};
ghost use Rattle.fc_spec.specs.requests.Request as definition;
ghost use Rattle.fc_spec.specs.scripts.WorldLimits.{IsWithinLimits};
ghost use Rattle.fc_base.specs.StatisticView.{stat_view};
ghost use Rattle.fc_facet.specs.KindView.{terms_view};
ghost use Rattle.fc_kind.specs.Collecting.{BucketsAddUp, CollectsAmong};
ghost use Rattle.fc_kind.specs.Columns.{HaveFields};
ghost use Rattle.fc_terms.specs.Values.{is_value_key};

use crate::density::is_dense;
use crate::long_runs::collect_longs_in_runs;
use crate::longs::collect_longs_densely;
use fc_base::{Stat, WantMemory};
use fc_column::LongColumn;
use fc_docset::DocSet;
use fc_facet::Terms;
use fc_partial::Tally;
use fc_segment::Segment;
use std::alloc::Global;

// Whether the integers from one end to the other are few enough to be numbered, and not many more than the documents.
fn are_close(ends: (i64, i64), docs: u32) -> bool
    requires { ends.0 ≤ℤ ends.1 }
    ensures { OnTrue result ((ends.1 -ℤ ends.0) <ℤ pos 4_294_967_295) }
{
    let apart = ends.1.abs_diff(ends.0);
    apart < u64::from(u32::MAX) && is_dense(apart, docs)
}

/// Combines the statistics of the documents in the set into each integer: side by side where the integers are not many
/// more than the documents, else in runs.
pub(crate) fn collect_longs(
    alloc: Global,
    segment: &Segment,
    docs: &DocSet,
    terms: &Terms,
    column: &LongColumn,
    stats: &[Stat],
    into: &mut Tally,
) -> Result<(), WantMemory>
    requires fields { HaveFields segment.now.texts (map stat_view stats.now) }
    requires limits { IsWithinLimits (segment.now.blocks ∷ []) }
    requires length { length docs.now ≡ document_total segment.now.blocks }
    requires column { map (map long) column.now
        ≡ column_of terms.now.field.0 (documents_in segment.now.blocks) }
    requires prefix { (terms_view terms.now).prefix ≡ None }
    requires stats { into.old.stats ≡ map stat_view stats.now }
    requires add_up { BucketsAddUp (definition.terms (terms_view terms.now)) into.old.stats
        (places_on 0 segment.now.blocks docs.now) into.old.entries }
    ensures { OnOk result (CollectsAmong (is_value_key (terms_view terms.now))
        (definition.terms (terms_view terms.now)) into.old.stats
        (places_on 0 segment.now.blocks docs.now) into.old into.new) }
{
    if let Some(ends) = column.ends() {
        if are_close(ends, docs.count()) {
            let stats = stats.to_vec(alloc)?;
            return collect_longs_densely(alloc, segment, docs, terms, column, ends, stats, into);
        }
    }
    collect_longs_in_runs(alloc, segment, docs, terms, column, stats, into)
}
