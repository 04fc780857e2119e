// Terms facets over a field of integers that lie close together.
ghost use Rattle.std.specs.Prelude.{◌≡◌, [], ◌∷◌, length, map, pos, ◌-ℤ◌, ◌≤ℤ◌, ◌<ℤ◌, true, None, All, OnOk};
ghost use Rattle.fc_spec.specs.documents.Columns.{column_of};
ghost use Rattle.fc_spec.specs.documents.Sets.{places_on};
ghost use Rattle.fc_spec.specs.documents.Totals.{document_total, documents_in};
ghost use Rattle.fc_spec.specs.documents.Val.{long};
ghost use Rattle.fc_spec.specs.requests.Request as definition;
ghost use Rattle.fc_spec.specs.scripts.WorldLimits.{IsWithinLimits};
ghost use Rattle.fc_base.specs.StatisticView.{stat_view};
ghost use Rattle.fc_lane.specs.Between.{is_between};
ghost use Rattle.fc_facet.specs.KindView.{terms_view};
ghost use Rattle.fc_kind.specs.Collecting.{BucketsAddUp, CollectsAmong};
ghost use Rattle.fc_kind.specs.Columns.{HaveFields};
ghost use Rattle.fc_terms.specs.Values.{is_value_key};

use crate::numbers::LongSpan;
use fc_base::{Stat, WantMemory};
use fc_column::LongColumn;
use fc_count::{add_cells, counted_cells};
use fc_docset::DocSet;
use fc_facet::Terms;
use fc_partial::Tally;
use fc_segment::Segment;
use std::alloc::Global;

/// Combines the statistics of the documents in the set into each integer, counting all integers between the two ends
/// side by side.
pub(crate) fn collect_longs_densely(
    alloc: Global,
    segment: &Segment,
    docs: &DocSet,
    terms: &Terms,
    column: &LongColumn,
    ends: (i64, i64),
    stats: Vec<Stat>,
    into: &mut Tally,
) -> Result<(), WantMemory>
    requires fields { HaveFields segment.now.texts (map stat_view stats.items) }
    requires limits { IsWithinLimits (segment.now.blocks ∷ []) }
    requires length { length docs.now ≡ document_total segment.now.blocks }
    requires column { map (map long) column.now
        ≡ column_of terms.now.field.0 (documents_in segment.now.blocks) }
    requires prefix { (terms_view terms.now).prefix ≡ None }
    requires order { ends.0 ≤ℤ ends.1 }
    requires between { All (All (λ value. is_between ends.0 ends.1 value ≡ true)) column.now }
    requires close { (ends.1 -ℤ ends.0) <ℤ pos 4_294_967_295 }
    requires stats { into.old.stats ≡ map stat_view stats.items }
    requires add_up { BucketsAddUp (definition.terms (terms_view terms.now)) into.old.stats
        (places_on 0 segment.now.blocks docs.now) into.old.entries }
    ensures { OnOk result (CollectsAmong (is_value_key (terms_view terms.now))
        (definition.terms (terms_view terms.now)) into.old.stats
        (places_on 0 segment.now.blocks docs.now) into.old into.new) }
{
    let bound = ends.1.abs_diff(ends.0) as usize + 1;
    let numbers = LongSpan {
        column,
        least: ends.0,
        bound,
    };
    let cells = counted_cells(alloc, segment, docs, stats, bound, &numbers)?;
    add_cells(alloc, &cells, bound, &numbers, into)?;
    Ok(())
}
