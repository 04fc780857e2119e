// Terms facets over a field of integers, of which few documents are in the set.
ghost use Rattle.std.specs.Prelude.{◌≡◌, ◌<◌, ◌++◌, None, [], ◌∷◌, length, map, All, IfOk, OnOk};
ghost use Rattle.fc_spec.specs.documents.Columns.{column_of};
ghost use Rattle.fc_spec.specs.documents.Sets.{places_on};
ghost use Rattle.fc_spec.specs.documents.Totals.{document_total, documents_in};
ghost use Rattle.fc_spec.specs.documents.Val.{long};
ghost use Rattle.fc_spec.specs.requests.Request as definition;
ghost use Rattle.fc_spec.specs.scripts.WorldLimits.{IsWithinLimits};
ghost use Rattle.fc_base.specs.StatisticView.{stat_view};
ghost use Rattle.fc_docset.specs.Positions.{positions};
ghost use Rattle.fc_facet.specs.KindView.{terms_view};
ghost use Rattle.fc_kind.specs.Collecting.{BucketsAddUp, CollectsAmong};
ghost use Rattle.fc_kind.specs.Columns.{HaveFields};
ghost use Rattle.fc_terms.specs.Gathered.{AreGathered, countings_at, longs_at};
ghost use Rattle.fc_terms.specs.Values.{is_value_key};

use crate::long_keys::LongKeys;
use fc_base::{Stat, WantMemory};
use fc_column::LongColumn;
use fc_count::{Countings, add_runs};
use fc_docset::DocSet;
use fc_facet::Terms;
use fc_partial::Tally;
use fc_segment::Segment;
use std::alloc::Global;

// Puts a position behind the others, once for each of its integers.
fn push_longs(values: &[i64], at: u32, into: &mut Countings) -> Result<(), WantMemory>
    ensures { OnOk result (into.new ≡ into.old ++ countings_at at values.now) }
{
    for value in values {
        into.push(*value, at)?;
    }
    Ok(())
}

// Each position in the set, once for each of its integers, with that integer.
fn long_countings(
    alloc: Global,
    docs: &DocSet,
    column: &LongColumn,
) -> Result<Countings, WantMemory>
    requires length { length docs.now ≡ length column.now }
    ensures gathered { IfOk result (λ countings.
        AreGathered (longs_at column.now) (positions docs.now) countings) }
    ensures there { IfOk result (λ countings. All (λ c. c.at < length column.now) countings) }
{
    let mut countings = Countings::new(alloc);
    for at in docs.iter() {
        push_longs(column.values_of(at), at, &mut countings)?;
    }
    Ok(countings)
}

/// Combines the statistics of the documents in the set into each integer, one run of equal integers after another.
pub(crate) fn collect_longs_in_runs(
    alloc: Global,
    segment: &Segment,
    docs: &DocSet,
    terms: &Terms,
    column: &LongColumn,
    stats: &[Stat],
    into: &mut Tally,
) -> Result<(), WantMemory>
    requires fields { HaveFields segment.now.texts (map stat_view stats.now) }
    requires limits { IsWithinLimits (segment.now.blocks ∷ []) }
    requires length { length docs.now ≡ document_total segment.now.blocks }
    requires column { map (map long) column.now
        ≡ column_of terms.now.field.0 (documents_in segment.now.blocks) }
    requires prefix { (terms_view terms.now).prefix ≡ None }
    requires stats { into.old.stats ≡ map stat_view stats.now }
    requires add_up { BucketsAddUp (definition.terms (terms_view terms.now)) into.old.stats
        (places_on 0 segment.now.blocks docs.now) into.old.entries }
    ensures { OnOk result (CollectsAmong (is_value_key (terms_view terms.now))
        (definition.terms (terms_view terms.now)) into.old.stats
        (places_on 0 segment.now.blocks docs.now) into.old into.new) }
{
    let countings = long_countings(alloc, docs, column)?;
    add_runs(alloc, segment, stats, countings, &LongKeys, into)?;
    Ok(())
}
