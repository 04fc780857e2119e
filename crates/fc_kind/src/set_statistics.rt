// The statistics of a set of documents of a segment.
ghost use Rattle.std.specs.Prelude.{◌≡◌, ◌≢◌, ◌<◌, ◌≤◌, [], ◌∷◌, count_by, length, map, nat_abs, slice_set, sum_by, vec_len, IfOk, IfSome, IsSome, OnOk};
ghost use Rattle.std.specs.List.{items_where_true};
ghost use Rattle.fc_spec.specs.documents.Columns.{column_of};
ghost use Rattle.fc_spec.specs.documents.Sets.{places_on};
ghost use Rattle.fc_spec.specs.documents.Totals.{document_total, documents_in};
ghost use Rattle.fc_spec.specs.documents.Val.{long};
ghost use Rattle.fc_spec.specs.requests.Request.{missing};
ghost use Rattle.fc_spec.specs.requests.Statistics.{stats_over, value_over};
ghost use Rattle.fc_spec.specs.scripts.ScriptTotals.{total_limit};
ghost use Rattle.fc_spec.specs.scripts.WorldLimits.{IsWithinLimits};
ghost use Rattle.fc_base.specs.StatisticView.{stat_kind_view, stat_view};
ghost use Rattle.fc_docset.specs.Positions.{positions};
ghost use Rattle.fc_lists.specs.Flat.{flat};
ghost use Rattle.fc_kind.specs.Columns.{HaveFields};
ghost use Rattle.fc_partial.specs.CombinedAt.{value_at};
ghost use Rattle.fc_partial.specs.OneDocument.{statistic_of};
ghost use Rattle.fc_partial.specs.StatsView.{stats_view};

use crate::statistics::{stats_at, value_at_all};
use fc_base::{Stat, StatKind, WantMemory};
use fc_column::LongColumn;
use fc_docset::DocSet;
use fc_partial::Stats;
use fc_segment::{Column, Segment};
use std::alloc::Global;

/// The number of documents in the set, with these statistics of them.
pub fn set_stats(
    alloc: Global,
    segment: &Segment,
    stats: &[Stat],
    docs: &DocSet,
) -> Result<Stats, WantMemory>
    requires fields { HaveFields segment.now.texts (map stat_view stats.now) }
    requires limits { IsWithinLimits (segment.now.blocks ∷ []) }
    requires length { length docs.now ≡ document_total segment.now.blocks }
    ensures { IfOk result (λ over. stats_view over ≡ stats_over (map stat_view stats.now)
        (places_on 0 segment.now.blocks docs.now)) }
{
    let count = docs.count();
    if stats.is_empty() {
        return Ok(Stats {
            count: u64::from(count),
            values: Vec::new(alloc),
        });
    }
    if count < docs.len() / 64 {
        let positions = listed(alloc, docs, count)?;
        return stats_at(alloc, segment, stats, &positions);
    }
    stats_of_many(alloc, segment, stats, docs, count)
}

// The same of a set with at least as many documents as words, of which the number is known.
fn stats_of_many(
    alloc: Global,
    segment: &Segment,
    stats: &[Stat],
    docs: &DocSet,
    count: u32,
) -> Result<Stats, WantMemory>
    requires fields { HaveFields segment.now.texts (map stat_view stats.now) }
    requires limits { IsWithinLimits (segment.now.blocks ∷ []) }
    requires length { length docs.now ≡ document_total segment.now.blocks }
    requires count { count ≡ count_by (λ here. here) docs.now }
    ensures { IfOk result (λ over. stats_view over ≡ stats_over (map stat_view stats.now)
        (places_on 0 segment.now.blocks docs.now)) }
{
    let mut over = Stats::neutral(alloc, stats)?;
    over.count = u64::from(count);
    for (at, stat) in stats.iter().enumerate() {
        let place = u32::try_from(at).map_err(|_| WantMemory)?;
        put_statistic(alloc, segment, *stat, docs, count, place, &mut over)?;
    }
    Ok(over)
}

// Puts a statistic of the documents in the set to its place, where that of no document stands.
fn put_statistic(
    alloc: Global,
    segment: &Segment,
    stat: Stat,
    docs: &DocSet,
    count: u32,
    at: u32,
    over: &mut Stats,
) -> Result<(), WantMemory>
    requires field { stat.field.0 < length segment.now.texts }
    requires limits { IsWithinLimits (segment.now.blocks ∷ []) }
    requires length { length docs.now ≡ document_total segment.now.blocks }
    requires count { count ≡ count_by (λ here. here) docs.now }
    requires place { at < vec_len over.old.values }
    requires neutral { value_at (stats_view over.old) at ≡ value_over (stat_view stat) [] }
    ensures { OnOk result (stats_view over.new ≡ record (stats_view over.old) {
      values = slice_set (stats_view over.old).values at
          (value_over (stat_view stat) (places_on 0 segment.now.blocks docs.now));
    }) }
{
    match dense_column(segment, stat, count) {
        Some(column) => add_by_mask(alloc, column, docs, stat.of, at, over),
        None => {
            let positions = listed(alloc, docs, count)?;
            over.values[at as usize] = value_at_all(segment, stat, &positions);
            Ok(())
        }
    }
}

// The column of the integers that a statistic reads, where a mask over all of them has no more words than there are documents in the
// set.
fn dense_column(segment: &Segment, stat: Stat, count: u32) -> Option<&LongColumn>
    requires { stat.field.0 < length segment.now.texts }
    ensures values { IfSome result (λ column. map (map long) column.now
        ≡ column_of stat.field.0 (documents_in segment.now.blocks)) }
    ensures kind { IsSome result → stat_kind_view stat.of ≢ missing }
{
    if stat.of == StatKind::Missing {
        return None;
    }
    match segment.column(stat.field) {
        Column::Long(column) if column.flat().len() / 64 <= count as usize => Some(column),
        _ => None,
    }
}

// Combines the statistic at a place with that of the integers of the documents in the set.
fn add_by_mask(
    alloc: Global,
    column: &LongColumn,
    docs: &DocSet,
    of: StatKind,
    at: u32,
    over: &mut Stats,
) -> Result<(), WantMemory>
    requires length { length docs.now ≡ length column.now }
    requires kind { stat_kind_view of ≢ missing }
    requires small { sum_by nat_abs (flat column.now) ≤ total_limit }
    requires place { at < vec_len over.old.values }
    requires neutral { value_at (stats_view over.old) at ≡ statistic_of (stat_kind_view of) [] }
    ensures { OnOk result (stats_view over.new ≡ record (stats_view over.old) {
      values = slice_set (stats_view over.old).values at (statistic_of (stat_kind_view of)
          (map long (flat (items_where_true docs.now column.now))));
    }) }
{
    if let Some(values) = column.singles() {
        over.add_longs(at, of, values, docs.words());
        return Ok(());
    }
    let values = column.flat();
    let mut mask = vec![in alloc; 0; values.len().div_ceil(64)]?;
    column.spread(docs.words(), &mut mask);
    over.add_longs(at, of, values, &mask);
    Ok(())
}

// The positions in a set, of which the number is known.
fn listed(alloc: Global, docs: &DocSet, count: u32) -> Result<Vec<u32>, WantMemory>
    requires { count ≡ count_by (λ here. here) docs.now }
    ensures { IfOk result (λ list. list.items ≡ positions docs.now) }
{
    let mut list = Vec::with_capacity(alloc, count as usize)?;
    for at in docs.iter() {
        list.push(at)?;
    }
    Ok(list)
}
