// The statistics of documents of a segment.
ghost use Rattle.std.specs.Prelude.{◌≡◌, ◌<◌, [], ◌∷◌, length, map, All, IfOk, IfSome, OnOk};
ghost use Rattle.fc_spec.specs.documents.Columns.{column_of};
ghost use Rattle.fc_spec.specs.documents.Totals.{document_total, documents_in};
ghost use Rattle.fc_spec.specs.documents.Val.{long};
ghost use Rattle.fc_spec.specs.requests.Statistics.{stats_over, value_over};
ghost use Rattle.fc_spec.specs.scripts.WorldLimits.{IsWithinLimits};
ghost use Rattle.fc_base.specs.StatisticView.{stat_view};
ghost use Rattle.fc_partial.specs.Fitting.{StatisticsFit};
ghost use Rattle.fc_partial.specs.StatsView.{stats_view};
ghost use Rattle.fc_partial.specs.View.{stat_value_view};
ghost use Rattle.fc_kind.specs.Columns.{HaveFields};
ghost use Rattle.fc_kind.specs.PlaceAt.{place_at};

use fc_base::{FieldId, Stat, WantMemory};
use fc_partial::{StatValue, Stats};
use fc_segment::{Column, Segment};
use std::alloc::Global;

/// A statistic of the document at a position.
pub fn document_value(segment: &Segment, stat: Stat, at: u32) -> StatValue
    requires field { stat.field.0 < length segment.now.texts }
    requires limits { IsWithinLimits (segment.now.blocks ∷ []) }
    requires there { at < document_total segment.now.blocks }
    ensures { stat_value_view result
        ≡ value_over (stat_view stat) (place_at segment.now.blocks at ∷ []) }
{
    match segment.column(stat.field) {
        Column::Text(column) => StatValue::of_texts(stat.of, column.ordinals_of(at).len()),
        Column::Long(column) => StatValue::of_longs(stat.of, column.values_of(at)),
    }
}

/// Makes the values the statistics of the document at a position.
pub fn document_values(
    segment: &Segment,
    stats: &[Stat],
    at: u32,
    values: &mut Vec<StatValue>,
) -> Result<(), WantMemory>
    requires fields { HaveFields segment.now.texts (map stat_view stats.now) }
    requires limits { IsWithinLimits (segment.now.blocks ∷ []) }
    requires there { at < document_total segment.now.blocks }
    ensures { OnOk result (map stat_value_view values.new.items
        ≡ (stats_over (map stat_view stats.now) (place_at segment.now.blocks at ∷ [])).values) }
{
    values.clear();
    for stat in stats {
        values.push(document_value(segment, *stat, at))?;
    }
    Ok(())
}

/// A statistic of the documents at these positions.
pub fn value_at_all(segment: &Segment, stat: Stat, positions: &[u32]) -> StatValue
    requires field { stat.field.0 < length segment.now.texts }
    requires limits { IsWithinLimits (segment.now.blocks ∷ []) }
    requires there { All (λ at. at < document_total segment.now.blocks) positions.now }
    requires fit { StatisticsFit (map (place_at segment.now.blocks) positions.now) }
    ensures { stat_value_view result
        ≡ value_over (stat_view stat) (map (place_at segment.now.blocks) positions.now) }
{
    match singles_of(segment, stat.field) {
        Some(values) => StatValue::of_singles(stat.of, values, positions),
        None => value_by_documents(segment, stat, positions),
    }
}

// The integer of each document, where it is known that each has exactly one in the field.
fn singles_of(segment: &Segment, field: FieldId) -> Option<&[i64]>
    requires { field.0 < length segment.now.texts }
    ensures { IfSome result (λ values. column_of field.0 (documents_in segment.now.blocks)
        ≡ map (λ value. long value ∷ []) values.now) }
{
    match segment.column(field) {
        Column::Long(column) => column.singles(),
        Column::Text(_) => None,
    }
}

// A statistic of the documents at these positions, one document after another.
fn value_by_documents(segment: &Segment, stat: Stat, positions: &[u32]) -> StatValue
    requires field { stat.field.0 < length segment.now.texts }
    requires limits { IsWithinLimits (segment.now.blocks ∷ []) }
    requires there { All (λ at. at < document_total segment.now.blocks) positions.now }
    requires fit { StatisticsFit (map (place_at segment.now.blocks) positions.now) }
    ensures { stat_value_view result
        ≡ value_over (stat_view stat) (map (place_at segment.now.blocks) positions.now) }
{
    let mut value = StatValue::neutral(stat);
    for at in positions {
        value = value.combined(stat.of, document_value(segment, stat, *at));
    }
    value
}

/// The number of these positions, with these statistics of their documents. One statistic is read after another.
pub fn stats_at(
    alloc: Global,
    segment: &Segment,
    stats: &[Stat],
    positions: &[u32],
) -> Result<Stats, WantMemory>
    requires fields { HaveFields segment.now.texts (map stat_view stats.now) }
    requires limits { IsWithinLimits (segment.now.blocks ∷ []) }
    requires there { All (λ at. at < document_total segment.now.blocks) positions.now }
    requires fit { StatisticsFit (map (place_at segment.now.blocks) positions.now) }
    ensures { IfOk result (λ over. stats_view over ≡ stats_over (map stat_view stats.now)
        (map (place_at segment.now.blocks) positions.now)) }
{
    let mut values = Vec::with_capacity(alloc, stats.len())?;
    for stat in stats {
        values.push(value_at_all(segment, *stat, positions))?;
    }
    Ok(Stats {
        count: positions.len() as u64,
        values,
    })
}
