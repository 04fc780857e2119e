// The statistics of several parts of a bucket, combined.
ghost use Rattle.std.specs.Prelude.{◌≡◌, ℕ, ◌<◌, ◌^◌, IfOk, map};
ghost use Rattle.std.specs.List.{enumerate_from};
ghost use Rattle.fc_base.specs.StatisticView.{stat_view};
ghost use Rattle.fc_partial.specs.StatsView.{stats_view};
ghost use Rattle.fc_partial.specs.View.{stat_value_view};
ghost use Rattle.fc_coord.specs.TreeReading as trees;

use crate::values::{combined, neutral, value_of};
use fc_base::{Stat, WantMemory};
use fc_partial::{StatValue, Stats};
use std::alloc::Global;

/// The counts added up.
pub(crate) fn count_of(told: &[&Stats]) -> u64
    requires { trees.counts_of (map (λ stats. stats_view stats.now) told.now) < 2 ^ 64 }
    ensures { result ≡ trees.counts_of (map (λ stats. stats_view stats.now) told.now) }
{
    let mut count = 0;
    for stats in told {
        count += stats.count;
    }
    count
}

// A statistic by its number.
fn combined_value(told: &[&Stats], number: usize, stat: Stat) -> StatValue
    requires { trees.sizes_of number (map (λ stats. stats_view stats.now) told.now) < 2 ^ 63 }
    ensures { stat_value_view result ≡ trees.values_of number (stat_view stat) (map (λ stats. stats_view stats.now) told.now) }
{
    let mut value = neutral(stat);
    for at in (0..told.len()).rev() {
        let stats = told[at];
        value = combined(stat.of, value_of(stats, number, stat), value);
    }
    value
}

/// Each of the statistics.
pub(crate) fn values_of(
    alloc: Global,
    stats: &[Stat],
    told: &[&Stats],
) -> Result<Vec<StatValue>, WantMemory>
    requires { (number : ℕ) → trees.sizes_of number (map (λ stats. stats_view stats.now) told.now) < 2 ^ 63 }
    ensures { IfOk result (λ values. map stat_value_view values.items
        ≡ map (λ s. trees.values_of s.0 s.1 (map (λ stats. stats_view stats.now) told.now)) (enumerate_from 0 (map stat_view stats.now))) }
{
    let mut values = Vec::with_capacity(alloc, stats.len())?;
    for (number, stat) in stats.iter().enumerate() {
        values.push(combined_value(told, number, *stat))?;
    }
    Ok(values)
}
