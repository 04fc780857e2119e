// Statistics of parts, combined.
ghost use Rattle.std.specs.Prelude.{◌≡◌, ◌+◌, ◌<◌, ◌^◌, ◌+ℤ◌, None, Some, [], map, unsigned_abs};
ghost use Rattle.fc_spec.specs.requests.Statistics as statistics;
ghost use Rattle.fc_spec.specs.laws.SumsLaw.{size_of};
ghost use Rattle.fc_base.specs.StatisticView.{stat_kind_view, stat_view};
ghost use Rattle.fc_partial.specs.StatsView.{stats_view};
ghost use Rattle.fc_partial.specs.View.{stat_value_view};
ghost use Rattle.fc_coord.specs.TreeReading.{told_value};

use fc_base::{Stat, StatKind};
use fc_partial::{StatValue, Stats};

/// The statistic of no place.
pub(crate) fn neutral(stat: Stat) -> StatValue
    ensures { stat_value_view result ≡ statistics.value_over (stat_view stat) [] }
{
    match stat.of {
        StatKind::Min | StatKind::Max => StatValue::Extreme(None),
        StatKind::Sum | StatKind::CountVals | StatKind::Missing => StatValue::Number(0),
    }
}

/// A statistic of those that a shard told, by its number.
pub(crate) fn value_of(stats: &Stats, number: usize, stat: Stat) -> StatValue
    ensures { stat_value_view result ≡ told_value number (stat_view stat) (Some (stats_view stats.now)) }
{
    match stats.values.get(number) {
        Some(value) => *value,
        None => neutral(stat),
    }
}

fn amount(value: StatValue) -> i64
    ensures { result ≡ statistics.amount (stat_value_view value) }
{
    match value {
        StatValue::Number(number) => number,
        StatValue::Extreme(_) => 0,
    }
}

fn shown(value: StatValue) -> Option<i64>
    ensures { result ≡ statistics.shown (stat_value_view value) }
{
    match value {
        StatValue::Number(number) => Some(number),
        StatValue::Extreme(number) => number,
    }
}

fn lesser(a: Option<i64>, b: Option<i64>) -> Option<i64>
    ensures { result ≡ statistics.lesser a b }
{
    match (a, b) {
        (Some(a), Some(b)) => Some(a.min(b)),
        (Some(a), None) => Some(a),
        (None, b) => b,
    }
}

fn greater(a: Option<i64>, b: Option<i64>) -> Option<i64>
    ensures { result ≡ statistics.greater a b }
{
    match (a, b) {
        (Some(a), Some(b)) => Some(a.max(b)),
        (Some(a), None) => Some(a),
        (None, b) => b,
    }
}

fn sum(a: i64, b: i64) -> i64
    requires { unsigned_abs a + unsigned_abs b < 2 ^ 63 }
    ensures { result ≡ a +ℤ b }
{
    a + b
}

/// The statistic of two disjoint parts together.
pub(crate) fn combined(of: StatKind, a: StatValue, b: StatValue) -> StatValue
    requires { size_of (stat_value_view a) + size_of (stat_value_view b) < 2 ^ 63 }
    ensures { stat_value_view result
        ≡ statistics.combined_value (stat_kind_view of) (stat_value_view a) (stat_value_view b) }
{
    match of {
        StatKind::Min => StatValue::Extreme(lesser(shown(a), shown(b))),
        StatKind::Max => StatValue::Extreme(greater(shown(a), shown(b))),
        StatKind::Sum | StatKind::CountVals | StatKind::Missing => {
            StatValue::Number(sum(amount(a), amount(b)))
        }
    }
}
