// The count and the statistics of a bucket.
ghost use Rattle.std.specs.Prelude.{◌≡◌, [], map, IfOk, IsTrue, FitsSigned, ◌+ℤ◌};
ghost use Rattle.std.specs.Int.{w64};
ghost use Rattle.fc_spec.specs.requests.Statistics.{lesser, greater, shown, amount};
ghost use Rattle.fc_spec.specs.requests.Statistics.{combined_value, value_over, stats_over};
ghost use Rattle.fc_spec.specs.requests.Combining.{combined, combined_values};
ghost use Rattle.fc_spec.specs.messages.MessageShape.{values_fit};
ghost use Rattle.fc_base.specs.StatisticView.{stat_kind_view, stat_view};
ghost use Rattle.fc_partial.specs.View.{stat_value_view};
ghost use Rattle.fc_partial.specs.Numbers.{NumbersAddUp};

use fc_base::{Stat, StatKind, WantMemory};
use std::alloc::Global;

/// What a statistic is over the documents of a bucket.
/// (Guide: JSON Facet API, "Stat Facet Functions")
#[derive(Clone, Copy, Debug, PartialEq, Eq)]
pub enum StatValue {
    /// A sum, or how many values or documents there are.
    Number(i64),
    /// The least or greatest value, where there is one.
    Extreme(Option<i64>),
}

impl StatValue {
    /// That of no document.
    pub fn neutral(stat: Stat) -> StatValue
        ensures { stat_value_view result ≡ value_over (stat_view stat) [] }
    {
        match stat.of {
            StatKind::Min | StatKind::Max => StatValue::Extreme(None),
            StatKind::Sum | StatKind::CountVals | StatKind::Missing => StatValue::Number(0),
        }
    }

    // What it shows, where it is there.
    fn shown(self) -> Option<i64>
        ensures { result ≡ shown (stat_value_view self) }
    {
        match self {
            StatValue::Number(number) => Some(number),
            StatValue::Extreme(value) => value,
        }
    }

    // The number that it adds to a sum.
    fn amount(self) -> i64
        ensures { result ≡ amount (stat_value_view self) }
    {
        match self {
            StatValue::Number(number) => number,
            StatValue::Extreme(_) => 0,
        }
    }

    /// What it is over both of two parts that share no document.
    pub fn combined(self, of: StatKind, other: StatValue) -> StatValue
        requires { FitsSigned w64
            (amount (stat_value_view self) +ℤ amount (stat_value_view other)) }
        ensures { stat_value_view result
            ≡ combined_value (stat_kind_view of) (stat_value_view self) (stat_value_view other) }
    {
        match of {
            StatKind::Min => StatValue::Extreme(lesser_of(self.shown(), other.shown())),
            StatKind::Max => StatValue::Extreme(greater_of(self.shown(), other.shown())),
            StatKind::Sum | StatKind::CountVals | StatKind::Missing => {
                StatValue::Number(self.amount() + other.amount())
            }
        }
    }
}

// The lesser of two, where they are there.
pub(crate) fn lesser_of(a: Option<i64>, b: Option<i64>) -> Option<i64>
    ensures { result ≡ lesser a b }
{
    match (a, b) {
        (Some(a), Some(b)) => Some(a.min(b)),
        (Some(a), None) => Some(a),
        (None, b) => b,
    }
}

// The greater of two, where they are there.
pub(crate) fn greater_of(a: Option<i64>, b: Option<i64>) -> Option<i64>
    ensures { result ≡ greater a b }
{
    match (a, b) {
        (Some(a), Some(b)) => Some(a.max(b)),
        (Some(a), None) => Some(a),
        (None, b) => b,
    }
}

/// How many documents a bucket has, and the statistics of its facet over them.
#[derive(Debug, Drop)]
pub struct Stats {
    pub count: u64,
    /// One for each statistic nested directly in the facet, in the byte order of their names.
    pub values: Vec<StatValue>,
}

impl Stats {
    ghost use Rattle.fc_partial.specs.StatsView.{stats_view};
    ghost use Rattle.fc_partial.specs.Adding.{HasShape, AddUp, IsOfBoth};

    /// Those of no document.
    pub fn neutral(alloc: Global, stats: &[Stat]) -> Result<Stats, WantMemory>
        ensures { IfOk result (λ neutral. stats_view neutral
            ≡ stats_over (map stat_view stats.now) []) }
    {
        let mut values = Vec::with_capacity(alloc, stats.len())?;
        for stat in stats {
            values.push(StatValue::neutral(*stat))?;
        }
        Ok(Stats { count: 0, values })
    }

    /// Others that are the same.
    pub fn copy(&self, alloc: Global) -> Result<Stats, WantMemory>
        ensures { IfOk result (λ copy. stats_view copy ≡ stats_view self.now) }
    {
        Ok(Stats {
            count: self.count,
            values: Vec::from_slice(alloc, &self.values)?,
        })
    }

    /// Becomes those of both of two parts that share no document: counts and numbers are added, of
    /// least and greatest values the lesser or greater stays, where one is there.
    pub fn combine(&mut self, stats: &[Stat], other: &Stats)
        requires shaped { HasShape (map stat_view stats.now) (stats_view self.old) }
        requires other_shaped { HasShape (map stat_view stats.now) (stats_view other.now) }
        requires fits { AddUp (stats_view self.old) (stats_view other.now) }
        ensures combined { stats_view self.new
            ≡ combined (map stat_view stats.now) (stats_view self.old) (stats_view other.now) }
        ensures of_both { IsOfBoth (map stat_view stats.now)
            (stats_view self.old) (stats_view other.now) (stats_view self.new) }
    {
        self.count += other.count;
        combine_values(stats, &mut self.values, &other.values);
    }
}

// Combines each value with the other of its place.
pub(crate) fn combine_values(stats: &[Stat], values: &mut [StatValue], others: &[StatValue])
    requires shaped { IsTrue
        (values_fit (map stat_view stats.now) (map stat_value_view values.old)) }
    requires other_shaped { IsTrue
        (values_fit (map stat_view stats.now) (map stat_value_view others.now)) }
    requires fit { NumbersAddUp (map stat_value_view values.old) (map stat_value_view others.now) }
    ensures { map stat_value_view values.new
        ≡ combined_values (map stat_view stats.now)
        (map stat_value_view values.old) (map stat_value_view others.now) }
{
    for (at, stat) in stats.iter().enumerate() {
        values[at] = values[at].combined(stat.of, others[at]);
    }
}
