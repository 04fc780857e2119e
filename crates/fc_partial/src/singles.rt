// The statistics of documents, each of which has exactly one integer in the field.
ghost use Rattle.std.specs.Prelude.{◌≡◌, ◌<◌, ◌≤◌, ◌^◌, length, nat_abs, sum_by, All};
ghost use Rattle.fc_spec.specs.requests.Statistics.{greatest_of, least_of, total_of};
ghost use Rattle.fc_spec.specs.scripts.ScriptTotals.{total_limit};
ghost use Rattle.fc_base.specs.StatisticView.{stat_kind_view};
ghost use Rattle.fc_partial.specs.Singles.{integers_at, statistic_of_singles};
ghost use Rattle.fc_partial.specs.View.{stat_value_view};

use crate::StatValue;
use fc_base::StatKind;

impl StatValue {
    /// The statistic of the documents at these positions, where the document at each position has exactly one integer in the field:
    /// that at the place in the list.
    pub fn of_singles(of: StatKind, values: &[i64], positions: &[u32]) -> StatValue
        requires there { All (λ at. at < length values.now) positions.now }
        requires few { length positions.now < 2 ^ 63 }
        requires small { sum_by nat_abs (integers_at values.now positions.now) ≤ total_limit }
        ensures { stat_value_view result
            ≡ statistic_of_singles (stat_kind_view of) (integers_at values.now positions.now) }
    {
        match of {
            StatKind::Sum => StatValue::Number(sum_at(values, positions)),
            StatKind::Min => StatValue::Extreme(least_at(values, positions)),
            StatKind::Max => StatValue::Extreme(greatest_at(values, positions)),
            StatKind::CountVals => StatValue::Number(positions.len() as i64),
            StatKind::Missing => StatValue::Number(0),
        }
    }
}

// All added up.
fn sum_at(values: &[i64], positions: &[u32]) -> i64
    requires there { All (λ at. at < length values.now) positions.now }
    requires small { sum_by nat_abs (integers_at values.now positions.now) ≤ total_limit }
    ensures { result ≡ total_of (integers_at values.now positions.now) }
{
    let mut sum = 0;
    for at in positions {
        sum += values[*at as usize];
    }
    sum
}

// The least, where there is one.
fn least_at(values: &[i64], positions: &[u32]) -> Option<i64>
    requires { All (λ at. at < length values.now) positions.now }
    ensures { result ≡ least_of (integers_at values.now positions.now) }
{
    let (first, others) = positions.split_first()?;
    let mut least = values[*first as usize];
    for at in others {
        least = least.min(values[*at as usize]);
    }
    Some(least)
}

// The greatest, where there is one.
fn greatest_at(values: &[i64], positions: &[u32]) -> Option<i64>
    requires { All (λ at. at < length values.now) positions.now }
    ensures { result ≡ greatest_of (integers_at values.now positions.now) }
{
    let (first, others) = positions.split_first()?;
    let mut greatest = values[*first as usize];
    for at in others {
        greatest = greatest.max(values[*at as usize]);
    }
    Some(greatest)
}
