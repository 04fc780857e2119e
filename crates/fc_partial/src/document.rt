// The statistics of one document, from its values in a field.
ghost use Rattle.std.specs.Prelude.{◌≡◌, ◌≤◌, ◌<◌, ◌^◌, List, length, map, nat_abs, sum_by};
ghost use Rattle.fc_spec.specs.documents.Val.{Text, long, text};
ghost use Rattle.fc_spec.specs.requests.Statistics.{greatest_of, least_of, total_of};
ghost use Rattle.fc_spec.specs.scripts.ScriptTotals.{total_limit};
ghost use Rattle.fc_base.specs.StatisticView.{stat_kind_view};
ghost use Rattle.fc_partial.specs.OneDocument.{statistic_of};
ghost use Rattle.fc_partial.specs.View.{stat_value_view};

use crate::StatValue;
use crate::statistics::{greater_of, lesser_of};
use fc_base::StatKind;

impl StatValue {
    /// The statistic of one document that has these integers in the field.
    pub fn of_longs(of: StatKind, values: &[i64]) -> StatValue
        requires few { length values.now < 2 ^ 63 }
        requires small { sum_by nat_abs values.now ≤ total_limit }
        ensures { stat_value_view result
            ≡ statistic_of (stat_kind_view of) (map long values.now) }
    {
        match of {
            StatKind::Sum => StatValue::Number(sum_of(values)),
            StatKind::Min => StatValue::Extreme(least_of(values)),
            StatKind::Max => StatValue::Extreme(greatest_of(values)),
            StatKind::CountVals => StatValue::Number(values.len() as i64),
            StatKind::Missing => StatValue::Number(i64::from(values.is_empty())),
        }
    }

    /// The statistic of one document that has so many texts in the field.
    pub fn of_texts(of: StatKind, count: usize) -> StatValue
        requires { count < 2 ^ 63 }
        ensures { (texts : List Text) → length texts ≡ count
            → stat_value_view result ≡ statistic_of (stat_kind_view of) (map text texts) }
    {
        match of {
            StatKind::Sum => StatValue::Number(0),
            StatKind::Min | StatKind::Max => StatValue::Extreme(None),
            StatKind::CountVals => StatValue::Number(count as i64),
            StatKind::Missing => StatValue::Number(i64::from(count == 0)),
        }
    }
}

// All added up.
fn sum_of(values: &[i64]) -> i64
    requires { sum_by nat_abs values.now ≤ total_limit }
    ensures { result ≡ total_of values.now }
{
    let mut sum = 0;
    for value in values {
        sum += *value;
    }
    sum
}

// The least, where there is one.
fn least_of(values: &[i64]) -> Option<i64>
    ensures { result ≡ least_of values.now }
{
    let mut least = None;
    for value in values {
        least = lesser_of(least, Some(*value));
    }
    least
}

// The greatest, where there is one.
fn greatest_of(values: &[i64]) -> Option<i64>
    ensures { result ≡ greatest_of values.now }
{
    let mut greatest = None;
    for value in values {
        greatest = greater_of(greatest, Some(*value));
    }
    greatest
}
