// Statistics of many documents at once, from the integers that a mask picks.
ghost use Rattle.std.specs.Prelude.{◌≡◌, ◌≢◌, ◌≤◌, ◌<◌, ◌+ℤ◌, FitsSigned, length, map, nat_abs, sum_by, vec_len};
ghost use Rattle.std.specs.Int.{w64};
ghost use Rattle.fc_spec.specs.documents.Bits.{words_for};
ghost use Rattle.fc_spec.specs.documents.Val.{long};
ghost use Rattle.fc_spec.specs.requests.Request.{missing};
ghost use Rattle.fc_spec.specs.requests.Statistics.{amount};
ghost use Rattle.fc_spec.specs.scripts.ScriptTotals.{total_limit};
ghost use Rattle.fc_base.specs.StatisticView.{stat_kind_view};
ghost use Rattle.fc_lane.specs.Masked.{masked};
ghost use Rattle.fc_partial.specs.CombinedAt.{combined_at, value_at};
ghost use Rattle.fc_partial.specs.OneDocument.{statistic_of};
ghost use Rattle.fc_partial.specs.View.{stat_value_view};

use crate::{StatValue, Stats};
use fc_base::StatKind;
use fc_lane::{masked_count, masked_max, masked_min, masked_sum};

impl Stats {
    ghost use Rattle.fc_partial.specs.StatsView.{stats_view};

    /// Combines what stands at a place, as statistics of this kind are combined, with the statistic of
    /// documents that have the integers whose bit is 1 in the mask. The count and the other statistics
    /// stay.
    pub fn add_longs(&mut self, at: u32, of: StatKind, values: &[i64], mask: &[u64])
        requires place { at < vec_len self.old.values }
        requires kind { stat_kind_view of ≢ missing }
        requires room { words_for (length values.now) ≤ length mask.now }
        requires small { sum_by nat_abs values.now ≤ total_limit }
        requires fits { FitsSigned w64 (amount (value_at (stats_view self.old) at)
            +ℤ amount (statistic_of (stat_kind_view of) (map long (masked mask.now values.now)))) }
        ensures { stats_view self.new ≡ combined_at (stat_kind_view of) at (stats_view self.old)
            (statistic_of (stat_kind_view of) (map long (masked mask.now values.now))) }
    {
        let at = at as usize;
        let more = of_masked(of, values, mask);
        self.values[at] = self.values[at].combined(of, more);
    }
}

// The statistic of documents that have the integers whose bit is 1.
fn of_masked(of: StatKind, values: &[i64], mask: &[u64]) -> StatValue
    requires kind { stat_kind_view of ≢ missing }
    requires room { words_for (length values.now) ≤ length mask.now }
    requires small { sum_by nat_abs values.now ≤ total_limit }
    ensures { stat_value_view result
        ≡ statistic_of (stat_kind_view of) (map long (masked mask.now values.now)) }
{
    match of {
        StatKind::Sum => StatValue::Number(masked_sum(values, mask)),
        StatKind::Min => StatValue::Extreme(masked_min(values, mask)),
        StatKind::Max => StatValue::Extreme(masked_max(values, mask)),
        StatKind::CountVals => StatValue::Number(masked_count(values.len(), mask) as i64),
        StatKind::Missing => unreachable!(),
    }
}
