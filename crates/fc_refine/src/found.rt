// Values that shards list, with their statistics together.
ghost use Rattle.std.specs.Prelude.{◌≡◌, All, IfOk, map};
ghost use Rattle.fc_base.specs.StatisticView.{stat_view};
ghost use Rattle.fc_partial.specs.StatsView.{stats_view};
ghost use Rattle.fc_refine.specs.CandidateView.{found_entry, found_group, IsCombined};
ghost use Rattle.fc_refine.specs.Grouped.{map_view};
ghost use Rattle.fc_refine.specs.Listings.{all_of, CanCombine, listed_view};

use crate::Ranked;
use crate::listing::Listed;
use fc_base::{Stat, Val, WantMemory};
use fc_partial::Stats;
use std::alloc::Global;
use std::collections::BTreeMap;

/// A value with what lists it, and the statistics of its buckets there together.
#[derive(Drop)]
pub(crate) struct Found<'a> {
    pub(crate) val: &'a Val,
    pub(crate) listed: Vec<Listed<'a>>,
    pub(crate) stats: Stats,
}

impl Ranked for Found<'_> {
    ghost entry = { found_entry };

    fn val(&self) -> &Val {
        self.val
    }

    fn stats(&self) -> &Stats {
        &self.stats
    }
}

// The statistics of all together.
fn combined(alloc: Global, stats: &[Stat], listed: &[Listed]) -> Result<Stats, WantMemory>
    requires { CanCombine (map stat_view stats.now) (map listed_view listed.now) }
    ensures { IfOk result (λ all. stats_view all ≡ all_of (map stat_view stats.now) (map listed_view listed.now)) }
{
    let mut all = Stats::neutral(alloc, stats)?;
    for one in listed {
        all.combine(stats, one.stats);
    }
    Ok(all)
}

/// Each value in index order.
pub(crate) fn found_values<'a>(
    alloc: Global,
    stats: &[Stat],
    by_value: BTreeMap<&'a Val, Vec<Listed<'a>>>,
) -> Result<Vec<Found<'a>>, WantMemory>
    requires { All (λ group. CanCombine (map stat_view stats.now) group.1) (map_view listed_view by_value) }
    ensures groups { IfOk result (λ found. map found_group found.items ≡ map_view listed_view by_value.entry) }
    ensures combined { IfOk result (λ found. All (IsCombined (map stat_view stats.now)) found.items) }
{
    let mut found = Vec::with_capacity(alloc, by_value.len())?;
    for (val, listed) in by_value {
        let together = combined(alloc, stats, &listed)?;
        found.push(Found {
            val,
            listed,
            stats: together,
        })?;
    }
    Ok(found)
}
