// Counts over all shards.
ghost use Rattle.std.specs.Prelude.{◌≡◌, ◌*◌, ◌-◌, ◌≤◌, ◌^◌, All, IfOk, map, nat_le, sum, unwrap_or};
ghost use Rattle.std.specs.List.{filter};
ghost use Rattle.fc_spec.specs.words.Lists.{numbers_below};
ghost use Rattle.fc_exact.specs.ToldFacets.{count_on as count_on_of, total_entry};
ghost use Rattle.fc_exact.specs.ToldView.{count_view, total_view, value_view};

use crate::values::{ShardCount, ToldValue};
use fc_base::{Val, WantMemory};
use std::alloc::Global;

/// A value with its count over all shards.
#[derive(Drop)]
pub(crate) struct Total<'a> {
    pub(crate) val: &'a Val,
    pub(crate) count: u128,
}

/// What a shard told first.
pub(crate) fn count_on(shard: u32, counts: &[ShardCount]) -> Option<u64>
    ensures { result ≡ count_on_of shard (map count_view counts.now) }
{
    for one in counts {
        if one.shard == shard {
            return Some(one.count);
        }
    }
    None
}

// What the shards told first, together; nothing of a shard that told nothing.
fn summed(shards: u32, counts: &[ShardCount]) -> u128
    ensures sum { result ≡ sum (map (λ i. unwrap_or (count_on_of i (map count_view counts.now)) 0) (numbers_below shards)) }
    ensures bound { result ≤ shards * (2 ^ 64 - 1) }
{
    let mut sum = 0;
    for shard in 0..shards {
        let count = count_on(shard, counts).unwrap_or(0);
        sum += u128::from(count);
    }
    sum
}

/// The total of each value.
pub(crate) fn totals<'a>(
    alloc: Global,
    shards: u32,
    values: &[ToldValue<'a>],
) -> Result<Vec<Total<'a>>, WantMemory>
    ensures totals { IfOk result (λ totals. map total_view totals.items
        ≡ map (total_entry (numbers_below shards)) (map value_view values.now)) }
    ensures bound { IfOk result (λ totals. All (λ total. total.count ≤ shards * (2 ^ 64 - 1)) totals.items) }
{
    let mut totals = Vec::with_capacity(alloc, values.len())?;
    for value in values {
        totals.push(Total {
            val: value.val,
            count: summed(shards, &value.counts),
        })?;
    }
    Ok(totals)
}

/// Those of at least this count.
pub(crate) fn totals_from<'a>(
    alloc: Global,
    least: u32,
    totals: Vec<Total<'a>>,
) -> Result<Vec<Total<'a>>, WantMemory>
    ensures { IfOk result (λ kept. map total_view kept.items ≡ filter (λ e. nat_le least e.stats.count) (map total_view totals.entry.items)) }
{
    let mut kept = Vec::new(alloc);
    for one in totals {
        if one.count < u128::from(least) {
            continue;
        }
        kept.push(one)?;
    }
    Ok(kept)
}
