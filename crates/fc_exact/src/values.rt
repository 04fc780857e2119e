// What was told of a facet, value by value.
ghost use Rattle.std.specs.Prelude.{◌≡◌, ◌∷◌, [], IfOk, OnOk, map};
ghost use Rattle.fc_base.specs.View.{val_view};
ghost use Rattle.fc_refine.specs.Grouped.{Ascend, Grows, Holds, map_view};
ghost use Rattle.fc_exact.specs.ToldFacets.{counts_of, values_in};
ghost use Rattle.fc_exact.specs.ToldView.{count_view, lent_view, value_view};

use crate::told::ToldCount;
use fc_base::{Val, WantMemory};
use std::alloc::Global;
use std::collections::BTreeMap;

/// The count that a shard told.
#[derive(Clone, Copy)]
pub(crate) struct ShardCount {
    pub(crate) shard: u32,
    pub(crate) count: u64,
}

/// A value with what was told of it, in its order; a shard may have told twice.
#[derive(Drop)]
pub(crate) struct ToldValue<'a> {
    pub(crate) val: &'a Val,
    pub(crate) counts: Vec<ShardCount>,
}

// One count more, behind those of its value.
fn push_count<'a>(
    alloc: Global,
    by_value: &mut BTreeMap<&'a Val, Vec<ShardCount>>,
    val: &'a Val,
    count: ShardCount,
) -> Result<(), WantMemory>
    ensures { OnOk result (Grows count_view by_value.old by_value.new (val_view val.now ∷ []) (count_view count)) }
{
    let all = by_value.entry(val)?.or_insert(Vec::new(alloc));
    all.push(count)?;
    Ok(())
}

// The counts of each value.
fn counts_by_value<'a>(
    alloc: Global,
    told: &[&'a ToldCount],
) -> Result<BTreeMap<&'a Val, Vec<ShardCount>>, WantMemory>
    ensures { IfOk result (λ by_value. Holds (λ v. counts_of v (lent_view told.now)) (map_view count_view by_value)) }
{
    let mut by_value = BTreeMap::new(alloc);
    for one in told {
        let shard = one.shard;
        let count = one.count;
        push_count(alloc, &mut by_value, &one.val, ShardCount { shard, count })?;
    }
    Ok(by_value)
}

// Each value of a map, in its order.
fn values_of<'a>(
    alloc: Global,
    by_value: BTreeMap<&'a Val, Vec<ShardCount>>,
) -> Result<Vec<ToldValue<'a>>, WantMemory>
    ensures { IfOk result (λ values. map value_view values.items ≡ map_view count_view by_value.entry) }
{
    let mut values = Vec::with_capacity(alloc, by_value.len())?;
    for (val, counts) in by_value {
        values.push(ToldValue { val, counts })?;
    }
    Ok(values)
}

/// Each value of which something was told, in index order.
pub(crate) fn told_values<'a>(
    alloc: Global,
    told: &[&'a ToldCount],
) -> Result<Vec<ToldValue<'a>>, WantMemory>
    ensures values { IfOk result (λ values. map value_view values.items ≡ values_in (lent_view told.now)) }
    ensures ascend { IfOk result (λ values. Ascend (map value_view values.items)) }
{
    let by_value = counts_by_value(alloc, told)?;
    let values = values_of(alloc, by_value)?;
    Ok(values)
}
