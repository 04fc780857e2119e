// Places in the tree of what shards told.
ghost use Rattle.std.specs.Prelude.{◌≡◌, [], All, IfOk, map, option_map};
ghost use Rattle.std.specs.List.{enumerate_from};
ghost use Rattle.std.specs.List.Sorted.{IsStrictlySortedBy};
ghost use Rattle.fc_spec.specs.documents.Val.{val_cmp};
ghost use Rattle.fc_base.specs.StatisticView.{stat_view};
ghost use Rattle.fc_partial.specs.StatsView.{stats_view};
ghost use Rattle.fc_partial.specs.View.{key_view};
ghost use Rattle.fc_request.specs.FacetNode.{vals_view};
ghost use Rattle.fc_reading.specs.Distinct.{AreDistinct};
ghost use Rattle.fc_told.specs.Telling.{TellersFit};
ghost use Rattle.fc_told.specs.Trees.{child, offered_at, stats_told};
ghost use Rattle.fc_told.specs.TreeView.{tree_view};
ghost use Rattle.fc_coord.specs.Spots.{tree_at};
ghost use Rattle.fc_coord.specs.TreeReading.{count_told, told_on, value_told};

use crate::told_stats::{count_of, values_of};
use fc_base::{Stat, Val, WantMemory};
use fc_partial::{Key, Stats};
use fc_told::ToldBucket;
use std::alloc::Global;

/// A place of a bucket in the tree, where the sums of what shards told of it, and of the buckets inside, fit their types.
#[derive(Drop)]
pub(crate) struct Spot<'a> {
    /// There is none where no shard told of it, or of a bucket inside.
    pub(crate) place: Option<&'a ToldBucket>,
    ghost fit: { TellersFit (tree_at place) },
}

/// A node of the bucket of a place, by its number.
#[derive(Drop)]
pub(crate) struct NodeSpot<'a> {
    pub(crate) around: Spot<'a>,
    pub(crate) node: usize,
}

impl<'a> Spot<'a> {
    /// That of a bucket.
    pub(crate) fn new(bucket: &'a ToldBucket) -> Spot<'a>
        requires { TellersFit (tree_view bucket.now) }
        ensures { tree_at result.place ≡ tree_view bucket.now }
    {
        Spot {
            place: Some(bucket),
        }
    }

    /// The same place.
    pub(crate) fn copy(&self) -> Spot<'a>
        ensures { tree_at result.place ≡ tree_at self.now.place }
    {
        Spot { place: self.place }
    }

    /// That of a key of the node with a number.
    pub(crate) fn child(&self, node: usize, key: &Key) -> Spot<'a>
        ensures { tree_at result.place
            ≡ child (record { node = node; key = key_view key.now }) (tree_at self.now.place) }
    {
        let place = child_of(self.place, node, key);
        Spot { place }
    }

    /// What a shard told of it.
    pub(crate) fn told_by(&self, shard: u32) -> Option<&'a Stats>
        ensures { option_map (λ stats. stats_view stats.now) result ≡ stats_told shard (tree_at self.now.place) }
    {
        match self.place {
            Some(bucket) => bucket.told_by(shard),
            None => None,
        }
    }

    // What those of the shards told that told it. Where nobody told of it no shard is looked up.
    fn told_on(&self, alloc: Global, shards: &[u32]) -> Result<Vec<&'a Stats>, WantMemory>
        ensures { IfOk result (λ told. map (λ stats. stats_view stats.now) told.items ≡ told_on shards.now (tree_at self.now.place)) }
    {
        match self.place {
            Some(bucket) => {
                let told = told_by_shards(alloc, bucket, shards)?;
                Ok(told)
            }
            None => Ok(Vec::new(alloc)),
        }
    }

    /// The count and the statistics of the shards that told it.
    pub(crate) fn stats_on(
        &self,
        alloc: Global,
        stats: &[Stat],
        shards: &[u32],
    ) -> Result<Stats, WantMemory>
        requires { AreDistinct shards.now }
        ensures { IfOk result (λ found. stats_view found ≡ record {
          count = count_told shards.now (tree_at self.now.place);
          values = map (λ s. value_told s.0 s.1 shards.now (tree_at self.now.place)) (enumerate_from 0 (map stat_view stats.now));
        }) }
    {
        let told = self.told_on(alloc, shards)?;
        let values = values_of(alloc, stats, &told)?;
        Ok(Stats {
            count: count_of(&told),
            values,
        })
    }
}

// What those of the shards told that told a bucket.
fn told_by_shards<'a>(
    alloc: Global,
    bucket: &'a ToldBucket,
    shards: &[u32],
) -> Result<Vec<&'a Stats>, WantMemory>
    ensures { IfOk result (λ told. map (λ stats. stats_view stats.now) told.items ≡ told_on shards.now (tree_view bucket.now)) }
{
    let mut told = Vec::new(alloc);
    for shard in shards {
        if let Some(stats) = bucket.told_by(*shard) {
            told.push(stats)?;
        }
    }
    Ok(told)
}

// The bucket of a key of the node with a number.
fn child_of<'a>(place: Option<&'a ToldBucket>, node: usize, key: &Key) -> Option<&'a ToldBucket>
    ensures { tree_at result ≡ child (record { node = node; key = key_view key.now }) (tree_at place.entry) }
{
    match place {
        Some(bucket) => bucket.child(node, key),
        None => None,
    }
}

// For each of the shards no value.
fn none_listed<'a>(alloc: Global, shards: &[u32]) -> Result<Vec<Vec<&'a Val>>, WantMemory>
    ensures none { IfOk result (λ lists. map (λ list. vals_view list.items) lists.items ≡ map (λ i. []) shards.now) }
    ensures ascend { IfOk result (λ lists. All (λ list. IsStrictlySortedBy val_cmp (vals_view list.items)) lists.items) }
{
    let mut lists = Vec::with_capacity(alloc, shards.len())?;
    for _shard in shards {
        lists.push(Vec::new(alloc))?;
    }
    Ok(lists)
}

impl<'a> NodeSpot<'a> {
    /// The values that each of the shards listed of it, shard by shard, each list in index order.
    pub(crate) fn listed(
        &self,
        alloc: Global,
        shards: &[u32],
    ) -> Result<Vec<Vec<&'a Val>>, WantMemory>
        ensures listed { IfOk result (λ lists. map (λ list. vals_view list.items) lists.items
            ≡ map (λ i. offered_at self.now.node i (tree_at self.now.around.place)) shards.now) }
        ensures ascend { IfOk result (λ lists. All (λ list. IsStrictlySortedBy val_cmp (vals_view list.items)) lists.items) }
    {
        match self.around.place {
            Some(bucket) => {
                let lists = bucket.listed(alloc, self.node, shards)?;
                Ok(lists)
            }
            None => {
                let lists = none_listed(alloc, shards)?;
                Ok(lists)
            }
        }
    }
}
