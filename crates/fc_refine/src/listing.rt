// What parts list of each value.
ghost use Rattle.std.specs.Prelude.{◌≡◌, ◌∷◌, [], IfOk, OnOk};
ghost use Rattle.fc_base.specs.View.{val_view};
ghost use Rattle.fc_partial.specs.BucketView.{buckets_view, node_view};
ghost use Rattle.fc_refine.specs.Grouped.{Grows, Holds, map_view};
ghost use Rattle.fc_refine.specs.Listings.{GrowsBy, listed_by, listed_in, listed_view, parts_view};

use fc_base::{Val, WantMemory};
use fc_partial::{Key, PartialBucket, PartialNode, Stats};
use std::alloc::Global;
use std::collections::BTreeMap;

/// What a shard told of the facet.
#[derive(Clone, Copy)]
pub(crate) struct Part<'a> {
    pub(crate) shard: u32,
    pub(crate) node: &'a PartialNode,
}

/// A shard that lists a value, with the statistics of its bucket there.
#[derive(Clone, Copy)]
pub(crate) struct Listed<'a> {
    pub(crate) shard: u32,
    pub(crate) stats: &'a Stats,
}

// Puts what lists a value behind what listed it before.
fn push_listed<'a>(
    alloc: Global,
    by_value: &mut BTreeMap<&'a Val, Vec<Listed<'a>>>,
    val: &'a Val,
    listed: Listed<'a>,
) -> Result<(), WantMemory>
    ensures { OnOk result (Grows listed_view by_value.old by_value.new (val_view val.now ∷ []) (listed_view listed.entry)) }
{
    let all = by_value.entry(val)?.or_insert(Vec::new(alloc));
    all.push(listed)?;
    Ok(())
}

// Puts a bucket of a shard behind what listed its value before; one of another key goes nowhere.
fn push_bucket<'a>(
    alloc: Global,
    by_value: &mut BTreeMap<&'a Val, Vec<Listed<'a>>>,
    shard: u32,
    bucket: &'a PartialBucket,
) -> Result<(), WantMemory>
    ensures { OnOk result (GrowsBy listed_view by_value.old by_value.new (λ v. listed_in v shard (buckets_view (bucket.now ∷ [])))) }
{
    let Key::Value(val) = &bucket.key else {
        return Ok(());
    };
    let stats = &bucket.stats;
    push_listed(alloc, by_value, val, Listed { shard, stats })?;
    Ok(())
}

// The same for each bucket of a part.
fn push_part<'a>(
    alloc: Global,
    by_value: &mut BTreeMap<&'a Val, Vec<Listed<'a>>>,
    shard: u32,
    node: &'a PartialNode,
) -> Result<(), WantMemory>
    ensures { OnOk result (GrowsBy listed_view by_value.old by_value.new (λ v. listed_in v shard (node_view node.now))) }
{
    for bucket in &node.buckets {
        push_bucket(alloc, by_value, shard, bucket)?;
    }
    Ok(())
}

/// What lists each value, in the order of the parts.
pub(crate) fn listed_by_value<'a>(
    alloc: Global,
    parts: &[Part<'a>],
) -> Result<BTreeMap<&'a Val, Vec<Listed<'a>>>, WantMemory>
    ensures { IfOk result (λ by_value. Holds (λ v. listed_by v (parts_view parts.now)) (map_view listed_view by_value)) }
{
    let mut by_value = BTreeMap::new(alloc);
    for part in parts {
        push_part(alloc, &mut by_value, part.shard, part.node)?;
    }
    Ok(by_value)
}
