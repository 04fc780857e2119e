// What shards listed of a node.
ghost use Rattle.std.specs.Prelude.{◌≡◌, ◌++◌, ◌==◌, [], ℕ, All, IfOk, OnOk, map};
ghost use Rattle.std.specs.List.Sorted.{IsStrictlySortedBy};
ghost use Rattle.fc_spec.specs.documents.Val.{val_cmp};
ghost use Rattle.fc_base.specs.View.{val_view};
ghost use Rattle.fc_partial.specs.View.{key_view};
ghost use Rattle.fc_request.specs.FacetNode.{vals_view};
ghost use Rattle.fc_told.specs.ListedView.{list_of, listed_once};
ghost use Rattle.fc_told.specs.Trees.{is_listed_by, offered_at, values_listed, with_value};
ghost use Rattle.fc_told.specs.TreeView.{node_view, tree_view};

use crate::ToldBucket;
use crate::tree::ToldNode;
use fc_base::{Val, WantMemory};
use fc_partial::Key;
use std::alloc::Global;
use std::collections::BTreeMap;

// Puts a value behind those of a shard.
fn push_value<'a>(
    alloc: Global,
    by_shard: &mut BTreeMap<u32, Vec<&'a Val>>,
    shard: u32,
    val: &'a Val,
) -> Result<(), WantMemory>
    ensures { OnOk result ((i : ℕ) → list_of i by_shard.new
        ≡ list_of i by_shard.old ++ listed_once (shard == i) (val_view val.now)) }
{
    let values = by_shard.entry(shard)?.or_insert(Vec::new(alloc));
    values.push(val)?;
    Ok(())
}

// Puts a value behind those of each shard that listed its bucket.
fn push_listed<'a>(
    alloc: Global,
    by_shard: &mut BTreeMap<u32, Vec<&'a Val>>,
    val: &'a Val,
    bucket: &ToldBucket,
) -> Result<(), WantMemory>
    ensures { OnOk result ((i : ℕ) → list_of i by_shard.new
        ≡ list_of i by_shard.old ++ listed_once (is_listed_by i (tree_view bucket.now)) (val_view val.now)) }
{
    for (shard, teller) in &bucket.tellers {
        if teller.listed {
            push_value(alloc, by_shard, *shard, val)?;
        }
    }
    Ok(())
}

// The same where the key is a value.
fn push_bucket<'a>(
    alloc: Global,
    by_shard: &mut BTreeMap<u32, Vec<&'a Val>>,
    key: &'a Key,
    bucket: &ToldBucket,
) -> Result<(), WantMemory>
    ensures { OnOk result ((i : ℕ) → list_of i by_shard.new
        ≡ list_of i by_shard.old ++ with_value (is_listed_by i (tree_view bucket.now)) (key_view key.now) []) }
{
    let Key::Value(val) = key else {
        return Ok(());
    };
    push_listed(alloc, by_shard, val, bucket)?;
    Ok(())
}

// The values of a node by the shards that listed them.
fn values_by_shard<'a>(
    alloc: Global,
    told: &'a ToldNode,
) -> Result<BTreeMap<u32, Vec<&'a Val>>, WantMemory>
    ensures listed { IfOk result (λ by_shard. (i : ℕ) → list_of i by_shard ≡ values_listed i (node_view told.now)) }
    ensures ascend { OnOk result ((i : ℕ) → IsStrictlySortedBy val_cmp (values_listed i (node_view told.now))) }
{
    let mut by_shard = BTreeMap::new(alloc);
    for (key, bucket) in &told.by_key {
        push_bucket(alloc, &mut by_shard, key, bucket)?;
    }
    Ok(by_shard)
}

// The values of a shard.
fn list_at<'a>(
    alloc: Global,
    by_shard: &BTreeMap<u32, Vec<&'a Val>>,
    shard: u32,
) -> Result<Vec<&'a Val>, WantMemory>
    ensures { IfOk result (λ list. vals_view list.items ≡ list_of shard by_shard.now) }
{
    match by_shard.get(&shard) {
        Some(values) => Ok(Vec::from_slice(alloc, values)?),
        None => Ok(Vec::new(alloc)),
    }
}

// Those of each of some shards, in their order. A shard may stand among them twice.
fn lists_of<'a>(
    alloc: Global,
    by_shard: &BTreeMap<u32, Vec<&'a Val>>,
    shards: &[u32],
) -> Result<Vec<Vec<&'a Val>>, WantMemory>
    ensures { IfOk result (λ lists. map (λ list. vals_view list.items) lists.items
        ≡ map (λ i. list_of i by_shard.now) shards.now) }
{
    let mut lists = Vec::with_capacity(alloc, shards.len())?;
    for shard in shards {
        lists.push(list_at(alloc, by_shard, *shard)?)?;
    }
    Ok(lists)
}

impl ToldBucket {
    // The values of the node at a place by the shards that listed them.
    fn values_at(&self, alloc: Global, node: usize) -> Result<BTreeMap<u32, Vec<&Val>>, WantMemory>
        ensures listed { IfOk result (λ by_shard. (i : ℕ) → list_of i by_shard ≡ offered_at node i (tree_view self.now)) }
        ensures ascend { OnOk result ((i : ℕ) → IsStrictlySortedBy val_cmp (offered_at node i (tree_view self.now))) }
    {
        match self.nodes.get(node) {
            Some(told) => {
                let by_shard = values_by_shard(alloc, told)?;
                Ok(by_shard)
            }
            None => Ok(BTreeMap::new(alloc)),
        }
    }

    /// The values that each of the shards listed of the node with a number, shard by shard, each list in index order.
    pub fn listed(
        &self,
        alloc: Global,
        node: usize,
        shards: &[u32],
    ) -> Result<Vec<Vec<&Val>>, WantMemory>
        ensures listed { IfOk result (λ lists. map (λ list. vals_view list.items) lists.items
            ≡ map (λ i. offered_at node i (tree_view self.now)) shards.now) }
        ensures ascend { IfOk result (λ lists. All (λ list. IsStrictlySortedBy val_cmp (vals_view list.items)) lists.items) }
    {
        let by_shard = self.values_at(alloc, node)?;
        let lists = lists_of(alloc, &by_shard, shards)?;
        Ok(lists)
    }
}
