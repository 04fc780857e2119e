// What is asked of buckets, answered from the tree of what shards told.
ghost use Rattle.std.specs.Prelude.{◌≡◌, IfOk, List, map};
ghost use Rattle.fc_spec.specs.messages.Held.{Told};
ghost use Rattle.fc_spec.specs.messages.Merged.{merged};
ghost use Rattle.fc_spec.specs.words.Lists as words;
ghost use Rattle.fc_request.specs.RequestView.{request_view};
ghost use Rattle.fc_refine.specs.CountableRanges.{AreCountable};
ghost use Rattle.fc_reply.specs.ReplyView.{reply_view};
ghost use Rattle.fc_reading.specs.Distinct.{AreDistinct};
ghost use Rattle.fc_lacks.specs.LackView.{lack_view};
ghost use Rattle.fc_told.specs.Telling.{TellersFit, Tells};
ghost use Rattle.fc_told.specs.Trees as trees;
ghost use Rattle.fc_told.specs.TreeView.{tree_view};
ghost use Rattle.fc_coord.specs.Spots.{tree_at};
ghost use Rattle.fc_coord.specs.TreeReading.{has_told, lacking_in, NodeIn, over_tree};

use crate::spot::{NodeSpot, Spot};
use fc_base::{Stat, Val, WantMemory};
use fc_facet::{Kind, Terms};
use fc_lacks::{Lack, lacking};
use fc_partial::{Key, Stats};
use fc_reading::{BucketReading, reply_over};
use fc_reply::Reply;
use fc_request::{Node, Request};
use fc_told::ToldBucket;
use std::alloc::Global;

/// The tree of what shards told.
#[derive(Drop)]
pub(crate) struct ToldTree<'a> {
    root: Spot<'a>,
}

impl<'a> BucketReading for ToldTree<'a> {
    type Bucket = Spot<'a>;

    type Domain = NodeSpot<'a>;

    ghost Held = { trees.Tree };

    ghost Over = { NodeIn };

    ghost held = { λ bucket. tree_at bucket.place };

    ghost over = { λ domain. record { tree = tree_at domain.around.place; node = domain.node } };

    ghost reading = { λ tree. over_tree };

    ghost is_for = { λ domain kind. Unit {0} };

    ghost has = { has_told };

    fn domain_on(
        &self,
        _alloc: Global,
        number: usize,
        _node: &Node,
        _shards: &[u32],
        bucket: &Spot<'a>,
    ) -> Result<NodeSpot<'a>, WantMemory> {
        Ok(NodeSpot {
            around: bucket.copy(),
            node: number,
        })
    }

    fn bucket_at(
        &self,
        _alloc: Global,
        _kind: &Kind,
        domain: &NodeSpot<'a>,
        key: &Key,
    ) -> Result<Spot<'a>, WantMemory> {
        Ok(domain.around.child(domain.node, key))
    }

    fn has_told(&self, shard: u32, bucket: &Spot<'a>) -> bool {
        bucket.told_by(shard).is_some()
    }

    fn stats_on(
        &self,
        alloc: Global,
        stats: &[Stat],
        shards: &[u32],
        bucket: &Spot<'a>,
    ) -> Result<Stats, WantMemory> {
        let found = bucket.stats_on(alloc, stats, shards)?;
        Ok(found)
    }

    fn offers<'d>(
        &self,
        alloc: Global,
        _terms: &Terms,
        _stats: &[Stat],
        domain: &'d NodeSpot<'a>,
        shards: &[u32],
    ) -> Result<Vec<Vec<&'d Val>>, WantMemory> {
        let lists = domain.listed(alloc, shards)?;
        Ok(lists)
    }
}

// The numbers of all shards.
fn shard_numbers(alloc: Global, shards: u32) -> Result<Vec<u32>, WantMemory>
    ensures numbers { IfOk result (λ numbers. numbers.items ≡ words.numbers_below shards) }
    ensures distinct { IfOk result (λ numbers. AreDistinct numbers.items) }
{
    let mut numbers = Vec::new(alloc);
    for number in 0..shards {
        numbers.push(number)?;
    }
    Ok(numbers)
}

/// The reply that is made of what so many shards told.
pub(crate) fn merged_reply(
    alloc: Global,
    request: &Request,
    shards: u32,
    told: &ToldBucket,
) -> Result<Reply, WantMemory>
    requires countable { AreCountable (request_view request.now).nodes }
    requires fit { TellersFit (tree_view told.now) }
    ensures { IfOk result (λ reply. (A : List Told) → Tells (tree_view told.now) A
        → reply_view reply ≡ merged (request_view request.now) shards A) }
{
    let numbers = shard_numbers(alloc, shards)?;
    let tree = ToldTree {
        root: Spot::new(told),
    };
    let reply = reply_over(alloc, &tree, &request.root, &numbers, &tree.root)?;
    Ok(reply)
}

/// What lacks of what so many shards told, at the terms facets that have so many terms facets around them.
pub(crate) fn lacks_at(
    alloc: Global,
    request: &Request,
    shards: u32,
    told: &ToldBucket,
    depth: u32,
) -> Result<Vec<Lack>, WantMemory>
    requires countable { AreCountable (request_view request.now).nodes }
    requires fit { TellersFit (tree_view told.now) }
    ensures { IfOk result (λ all. map lack_view all.items
        ≡ lacking_in (request_view request.now) shards (tree_view told.now) depth) }
{
    let numbers = shard_numbers(alloc, shards)?;
    let tree = ToldTree {
        root: Spot::new(told),
    };
    let all = lacking(alloc, &tree, &request.root, &numbers, &tree.root, depth)?;
    Ok(all)
}
