// Buckets that shards told.
ghost use Rattle.std.specs.Prelude.{◌≡◌, option_map};
ghost use Rattle.fc_partial.specs.StatsView.{stats_view};
ghost use Rattle.fc_partial.specs.View.{key_view};
ghost use Rattle.fc_told.specs.Trees.{nothing, stats_told};
ghost use Rattle.fc_told.specs.Trees as trees;
ghost use Rattle.fc_told.specs.TreeView.{tree_there, tree_view};

use crate::teller::Teller;
use fc_partial::{Key, Stats};
use std::alloc::Global;
use std::collections::BTreeMap;

/// A bucket over all shards: what each that told it has there, and what they told of the nodes nested in it.
#[cycle(told)]
#[derive(Debug, Drop)]
pub struct ToldBucket {
    /// By their numbers.
    pub(crate) tellers: BTreeMap<u32, Teller>,
    // Their counts added up, and the absolute values of each of their numbers.
    pub(crate) count: u64,
    pub(crate) sizes: Vec<u64>,
    /// By the numbers of the nodes; those behind the last that was told are left out.
    pub(crate) nodes: Vec<ToldNode>,
}

/// What was told of a node.
#[cycle(told)]
#[derive(Debug, Drop)]
pub(crate) struct ToldNode {
    pub(crate) by_key: BTreeMap<Key, ToldBucket>,
}

impl ToldBucket {
    /// A bucket that nobody told.
    pub fn new(alloc: Global) -> ToldBucket
        ensures { tree_view result ≡ nothing }
    {
        ToldBucket {
            tellers: BTreeMap::new(alloc),
            count: 0,
            sizes: Vec::new(alloc),
            nodes: Vec::new(alloc),
        }
    }

    /// The bucket of a key of the node with a number. There is none where no shard told of one there, or under one.
    pub fn child(&self, node: usize, key: &Key) -> Option<&ToldBucket>
        ensures { tree_there (option_map (λ bucket. bucket.now) result)
            ≡ trees.child (record { node = node; key = key_view key.now }) (tree_view self.now) }
    {
        self.nodes.get(node)?.by_key.get(key)
    }

    /// What a shard told of it.
    pub fn told_by(&self, shard: u32) -> Option<&Stats>
        ensures { option_map (λ stats. stats_view stats.now) result ≡ stats_told shard (tree_view self.now) }
    {
        let teller = self.tellers.get(&shard)?;
        Some(&teller.stats)
    }
}
