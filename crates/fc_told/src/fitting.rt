// Whether a message can be told.
ghost use Rattle.std.specs.Prelude.{◌≡◌, ℕ, option_map};
ghost use Rattle.fc_spec.specs.messages.Held.{told_by, told_wants};
ghost use Rattle.fc_partial.specs.BucketView.{buckets_view, message_view, node_view, rows_view};
ghost use Rattle.fc_partial.specs.StatsView.{stats_view};
ghost use Rattle.fc_partial.specs.declared.bucket.PartialBucket.{out-PartialBucket};
ghost use Rattle.fc_refine.specs.AskView.{ask_view, wants_view};
ghost use Rattle.fc_request.specs.NodeView.{nodes_view};
ghost use Rattle.fc_told.specs.Fitting as fitting;
ghost use Rattle.fc_told.specs.Fitting.{all_fit};
ghost use Rattle.fc_told.specs.TreeView.{tree_there, tree_view};

use crate::ToldBucket;
use crate::sums::numbers_fit;
use crate::ways::{child_of, wanted_bucket, wanted_nodes};
use fc_partial::{Message, PartialBucket, PartialNode};
use fc_refine::{Ask, Want};
use fc_request::{Kind, Node};

// Whether the rows of nodes can be added in a bucket.
#[cycle(fits)]
fn rows_fit(nodes: &[Node], rows: &[PartialNode], told: Option<&ToldBucket>) -> bool
    ensures { result ≡ fitting.rows_fit (tree_there (option_map (λ bucket. bucket.now) told.entry)) 0 (rows_view rows.now) (nodes_view nodes.now) }
{
    let mut left = rows;
    for (number, node) in nodes.iter().enumerate() {
        if let Kind::Stat(_) = &node.kind {
            continue;
        }
        let Some((row, rest)) = left.split_first() else {
            return true;
        };
        if !row_fits(&node.nodes, row, told, number) {
            return false;
        }
        left = rest;
    }
    true
}

// Whether the buckets of the node at a place can be added in a bucket.
#[cycle(fits)]
fn row_fits(nodes: &[Node], row: &PartialNode, told: Option<&ToldBucket>, number: usize) -> bool
    ensures { result ≡ fitting.partials_fit (tree_there (option_map (λ bucket. bucket.now) told.entry)) number (node_view row.now) (nodes_view nodes.now) }
{
    for bucket in &row.buckets {
        let there = child_of(told, number, &bucket.key);
        if !bucket_fits(nodes, bucket, there) {
            return false;
        }
    }
    true
}

// Whether a bucket can be added to what was told of it.
#[cycle(fits)]
fn bucket_fits(nodes: &[Node], bucket: &PartialBucket, told: Option<&ToldBucket>) -> bool
    ensures { result ≡ fitting.bucket_fits (tree_there (option_map (λ bucket. bucket.now) told.entry))
        (stats_view (out-PartialBucket bucket.now).stats) (rows_view (out-PartialBucket bucket.now).nodes.items) (nodes_view nodes.now) }
{
    numbers_fit(told, &bucket.stats) && rows_fit(nodes, &bucket.nodes, told)
}

// Whether the buckets of wants can be added.
fn wants_fit(told: &ToldBucket, nodes: &[Node], wants: &[Want], buckets: &[PartialBucket]) -> bool
    ensures { (shard : ℕ) → result ≡ all_fit (tree_view told.now) (told_wants (nodes_view nodes.now) shard (wants_view wants.now) (buckets_view buckets.now)) }
{
    for (at, want) in wants.iter().enumerate() {
        let Some(bucket) = buckets.get(at) else {
            return true;
        };
        if !bucket_fits(wanted_nodes(nodes, want), bucket, wanted_bucket(told, want)) {
            return false;
        }
    }
    true
}

impl ToldBucket {
    /// Whether a message can be told: with it no sum of counts passes 2^64 - 1, and none of absolute values 2^63 - 1.
    /// A bucket that was asked for is looked up from the root, and each inside another from the one around it.
    pub fn fits(&self, nodes: &[Node], ask: &Ask, message: &Message) -> bool
        ensures { (shard : ℕ) → result ≡ all_fit (tree_view self.now) (told_by (nodes_view nodes.now) shard (ask_view ask.now) (message_view message.now)) }
    {
        match ask {
            Ask::First => match message.buckets.first() {
                Some(bucket) => bucket_fits(nodes, bucket, Some(self)),
                None => true,
            },
            Ask::More(wants) => wants_fit(self, nodes, wants, &message.buckets),
        }
    }
}
