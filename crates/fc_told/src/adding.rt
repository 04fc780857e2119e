// Buckets that a shard told, put where they belong.
ghost use Rattle.std.specs.Prelude.{◌≡◌, ◌+◌, ◌<◌, ◌≤◌, ◌∷◌, [], IsTrue, OnOk, length, max};
ghost use Rattle.fc_spec.specs.laws.LacksLaws.{names_keys};
ghost use Rattle.fc_spec.specs.messages.Held.{told_by, told_root, told_wants};
ghost use Rattle.fc_spec.specs.messages.Message as definition;
ghost use Rattle.fc_spec.specs.messages.Message.{way_of};
ghost use Rattle.fc_partial.specs.BucketView.{buckets_view, message_view, node_view, rows_view};
ghost use Rattle.fc_partial.specs.StatsView.{stats_view};
ghost use Rattle.fc_partial.specs.View.{key_view};
ghost use Rattle.fc_partial.specs.declared.bucket.PartialBucket.{out-PartialBucket};
ghost use Rattle.fc_refine.specs.Along.{nodes_along};
ghost use Rattle.fc_refine.specs.AskView.{ask_view, want_view, wants_view};
ghost use Rattle.fc_request.specs.NodeView.{nodes_view};
ghost use Rattle.fc_told.specs.Adding as adding;
ghost use Rattle.fc_told.specs.Adding.{all_added, bucket_added, changed_at, changed_branch, changed_fork, numbers_added, partials_added, rows_added};
ghost use Rattle.fc_refine.specs.Named.{NamesKeys};
ghost use Rattle.fc_told.specs.Parts.{forks_view};
ghost use Rattle.fc_told.specs.Steps.{steps_view};
ghost use Rattle.fc_told.specs.Trees.{Branches};
ghost use Rattle.fc_told.specs.TreeView as tree;
ghost use Rattle.fc_told.specs.TreeView.{teller_view, tree_view};

use crate::ToldBucket;
use crate::steps::StepsLeft;
use crate::sums::add_sizes;
use crate::teller::Teller;
use crate::tree::ToldNode;
use crate::ways::nodes_in;
use fc_base::WantMemory;
use fc_partial::{Key, Message, PartialBucket, PartialNode};
use fc_refine::{Ask, Want};
use fc_request::{Kind, Node};
use std::alloc::Global;
use std::collections::BTreeMap;

// A bucket that a shard told.
#[derive(Drop)]
struct Asked {
    shard: u32,
    bucket: PartialBucket,
}

// Adds what a shard has there to the sums, and the shard to the tellers.
fn add_teller(told: &mut ToldBucket, shard: u32, teller: Teller) -> Result<(), WantMemory>
    ensures { OnOk result (tree_view told.new ≡ numbers_added (teller_view shard teller) (tree_view told.old) (adding.forks_of (tree_view told.old))) }
{
    told.count = told.count.saturating_add(teller.stats.count);
    add_sizes(&mut told.sizes, &teller.stats.values)?;
    told.tellers.insert(shard, teller)?;
    Ok(())
}

// Puts empty nodes behind the others, up to the one at a place.
fn make_room(alloc: Global, told: &mut Vec<ToldNode>, place: usize) -> Result<(), WantMemory>
    ensures there { OnOk result (place < length told.new.items) }
    ensures same { OnOk result ((f : Branches → Branches) → changed_fork place f (forks_view told.new.items) ≡ changed_fork place f (forks_view told.old.items)) }
    ensures no_more { length told.new.items ≤ max (length told.old.items) (place + 1) }
{
    while told.len() <= place {
        let by_key = BTreeMap::new(alloc);
        told.push(ToldNode { by_key })?;
    }
    Ok(())
}

// Adds the rows of nodes.
#[cycle(adding)]
fn add_rows(
    alloc: Global,
    nodes: &[Node],
    told: &mut Vec<ToldNode>,
    shard: u32,
    rows: Vec<PartialNode>,
) -> Result<(), WantMemory>
    ensures { OnOk result (forks_view told.new.items ≡ rows_added shard 0 (rows_view rows.items) (nodes_view nodes.now) (forks_view told.old.items)) }
{
    let mut left = rows.into_iter();
    for (number, node) in nodes.iter().enumerate() {
        if let Kind::Stat(_) = &node.kind {
            continue;
        }
        let Some(row) = left.next() else {
            return Ok(());
        };
        make_room(alloc, told, number)?;
        let there = &mut told[number];
        add_row(alloc, &node.nodes, there, shard, row)?;
    }
    Ok(())
}

// Adds the buckets of a node, each of which the shard lists there.
#[cycle(adding)]
fn add_row(
    alloc: Global,
    nodes: &[Node],
    told: &mut ToldNode,
    shard: u32,
    row: PartialNode,
) -> Result<(), WantMemory>
    ensures { OnOk result (tree.node_view told.new ≡ partials_added shard (node_view row) (nodes_view nodes.now) (tree.node_view told.old)) }
{
    for bucket in row.buckets {
        add_listed(alloc, nodes, told, shard, bucket)?;
    }
    Ok(())
}

// Adds one of them.
#[cycle(adding)]
fn add_listed(
    alloc: Global,
    nodes: &[Node],
    told: &mut ToldNode,
    shard: u32,
    bucket: PartialBucket,
) -> Result<(), WantMemory>
    ensures { OnOk result (tree.node_view told.new ≡ partials_added shard (buckets_view (bucket ∷ [])) (nodes_view nodes.now) (tree.node_view told.old)) }
{
    let PartialBucket {
        key,
        stats,
        nodes: rows,
    } = bucket;
    let there = told.by_key.entry(key)?.or_insert(ToldBucket::new(alloc));
    let listed = true;
    add_bucket(alloc, nodes, there, shard, Teller { stats, listed }, rows)?;
    Ok(())
}

// Adds what a shard has there, and the rows of the nodes nested in it.
#[cycle(adding)]
fn add_bucket(
    alloc: Global,
    nodes: &[Node],
    told: &mut ToldBucket,
    shard: u32,
    teller: Teller,
    rows: Vec<PartialNode>,
) -> Result<(), WantMemory>
    ensures { OnOk result (tree_view told.new ≡ numbers_added (teller_view shard teller) (tree_view told.old)
        (rows_added shard 0 (rows_view rows.items) (nodes_view nodes.now) (adding.forks_of (tree_view told.old)))) }
{
    add_teller(told, shard, teller)?;
    add_rows(alloc, nodes, &mut told.nodes, shard, rows)?;
    Ok(())
}

// Adds a bucket that was asked for.
fn add_asked(
    alloc: Global,
    nodes: &[Node],
    told: &mut ToldBucket,
    asked: Asked,
) -> Result<(), WantMemory>
    ensures { OnOk result (tree_view told.new ≡ bucket_added asked.shard (stats_view (out-PartialBucket asked.bucket).stats)
        (rows_view (out-PartialBucket asked.bucket).nodes.items) (nodes_view nodes.now) (tree_view told.old)) }
{
    let Asked { shard, bucket } = asked;
    let PartialBucket {
        key: _,
        stats,
        nodes: rows,
    } = bucket;
    let listed = false;
    add_bucket(alloc, nodes, told, shard, Teller { stats, listed }, rows)
}

// The same where steps lead.
#[cycle(along)]
fn add_along(
    alloc: Global,
    nodes: &[Node],
    told: &mut ToldBucket,
    left: StepsLeft<'_>,
    asked: Asked,
) -> Result<(), WantMemory>
    requires { IsTrue (names_keys (nodes_view nodes.now) (steps_view left)) }
    ensures { OnOk result (tree_view told.new ≡ changed_at (steps_view left.entry)
        (bucket_added asked.shard (stats_view (out-PartialBucket asked.bucket).stats)
        (rows_view (out-PartialBucket asked.bucket).nodes.items) (nodes_along (nodes_view nodes.now) (steps_view left.entry)))
        (tree_view told.old)) }
{
    match left.next() {
        Some((node, key, behind)) => {
            let number = node as usize;
            prove!(number < nodes.len());
            let inside = &mut told.nodes;
            make_room(alloc, inside, number)?;
            let there = &mut inside[number];
            add_below(alloc, nodes_in(nodes, number), there, key, behind, asked)?;
            Ok(())
        }
        None => {
            add_asked(alloc, nodes, told, asked)?;
            Ok(())
        }
    }
}

// The same from the bucket of a key of a node on.
#[cycle(along)]
fn add_below(
    alloc: Global,
    nodes: &[Node],
    told: &mut ToldNode,
    key: &Key,
    left: StepsLeft<'_>,
    asked: Asked,
) -> Result<(), WantMemory>
    requires { IsTrue (names_keys (nodes_view nodes.now) (steps_view left)) }
    ensures { OnOk result (tree.node_view told.new ≡ changed_branch (key_view key.now) (changed_at (steps_view left.entry)
        (bucket_added asked.shard (stats_view (out-PartialBucket asked.bucket).stats)
        (rows_view (out-PartialBucket asked.bucket).nodes.items) (nodes_along (nodes_view nodes.now) (steps_view left.entry))))
        (tree.node_view told.old)) }
{
    match told.by_key.get_mut(key) {
        Some(there) => {
            add_along(alloc, nodes, there, left, asked)?;
            Ok(())
        }
        None => {
            let mut there = ToldBucket::new(alloc);
            add_along(alloc, nodes, &mut there, left, asked)?;
            told.by_key.insert(key.copy(alloc)?, there)?;
            Ok(())
        }
    }
}

// Adds the bucket of a want.
fn add_wanted(
    alloc: Global,
    nodes: &[Node],
    told: &mut ToldBucket,
    want: &Want,
    asked: Asked,
) -> Result<(), WantMemory>
    requires { IsTrue (names_keys (nodes_view nodes.now) (way_of (want_view want.now))) }
    ensures { OnOk result (tree_view told.new ≡ changed_at (way_of (want_view want.now))
        (bucket_added asked.shard (stats_view (out-PartialBucket asked.bucket).stats)
        (rows_view (out-PartialBucket asked.bucket).nodes.items) (nodes_along (nodes_view nodes.now) (way_of (want_view want.now))))
        (tree_view told.old)) }
{
    add_along(alloc, nodes, told, StepsLeft::to(want), asked)?;
    Ok(())
}

// Adds the buckets of wants.
fn tell_wants(
    alloc: Global,
    nodes: &[Node],
    told: &mut ToldBucket,
    shard: u32,
    wants: &[Want],
    buckets: Vec<PartialBucket>,
) -> Result<(), WantMemory>
    requires { NamesKeys (nodes_view nodes.now) (definition.more (wants_view wants.now)) }
    ensures { OnOk result (tree_view told.new ≡ all_added (told_wants (nodes_view nodes.now) shard (wants_view wants.now) (buckets_view buckets.items)) (tree_view told.old)) }
{
    let mut left = buckets.into_iter();
    for want in wants {
        let Some(bucket) = left.next() else {
            return Ok(());
        };
        add_wanted(alloc, nodes, told, want, Asked { shard, bucket })?;
    }
    Ok(())
}

// Adds the root's bucket.
fn tell_root(
    alloc: Global,
    nodes: &[Node],
    told: &mut ToldBucket,
    shard: u32,
    buckets: Vec<PartialBucket>,
) -> Result<(), WantMemory>
    ensures { OnOk result (tree_view told.new ≡ all_added (told_root (nodes_view nodes.now) shard (buckets_view buckets.items)) (tree_view told.old)) }
{
    let mut left = buckets.into_iter();
    match left.next() {
        Some(bucket) => {
            add_asked(alloc, nodes, told, Asked { shard, bucket })?;
            Ok(())
        }
        None => Ok(()),
    }
}

impl ToldBucket {
    /// Puts the buckets of a shard's message where they belong. Each step of what was asked for names a facet of the
    /// nodes, and one of its keys. After want of memory some of the buckets are there.
    pub fn tell(
        &mut self,
        alloc: Global,
        nodes: &[Node],
        shard: u32,
        ask: Ask,
        message: Message,
    ) -> Result<(), WantMemory>
        requires { NamesKeys (nodes_view nodes.now) (ask_view ask) }
        ensures { OnOk result (tree_view self.new ≡ all_added (told_by (nodes_view nodes.now) shard (ask_view ask) (message_view message)) (tree_view self.old)) }
    {
        match ask {
            Ask::First => {
                tell_root(alloc, nodes, self, shard, message.buckets)?;
                Ok(())
            }
            Ask::More(wants) => {
                tell_wants(alloc, nodes, self, shard, &wants, message.buckets)?;
                Ok(())
            }
        }
    }
}
