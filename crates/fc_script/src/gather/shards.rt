// Shards as far as a script's lines have been gathered.
ghost use Rattle.std.specs.Prelude.{◌≡◌, ◌<◌, length, map, nat_le, replicate, true, IfOk, IfSome, OnOk};
ghost use Rattle.std.specs.List.{list_all};
ghost use Rattle.fc_docs.specs.View.{op_view};
ghost use Rattle.fc_script.specs.Gathered.{changed_at, empty_shard, has_few, with_commit, with_commit_of, with_op};
ghost use Rattle.fc_script.specs.PartsView.{batches_view};
ghost use Rattle.fc_script.specs.ShardView.{shard_view};

use fc_base::WantMemory;
use fc_docs::{Batch, Op};
use std::alloc::Global;
use std::mem;

// The most commits of a shard.
const COMMIT_LIMIT: usize = 4096;

/// A batch for each commit of a shard, and the operations behind the last one.
#[derive(Debug, Drop)]
pub(crate) struct ShardSoFar {
    pub(crate) batches: Vec<Batch>,
    pub(crate) waiting: Vec<Op>,
}

impl ShardSoFar {
    // Before the first line.
    fn new(alloc: Global) -> ShardSoFar
        ensures { shard_view result ≡ empty_shard }
    {
        ShardSoFar {
            batches: Vec::new(alloc),
            waiting: Vec::new(alloc),
        }
    }

    // Behind one more operation.
    fn add(&mut self, op: Op) -> Result<(), WantMemory>
        ensures { OnOk result (shard_view self.new ≡ with_op (op_view op) (shard_view self.old)) }
    {
        self.waiting.push(op)?;
        Ok(())
    }

    // Behind one more commit.
    fn commit(&mut self, alloc: Global) -> Result<(), WantMemory>
        ensures { OnOk result (shard_view self.new ≡ with_commit (shard_view self.old)) }
    {
        let ops = mem::replace(&mut self.waiting, Vec::new(alloc));
        self.batches.push(Batch { ops })?;
        Ok(())
    }
}

/// So many shards before the first line.
pub(crate) fn empty_shards(alloc: Global, count: u32) -> Result<Vec<ShardSoFar>, WantMemory>
    ensures { IfOk result (λ shards. map shard_view shards.items ≡ replicate count empty_shard) }
{
    let mut shards = Vec::new(alloc);
    for _ in 0..count {
        shards.push(ShardSoFar::new(alloc))?;
    }
    Ok(shards)
}

/// Puts an operation behind those of a shard.
pub(crate) fn add_op(shards: &mut [ShardSoFar], shard: u32, op: Op) -> Result<(), WantMemory>
    requires { shard < length shards.old }
    ensures shards { OnOk result (map shard_view shards.new
        ≡ changed_at (with_op (op_view op)) shard (map shard_view shards.old)) }
    ensures count { length shards.new ≡ length shards.old }
{
    shards[shard as usize].add(op)
}

// Commits one shard.
fn commit_one(alloc: Global, shards: &mut [ShardSoFar], shard: u32) -> Result<(), WantMemory>
    requires { shard < length shards.old }
    ensures shards { OnOk result (map shard_view shards.new
        ≡ changed_at with_commit shard (map shard_view shards.old)) }
    ensures count { length shards.new ≡ length shards.old }
{
    shards[shard as usize].commit(alloc)
}

// Commits every shard.
fn commit_all(alloc: Global, shards: &mut [ShardSoFar]) -> Result<(), WantMemory>
    ensures shards { OnOk result (map shard_view shards.new ≡ map with_commit (map shard_view shards.old)) }
    ensures count { length shards.new ≡ length shards.old }
{
    for shard in shards.iter_mut() {
        shard.commit(alloc)?;
    }
    Ok(())
}

/// Commits a shard, or every shard.
pub(crate) fn commit(
    alloc: Global,
    shards: &mut [ShardSoFar],
    shard: Option<u32>,
) -> Result<(), WantMemory>
    requires { IfSome shard (λ shard. shard < length shards.old) }
    ensures shards { OnOk result (map shard_view shards.new
        ≡ with_commit_of shard (map shard_view shards.old)) }
    ensures count { length shards.new ≡ length shards.old }
{
    match shard {
        Some(shard) => commit_one(alloc, shards, shard),
        None => commit_all(alloc, shards),
    }
}

/// Whether each shard has few enough commits.
pub(crate) fn have_few(shards: &[ShardSoFar]) -> bool
    ensures { result ≡ list_all (λ x. nat_le (length x.batches.items) 4096) shards.now }
{
    shards
        .iter()
        .all(|shard| shard.batches.len() <= COMMIT_LIMIT)
}

/// For each shard the number of its commits.
pub(crate) fn commits(alloc: Global, shards: &[ShardSoFar]) -> Result<Vec<u32>, WantMemory>
    requires { list_all has_few (map shard_view shards.now) ≡ true }
    ensures { IfOk result (λ commits. commits.items ≡ map (λ x. length x.batches.items) shards.now) }
{
    let mut commits = Vec::new(alloc);
    for shard in shards {
        commits.push(shard.batches.len() as u32)?;
    }
    Ok(commits)
}

/// The batches of each shard.
pub(crate) fn batches(alloc: Global, shards: Vec<ShardSoFar>) -> Result<Vec<Vec<Batch>>, WantMemory>
    ensures { IfOk result (λ batches. map (λ b. batches_view b.items) batches.items
        ≡ map (λ x. batches_view x.batches.items) shards.items) }
{
    let mut batches = Vec::new(alloc);
    for shard in shards {
        batches.push(shard.batches)?;
    }
    Ok(batches)
}
