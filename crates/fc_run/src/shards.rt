// The shards of a script, carried on from phase to phase.
ghost use Rattle.std.specs.Prelude.{◌≡◌, IfOk, length, map};
ghost use Rattle.std.specs.Arc.{arc_value};
ghost use Rattle.fc_run.specs.Searches.{lists_in};
ghost use Rattle.fc_run.specs.Progress.{CanCarryAll, all_carried, all_progress_at, progress_of};

use crate::commits::{Committed, carry};
use fc_base::{Schema, WantMemory};
use fc_docs::Batch;
use fc_store::Generation;
use std::alloc::Global;
use std::sync::Arc;

/// Shards of these batches, without a commit.
pub(crate) fn first_shards(
    alloc: Global,
    schema: &Arc<Schema>,
    batches: Vec<Vec<Batch>>,
) -> Result<Vec<Committed>, WantMemory>
    ensures { IfOk result (λ first. map progress_of first.items
        ≡ all_progress_at (arc_value schema.now) (lists_in batches.items) (map (λ shard. 0) batches.items)) }
{
    let mut first = Vec::with_capacity(alloc, batches.len())?;
    for shard in batches {
        first.push(Committed {
            generation: Generation::first(alloc, Arc::try_clone(schema)?)?,
            uncommitted: shard,
        })?;
    }
    Ok(first)
}

/// Carries each shard on to its number of commits.
pub(crate) fn later_shards(
    alloc: Global,
    shards: Vec<Committed>,
    commits: &[u32],
) -> Result<Vec<Committed>, WantMemory>
    requires count { length commits.now ≡ length shards.items }
    requires each { CanCarryAll (map progress_of shards.items) commits.now }
    ensures { IfOk result (λ later. map progress_of later.items ≡ all_carried (map progress_of shards.items) commits.now) }
{
    let mut later = Vec::with_capacity(alloc, shards.len())?;
    for shard in shards {
        let number = commits[later.len()];
        later.push(carry(alloc, shard, number)?)?;
    }
    Ok(later)
}
