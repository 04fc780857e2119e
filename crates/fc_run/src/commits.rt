// The commits of a shard between two phases: they make one generation, and leave the other batches.
ghost use Rattle.std.specs.Prelude.{◌≡◌, ◌+◌, ◌++◌, ◌∷◌, ◌≤◌, [], IfOk, drop, length, take};
ghost use Rattle.std.specs.Arc.{arc_value};
ghost use Rattle.fc_spec.specs.documents.Operations.{blocks_added};
ghost use Rattle.fc_spec.specs.scripts.WorldLimits.{IsWithinLimits};
ghost use Rattle.fc_spec.specs.words.Lists.{joined};
ghost use Rattle.fc_script.specs.PartsView.{batches_view};
ghost use Rattle.fc_store.specs.Charters.{IsBatchOf};
ghost use Rattle.fc_run.specs.Progress.{CanCarry, carried, generation_after, progress_of};

use fc_base::WantMemory;
use fc_docs::Batch;
use fc_store::Generation;
use std::alloc::Global;
use std::sync::Arc;

/// The generation of a shard with some commits, and the batches that are left.
#[derive(Debug, Drop)]
pub(crate) struct Committed {
    pub(crate) generation: Arc<Generation>,
    pub(crate) uncommitted: Vec<Batch>,
}

/// Carries a shard on to so many commits.
pub(crate) fn carry(alloc: Global, shard: Committed, commits: u32) -> Result<Committed, WantMemory>
    requires { CanCarry (progress_of shard) commits }
    ensures { IfOk result (λ later. progress_of later ≡ carried (progress_of shard) commits) }
{
    let Committed {
        generation,
        uncommitted,
    } = shard;
    let more = commits as usize - generation.number() as usize;
    commit(alloc, &generation, uncommitted, more)
}

// Commits the first of a shard's batches, so many, as one generation.
fn commit(
    alloc: Global,
    earlier: &Arc<Generation>,
    uncommitted: Vec<Batch>,
    more: usize,
) -> Result<Committed, WantMemory>
    requires there { more ≤ length uncommitted.items }
    requires number { (arc_value earlier.now).number + more ≤ 4096 }
    requires all { IsBatchOf (arc_value earlier.now).schema (joined (batches_view (take more uncommitted.items))) }
    requires limits { IsWithinLimits (((arc_value earlier.now).blocks ++ blocks_added (joined (batches_view (take more uncommitted.items)))) ∷ []) }
    ensures generation { IfOk result (λ committed. arc_value committed.generation
        ≡ generation_after (arc_value earlier.now) (take more uncommitted.items)) }
    ensures left { IfOk result (λ committed. committed.uncommitted.items ≡ drop more uncommitted.items) }
{
    if more == 0 {
        let generation = Arc::try_clone(earlier)?;
        return Ok(Committed {
            generation,
            uncommitted,
        });
    }
    let mut first = uncommitted;
    let rest = first.split_off(more)?;
    let generation = Generation::after(alloc, earlier, first)?;
    Ok(Committed {
        generation,
        uncommitted: rest,
    })
}
