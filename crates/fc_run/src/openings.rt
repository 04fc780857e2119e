// The stores of a phase with searches, and the shards once they have ended.
ghost use Rattle.std.specs.Prelude.{◌≡◌, ◌≤◌, IfOk, length, map};
ghost use Rattle.std.specs.Arc.{arc_value};
ghost use Rattle.fc_work.specs.Opened.{AreNumbered};
ghost use Rattle.fc_run.specs.Progress.{CanCarry, CanCarryAll, all_left, charter_to, charters_to, joined_again, left_by, progress_of};

use crate::commits::Committed;
use fc_base::WantMemory;
use fc_docs::Batch;
use fc_store::{Charter, Generation};
use fc_work::Opening;
use std::alloc::Global;
use std::sync::Arc;

// What the store of a shard may publish, and the batches that are left.
#[derive(Debug, Drop)]
struct Cut {
    charter: Charter,
    left: Vec<Batch>,
}

/// For each shard its store, and the batches that are left.
#[derive(Debug, Drop)]
pub(crate) struct Openings {
    pub(crate) stores: Vec<Opening>,
    pub(crate) left: Vec<Vec<Batch>>,
}

// Cuts off the batches of a shard up to so many commits.
fn cut_off(alloc: Global, shard: Committed, commits: u32) -> Result<Cut, WantMemory>
    requires { CanCarry (progress_of shard) commits }
    ensures charter { IfOk result (λ cut. cut.charter ≡ charter_to (progress_of shard) commits) }
    ensures left { IfOk result (λ cut. cut.left.items ≡ left_by (progress_of shard) commits) }
{
    let Committed {
        generation,
        uncommitted,
    } = shard;
    let more = commits as usize - generation.number() as usize;
    if more == 0 {
        let none = Arc::new(alloc, Vec::new(alloc))?;
        return Ok(Cut {
            charter: Charter::new(generation, none),
            left: uncommitted,
        });
    }
    let mut first = uncommitted;
    let left = first.split_off(more)?;
    let first = Arc::new(alloc, first)?;
    Ok(Cut {
        charter: Charter::new(generation, first),
        left,
    })
}

/// What the store of each shard may publish in a phase: its batches up to its number of commits.
pub(crate) fn openings_of(
    alloc: Global,
    shards: Vec<Committed>,
    commits: &[u32],
) -> Result<Openings, WantMemory>
    requires count { length commits.now ≡ length shards.items }
    requires few { length shards.items ≤ 64 }
    requires each { CanCarryAll (map progress_of shards.items) commits.now }
    ensures charters { IfOk result (λ cut. map (λ store. store.charter) cut.stores.items ≡ charters_to (map progress_of shards.items) commits.now) }
    ensures numbered { IfOk result (λ cut. AreNumbered cut.stores.items) }
    ensures left { IfOk result (λ cut. map (λ own. own.items) cut.left.items ≡ all_left (map progress_of shards.items) commits.now) }
{
    let mut stores = Vec::with_capacity(alloc, shards.len())?;
    let mut left = Vec::with_capacity(alloc, shards.len())?;
    for one in shards {
        let at = stores.len();
        let cut = cut_off(alloc, one, commits[at])?;
        let Cut { charter, left: own } = cut;
        stores.push(Opening {
            shard: at as u32,
            charter,
        })?;
        left.push(own)?;
    }
    Ok(Openings { stores, left })
}

/// The shards of these generations, with these batches left.
pub(crate) fn again(
    alloc: Global,
    generations: &[Arc<Generation>],
    left: Vec<Vec<Batch>>,
) -> Result<Vec<Committed>, WantMemory>
    requires { length generations.now ≡ length left.items }
    ensures { IfOk result (λ shards. map progress_of shards.items ≡ joined_again (map arc_value generations.now) (map (λ own. own.items) left.items)) }
{
    let mut shards = Vec::with_capacity(alloc, left.len())?;
    for uncommitted in left {
        let generation = Arc::try_clone(&generations[shards.len()])?;
        shards.push(Committed {
            generation,
            uncommitted,
        })?;
    }
    Ok(shards)
}
