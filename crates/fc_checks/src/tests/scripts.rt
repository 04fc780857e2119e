// The batches of scripts that have no fault, and generations of them.
ghost use Rattle.std.specs.Prelude.{◌≡◌, [], All, IfOk, map};
ghost use Rattle.std.specs.Arc.{arc_value};
ghost use Rattle.fc_spec.specs.documents.Operations.{after_ops};
ghost use Rattle.fc_spec.specs.scripts.WorldLimits.{IsWithinLimits};
ghost use Rattle.fc_spec.specs.words.Lists.{joined};
ghost use Rattle.fc_script.specs.PartsView.{batches_view};
ghost use Rattle.fc_round.specs.Askable.{world_of};
ghost use Rattle.fc_run.specs.Searches.{shards_view};
ghost use Rattle.fc_checks.specs.Shards.{IsShardOf, world_left};

use fc_base::Schema;
use fc_docs::Batch;
use fc_script::Script;
use fc_spec::added_are_within_limits;
use fc_store::Generation;
use std::alloc::Global;
use std::sync::Arc;
use std::test::Fail;

// A script, with the facts that stores and searches want of its batches.
pub(super) fn script_of(alloc: Global, text: &str) -> Result<Script, Fail>
    ensures shards { IfOk result (λ script. All (IsShardOf (arc_value script.schema)) (shards_view script.batches.items)) }
    ensures limits { IfOk result (λ script. IsWithinLimits (world_left (shards_view script.batches.items))) }
{
    added_are_within_limits();
    let script = Script::read(alloc, text.as_bytes())?;
    Ok(script)
}

// The generation of a shard with all of these batches. The first ones, so many, make one segment, and the others one, which are merged
// where the first has fewer than twice the documents of the other.
fn generation_of(
    alloc: Global,
    schema: &Arc<Schema>,
    batches: Vec<Batch>,
    earlier: usize,
) -> Result<Arc<Generation>, Fail>
    requires { IsShardOf (arc_value schema.now) (batches_view batches.items) }
    ensures schema { IfOk result (λ generation. (arc_value generation).schema ≡ arc_value schema.now) }
    ensures blocks { IfOk result (λ generation. (arc_value generation).blocks ≡ after_ops [] (joined (batches_view batches.items))) }
{
    let count = earlier.min(batches.len());
    let mut first = batches;
    let others = first.split_off(count)?;
    let start = Generation::first(alloc, Arc::try_clone(schema)?)?;
    let middle = Generation::after(alloc, &start, first)?;
    let last = Generation::after(alloc, &middle, others)?;
    Ok(last)
}

// Such a generation of each shard.
pub(super) fn generations_of(
    alloc: Global,
    schema: &Arc<Schema>,
    shards: Vec<Vec<Batch>>,
    earlier: usize,
) -> Result<Vec<Arc<Generation>>, Fail>
    requires { All (IsShardOf (arc_value schema.now)) (shards_view shards.items) }
    ensures schema { IfOk result (λ all. All (λ generation. generation.schema ≡ arc_value schema.now) (map arc_value all.items)) }
    ensures world { IfOk result (λ all. world_of (map arc_value all.items) ≡ world_left (shards_view shards.items)) }
{
    let mut all = Vec::new(alloc);
    for batches in shards {
        all.push(generation_of(alloc, schema, batches, earlier)?)?;
    }
    Ok(all)
}
