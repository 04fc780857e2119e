// What lacks of chosen values.
ghost use Rattle.std.specs.Prelude.{◌≡◌, ◌++◌, IfOk, IfSome, OnOk, map};
ghost use Rattle.std.specs.Arc.{arc_value};
ghost use Rattle.std.specs.List.{flat_map};
ghost use Rattle.fc_spec.specs.requests.Buckets.{value as value_key};
ghost use Rattle.fc_spec.specs.messages.Lacks.{want_of};
ghost use Rattle.fc_base.specs.View.{val_view};
ghost use Rattle.fc_refine.specs.AskView.{way_view};
ghost use Rattle.fc_lacks.specs.Lacking.{lacked_by};
ghost use Rattle.fc_lacks.specs.LackView.{lack_view};

use fc_base::{Val, WantMemory};
use fc_partial::Key;
use fc_reading::{BucketReading, Candidate};
use fc_refine::{Step, Want};
use std::alloc::Global;
use std::sync::Arc;

/// A bucket that a shard is to be asked for.
#[derive(Debug, Drop)]
pub struct Lack {
    pub shard: u32,
    pub want: Want,
}

// The same steps, to be shared by what is wanted where they lead.
fn path_of(alloc: Global, way: &[Step]) -> Result<Arc<Vec<Step>>, WantMemory>
    ensures { IfOk result (λ path. (arc_value path).items ≡ way.now) }
{
    let mut steps = Vec::with_capacity(alloc, way.len())?;
    for step in way {
        steps.push(Step {
            node: step.node,
            key: step.key.copy(alloc)?,
        })?;
    }
    let path = Arc::new(alloc, steps)?;
    Ok(path)
}

// The path of a way, which is made for the first that needs it.
fn shared_path(
    alloc: Global,
    way: &[Step],
    made: &mut Option<Arc<Vec<Step>>>,
) -> Result<Arc<Vec<Step>>, WantMemory>
    requires { IfSome made.old (λ path. (arc_value path).items ≡ way.now) }
    ensures path { IfOk result (λ path. (arc_value path).items ≡ way.now) }
    ensures made { OnOk result (IfSome made.new (λ path. (arc_value path).items ≡ way.now)) }
{
    if let Some(path) = made.as_ref() {
        let again = Arc::try_clone(path)?;
        return Ok(again);
    }
    let path = path_of(alloc, way)?;
    *made = Some(Arc::try_clone(&path)?);
    Ok(path)
}

// The bucket of a value of a node, in the bucket where a way leads, at a shard.
fn lack_of(
    alloc: Global,
    path: Arc<Vec<Step>>,
    node: u32,
    val: &Val,
    shard: u32,
) -> Result<Lack, WantMemory>
    ensures { IfOk result (λ lack. lack_view lack ≡ record {
      shard = shard;
      want = want_of (way_view (arc_value path).items) node (value_key (val_view val.now));
    }) }
{
    Ok(Lack {
        shard,
        want: Want {
            path,
            node,
            key: Key::Value(val.copy(alloc)?),
        },
    })
}

// A value at each shard that has told nothing of it.
fn push_value<R: BucketReading>(
    alloc: Global,
    reading: &R,
    shards: &[u32],
    way: &[Step],
    made: &mut Option<Arc<Vec<Step>>>,
    node: u32,
    one: &Candidate<R::Bucket>,
    lacks: &mut Vec<Lack>,
) -> Result<(), WantMemory>
    requires { IfSome made.old (λ path. (arc_value path).items ≡ way.now) }
    ensures made { OnOk result (IfSome made.new (λ path. (arc_value path).items ≡ way.now)) }
    ensures lacks { OnOk result (map lack_view lacks.new.items ≡ map lack_view lacks.old.items
        ++ lacked_by R.has shards.now (R.held one.now.bucket) (want_of (way_view way.now) node (value_key (val_view one.now.val)))) }
{
    for shard in shards {
        if !reading.has_told(*shard, &one.bucket) {
            let path = shared_path(alloc, way, made)?;
            lacks.push(lack_of(alloc, path, node, &one.val, *shard)?)?;
        }
    }
    Ok(())
}

/// Each of the values at the shards that have told nothing of it, all with the same path.
pub(crate) fn push_values<R: BucketReading>(
    alloc: Global,
    reading: &R,
    shards: &[u32],
    way: &[Step],
    node: u32,
    values: &[Candidate<R::Bucket>],
    lacks: &mut Vec<Lack>,
) -> Result<(), WantMemory>
    ensures { OnOk result (map lack_view lacks.new.items ≡ map lack_view lacks.old.items
        ++ flat_map (λ one. lacked_by R.has shards.now (R.held one.bucket) (want_of (way_view way.now) node (value_key (val_view one.val)))) values.now) }
{
    let mut made = None;
    for one in values {
        push_value(alloc, reading, shards, way, &mut made, node, one, lacks)?;
    }
    Ok(())
}
