// Operations that are lent from their batches.
ghost use Rattle.std.specs.Prelude.{◌≡◌, ◌++◌, map, IfOk};
ghost use Rattle.fc_spec.specs.words.Lists.{joined};
ghost use Rattle.fc_docs.specs.View.{batch_view, op_view};
ghost use Rattle.fc_store.specs.Named.{ops_of};

use fc_base::WantMemory;
use fc_docs::{Batch, Op};
use std::alloc::Global;

// These operations behind others.
fn with_each<'a>(lent: Vec<&'a Op>, ops: &'a [Op]) -> Result<Vec<&'a Op>, WantMemory>
    ensures { IfOk result (λ all. ops_of all.items ≡ ops_of lent.entry.items ++ map op_view ops.now) }
{
    let mut all = lent;
    for op in ops {
        all.push(op)?;
    }
    Ok(all)
}

/// The operations of a batch.
pub fn lent(alloc: Global, batch: &Batch) -> Result<Vec<&Op>, WantMemory>
    ensures { IfOk result (λ lent. ops_of lent.items ≡ batch_view batch.now) }
{
    let room = Vec::with_capacity(alloc, batch.ops.len())?;
    let lent = with_each(room, &batch.ops)?;
    Ok(lent)
}

/// The operations of all batches, one batch behind the other.
pub fn all_lent(alloc: Global, batches: &[Batch]) -> Result<Vec<&Op>, WantMemory>
    ensures { IfOk result (λ lent. ops_of lent.items ≡ joined (map batch_view batches.now)) }
{
    let mut lent = Vec::with_capacity(alloc, room_for(batches))?;
    for batch in batches {
        lent = with_each(lent, &batch.ops)?;
    }
    Ok(lent)
}

// The room that the operations of all of them take.
fn room_for(batches: &[Batch]) -> usize {
    let mut room: usize = 0;
    for batch in batches {
        room = room.saturating_add(batch.ops.len());
    }
    room
}
