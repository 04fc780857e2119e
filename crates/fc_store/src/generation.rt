// Generations of a shard.
ghost use Rattle.std.specs.Prelude.{◌≡◌, ◌+◌, ◌<◌, ◌≤◌, ◌++◌, [], ◌∷◌, length, map, All, IfOk, not};
ghost use Rattle.std.specs.Bool.{OnTrue};
ghost use Rattle.std.specs.List.{filter};
ghost use Rattle.std.specs.Arc.{arc_value};
ghost use Rattle.fc_spec.specs.documents.Live.{left_set, HasWholeBlocks};
ghost use Rattle.fc_spec.specs.documents.Operations.{after_ops, blocks_added, is_named};
ghost use Rattle.fc_spec.specs.documents.Schema.{texts_held};
ghost use Rattle.fc_spec.specs.documents.ValidBlocks.{IsBlockOf};
ghost use Rattle.fc_spec.specs.scripts.WorldLimits.{IsWithinLimits};
ghost use Rattle.fc_spec.specs.words.Lists.{joined};
ghost use Rattle.fc_docs.specs.View.{batch_view};
ghost use Rattle.fc_segment.specs.Merged.{blocks_each, live_blocks_of};
ghost use Rattle.fc_store.specs.Charters.{IsBatchOf};
ghost use Rattle.fc_store.specs.Named.{ops_of};
ghost use Rattle.fc_store.specs.OwnIds.{HaveOwnIds};
ghost use Rattle.fc_store.specs.Segments.{AreDense, AreSegmentsOf};
ghost use Rattle.fc_store.specs.Tiers.{AreTiered, sizes_of};

use crate::left::{left_segments, only_left};
use crate::lent::{all_lent, lent};
use crate::merging::with_added;
use crate::named::named;
use fc_base::{Schema, WantMemory};
use fc_docs::{Batch, Op};
use fc_docset::DocSet;
use fc_segment::Segment;
use std::alloc::Global;
use std::marker::Model;
use std::sync::Arc;

/// What the operations of a shard's first batches leave, which nothing changes. Its number is that of the batches. Generations share
/// their segments, of which each has at least twice as many documents as the next one, so they are few. A block that a later
/// operation deletes or overwrites stays in its segment, dead, until that is merged.
#[derive(Debug, Drop)]
pub struct Generation {
    schema: Arc<Schema>,
    number: u64,
    segments: Vec<Arc<Segment>>,
}

impl Model for Generation {
    ghost use Rattle.fc_store.specs.Generated.{Generated};

    ghost Value = { Generated };

    ghost use Rattle.fc_store.specs.Built.{generated, IsBuilt};

    ghost view = { generated };

    ghost invariant = { IsBuilt };
}

impl Generation {
    /// Generation 0, which has no block.
    pub fn first(alloc: Global, schema: Arc<Schema>) -> Result<Arc<Generation>, WantMemory>
        ensures { IfOk result (λ generation. arc_value generation
            ≡ record { schema = arc_value schema; number = 0; blocks = [] }) }
    {
        let segments = Vec::new(alloc);
        let first = Generation {
            schema,
            number: 0,
            segments,
        };
        Ok(Arc::new(alloc, first)?)
    }

    /// The generation after an earlier one and a commit of a batch: what the operations of the batch leave of its blocks, in
    /// their order.
    pub fn next(
        alloc: Global,
        earlier: &Generation,
        batch: &Batch,
    ) -> Result<Arc<Generation>, WantMemory>
        requires number { earlier.now.number < 4096 }
        requires batch { IsBatchOf earlier.now.schema (batch_view batch.now) }
        requires limits { IsWithinLimits ((earlier.now.blocks ++ blocks_added (batch_view batch.now)) ∷ []) }
        ensures { IfOk result (λ generation. arc_value generation
            ≡ record earlier.now {
              number = earlier.now.number + 1;
              blocks = after_ops earlier.now.blocks (batch_view batch.now);
            }) }
    {
        let next = Generation {
            schema: Arc::try_clone(&earlier.schema)?,
            number: earlier.number + 1,
            segments: behind_batch(alloc, earlier, batch)?,
        };
        Ok(Arc::new(alloc, next)?)
    }

    /// The generation after an earlier one and a commit of each of these batches: what the operations of them all leave of its blocks.
    /// They make one segment, whatever their number, of the blocks that they add and leave, and none where there is no such block.
    pub fn after(
        alloc: Global,
        earlier: &Generation,
        batches: Vec<Batch>,
    ) -> Result<Arc<Generation>, WantMemory>
        requires number { earlier.now.number + length batches.items ≤ 4096 }
        requires batches { IsBatchOf earlier.now.schema (joined (map batch_view batches.items)) }
        requires limits { IsWithinLimits ((earlier.now.blocks ++ blocks_added (joined (map batch_view batches.items))) ∷ []) }
        ensures { IfOk result (λ generation. arc_value generation
            ≡ record earlier.now {
              number = earlier.now.number + length batches.items;
              blocks = after_ops earlier.now.blocks (joined (map batch_view batches.items));
            }) }
    {
        let number = earlier.number + batches.len() as u64;
        let after = Generation {
            schema: Arc::try_clone(&earlier.schema)?,
            number,
            segments: behind_batches(alloc, earlier, batches)?,
        };
        Ok(Arc::new(alloc, after)?)
    }

    /// How many commits of the shard it holds.
    pub fn number(&self) -> u64
        ensures { result ≡ self.now.number }
    {
        self.number
    }

    /// The segments that hold its blocks, in order: its blocks are the live ones, and each segment says which of its own are. At least
    /// half of the documents of each are live.
    pub fn segments(&self) -> &[Arc<Segment>]
        ensures blocks { live_blocks_of (map arc_value result.now) ≡ self.now.blocks }
        ensures kinds { All (λ segment. segment.texts ≡ texts_held self.now.schema.fields)
            (map arc_value result.now) }
        ensures valid { All (IsBlockOf self.now.schema) (joined (blocks_each (map arc_value result.now))) }
        ensures limits { All (λ segment. IsWithinLimits (segment.blocks ∷ [])) (map arc_value result.now) }
        ensures whole { All (λ segment. HasWholeBlocks segment.blocks segment.live)
            (map arc_value result.now) }
        ensures tiers { AreTiered (sizes_of (map arc_value result.now)) }
        ensures dense { AreDense (map arc_value result.now) }
        ensures ids { HaveOwnIds self.now.blocks }
    {
        &self.segments
    }

    /// The same segments, shared, for whoever works on them longer than the generation is lent.
    pub fn share(&self, alloc: Global) -> Result<Vec<Arc<Segment>>, WantMemory>
        ensures blocks { IfOk result (λ shared. live_blocks_of (map arc_value shared.items) ≡ self.now.blocks) }
        ensures kinds { IfOk result (λ shared. All (λ segment. segment.texts ≡ texts_held self.now.schema.fields)
            (map arc_value shared.items)) }
        ensures valid { IfOk result (λ shared. All (IsBlockOf self.now.schema)
            (joined (blocks_each (map arc_value shared.items)))) }
        ensures limits { IfOk result (λ shared. All (λ segment. IsWithinLimits (segment.blocks ∷ []))
            (map arc_value shared.items)) }
        ensures whole { IfOk result (λ shared. All (λ segment. HasWholeBlocks segment.blocks segment.live)
            (map arc_value shared.items)) }
        ensures tiers { IfOk result (λ shared. AreTiered (sizes_of (map arc_value shared.items))) }
        ensures dense { IfOk result (λ shared. AreDense (map arc_value shared.items)) }
    {
        shared(alloc, self.segments())
    }
}

// The segments of a generation without the blocks that operations name; and the positions of the blocks that they add and leave.
fn left_by(
    alloc: Global,
    earlier: &Generation,
    ops: &[&Op],
) -> Result<(Vec<Arc<Segment>>, DocSet), WantMemory>
    requires { IsBatchOf earlier.now.schema (ops_of ops.now) }
    ensures blocks { IfOk result (λ made. live_blocks_of (map arc_value made.0.items)
        ≡ filter (λ b. not (is_named (ops_of ops.now) b)) earlier.now.blocks) }
    ensures kept { IfOk result (λ made. AreSegmentsOf earlier.now.schema (map arc_value made.0.items)) }
    ensures tiers { IfOk result (λ made. AreTiered (sizes_of (map arc_value made.0.items))) }
    ensures left { IfOk result (λ made. made.1 ≡ left_set (ops_of ops.now)) }
    ensures ids { HaveOwnIds earlier.now.blocks }
{
    // its first field holds texts
    let _fields = earlier.schema.fields();
    let segments = earlier.segments();
    let (left, ids) = named(alloc, ops)?;
    let kept = left_segments(alloc, segments, &ids)?;
    Ok((kept, left))
}

// The same of a batch.
fn left_by_batch(
    alloc: Global,
    earlier: &Generation,
    batch: &Batch,
) -> Result<(Vec<Arc<Segment>>, DocSet), WantMemory>
    requires { IsBatchOf earlier.now.schema (batch_view batch.now) }
    ensures blocks { IfOk result (λ made. live_blocks_of (map arc_value made.0.items)
        ≡ filter (λ b. not (is_named (batch_view batch.now) b)) earlier.now.blocks) }
    ensures kept { IfOk result (λ made. AreSegmentsOf earlier.now.schema (map arc_value made.0.items)) }
    ensures tiers { IfOk result (λ made. AreTiered (sizes_of (map arc_value made.0.items))) }
    ensures left { IfOk result (λ made. made.1 ≡ left_set (batch_view batch.now)) }
    ensures ids { IfOk result (λ made. HaveOwnIds earlier.now.blocks) }
{
    let ops = lent(alloc, batch)?;
    let made = left_by(alloc, earlier, &ops)?;
    Ok(made)
}

// The same of several batches.
fn left_by_batches(
    alloc: Global,
    earlier: &Generation,
    batches: &[Batch],
) -> Result<(Vec<Arc<Segment>>, DocSet), WantMemory>
    requires { IsBatchOf earlier.now.schema (joined (map batch_view batches.now)) }
    ensures blocks { IfOk result (λ made. live_blocks_of (map arc_value made.0.items)
        ≡ filter (λ b. not (is_named (joined (map batch_view batches.now)) b)) earlier.now.blocks) }
    ensures kept { IfOk result (λ made. AreSegmentsOf earlier.now.schema (map arc_value made.0.items)) }
    ensures tiers { IfOk result (λ made. AreTiered (sizes_of (map arc_value made.0.items))) }
    ensures left { IfOk result (λ made. made.1 ≡ left_set (joined (map batch_view batches.now))) }
    ensures ids { IfOk result (λ made. HaveOwnIds earlier.now.blocks) }
{
    let ops = all_lent(alloc, batches)?;
    let made = left_by(alloc, earlier, &ops)?;
    Ok(made)
}

// The segments behind a batch: those of a generation without the blocks that it names, and one of all that it adds, of which those are
// live that it leaves.
fn after_batch(
    alloc: Global,
    earlier: &Generation,
    batch: &Batch,
) -> Result<Vec<Arc<Segment>>, WantMemory>
    requires batch { IsBatchOf earlier.now.schema (batch_view batch.now) }
    requires limits { IsWithinLimits ((earlier.now.blocks ++ blocks_added (batch_view batch.now)) ∷ []) }
    ensures blocks { IfOk result (λ made. live_blocks_of (map arc_value made.items)
        ≡ after_ops earlier.now.blocks (batch_view batch.now)) }
    ensures kept { IfOk result (λ made. AreSegmentsOf earlier.now.schema (map arc_value made.items)) }
    ensures tiers { IfOk result (λ made. AreTiered (sizes_of (map arc_value made.items))) }
    ensures dense { IfOk result (λ made. AreDense (map arc_value made.items)) }
    ensures ids { IfOk result (λ made. HaveOwnIds (live_blocks_of (map arc_value made.items))) }
{
    let (kept, left) = left_by_batch(alloc, earlier, batch)?;
    let all = Segment::build(alloc, &earlier.schema, batch)?;
    let added = all.with_live(alloc, left)?;
    let made = with_added(alloc, &earlier.schema, kept, added)?;
    Ok(made)
}

// The segments behind batches: those of a generation without the blocks that they name, and one of the blocks that they add and leave.
fn after_batches(
    alloc: Global,
    earlier: &Generation,
    batches: Vec<Batch>,
) -> Result<Vec<Arc<Segment>>, WantMemory>
    requires batch { IsBatchOf earlier.now.schema (joined (map batch_view batches.items)) }
    requires limits { IsWithinLimits ((earlier.now.blocks ++ blocks_added (joined (map batch_view batches.items))) ∷ []) }
    ensures blocks { IfOk result (λ made. live_blocks_of (map arc_value made.items)
        ≡ after_ops earlier.now.blocks (joined (map batch_view batches.items))) }
    ensures kept { IfOk result (λ made. AreSegmentsOf earlier.now.schema (map arc_value made.items)) }
    ensures tiers { IfOk result (λ made. AreTiered (sizes_of (map arc_value made.items))) }
    ensures dense { IfOk result (λ made. AreDense (map arc_value made.items)) }
    ensures ids { IfOk result (λ made. HaveOwnIds (live_blocks_of (map arc_value made.items))) }
{
    let (kept, left) = left_by_batches(alloc, earlier, &batches)?;
    let only = only_left(alloc, batches, &left)?;
    let added = Segment::of_batches(alloc, &earlier.schema, only)?;
    let made = with_added(alloc, &earlier.schema, kept, added)?;
    Ok(made)
}

// The segments of a generation, shared.
fn same(alloc: Global, earlier: &Generation) -> Result<Vec<Arc<Segment>>, WantMemory>
    ensures blocks { IfOk result (λ made. live_blocks_of (map arc_value made.items) ≡ earlier.now.blocks) }
    ensures kept { IfOk result (λ made. AreSegmentsOf earlier.now.schema (map arc_value made.items)) }
    ensures tiers { IfOk result (λ made. AreTiered (sizes_of (map arc_value made.items))) }
    ensures dense { IfOk result (λ made. AreDense (map arc_value made.items)) }
    ensures ids { HaveOwnIds earlier.now.blocks }
{
    let segments = earlier.segments();
    let made = shared(alloc, segments)?;
    Ok(made)
}

// The segments behind a batch: the same, shared, where it has no operation.
fn behind_batch(
    alloc: Global,
    earlier: &Generation,
    batch: &Batch,
) -> Result<Vec<Arc<Segment>>, WantMemory>
    requires batch { IsBatchOf earlier.now.schema (batch_view batch.now) }
    requires limits { IsWithinLimits ((earlier.now.blocks ++ blocks_added (batch_view batch.now)) ∷ []) }
    ensures blocks { IfOk result (λ made. live_blocks_of (map arc_value made.items)
        ≡ after_ops earlier.now.blocks (batch_view batch.now)) }
    ensures kept { IfOk result (λ made. AreSegmentsOf earlier.now.schema (map arc_value made.items)) }
    ensures tiers { IfOk result (λ made. AreTiered (sizes_of (map arc_value made.items))) }
    ensures dense { IfOk result (λ made. AreDense (map arc_value made.items)) }
    ensures ids { IfOk result (λ made. HaveOwnIds (live_blocks_of (map arc_value made.items))) }
{
    if batch.ops.is_empty() {
        let made = same(alloc, earlier)?;
        return Ok(made);
    }
    let made = after_batch(alloc, earlier, batch)?;
    Ok(made)
}

// The segments behind batches: the same, shared, where they have no operation.
fn behind_batches(
    alloc: Global,
    earlier: &Generation,
    batches: Vec<Batch>,
) -> Result<Vec<Arc<Segment>>, WantMemory>
    requires batch { IsBatchOf earlier.now.schema (joined (map batch_view batches.items)) }
    requires limits { IsWithinLimits ((earlier.now.blocks ++ blocks_added (joined (map batch_view batches.items))) ∷ []) }
    ensures blocks { IfOk result (λ made. live_blocks_of (map arc_value made.items)
        ≡ after_ops earlier.now.blocks (joined (map batch_view batches.items))) }
    ensures kept { IfOk result (λ made. AreSegmentsOf earlier.now.schema (map arc_value made.items)) }
    ensures tiers { IfOk result (λ made. AreTiered (sizes_of (map arc_value made.items))) }
    ensures dense { IfOk result (λ made. AreDense (map arc_value made.items)) }
    ensures ids { IfOk result (λ made. HaveOwnIds (live_blocks_of (map arc_value made.items))) }
{
    if are_empty(&batches) {
        let made = same(alloc, earlier)?;
        return Ok(made);
    }
    let made = after_batches(alloc, earlier, batches)?;
    Ok(made)
}

// Whether batches have no operation.
fn are_empty(batches: &[Batch]) -> bool
    ensures { OnTrue result (joined (map batch_view batches.now) ≡ []) }
{
    for batch in batches {
        if !batch.ops.is_empty() {
            return false;
        }
    }
    true
}

// Shares segments.
fn shared(alloc: Global, segments: &[Arc<Segment>]) -> Result<Vec<Arc<Segment>>, WantMemory>
    ensures { IfOk result (λ shared. map arc_value shared.items ≡ map arc_value segments.now) }
{
    let mut shared = Vec::with_capacity(alloc, segments.len())?;
    for segment in segments {
        shared.push(Arc::try_clone(segment)?)?;
    }
    Ok(shared)
}
