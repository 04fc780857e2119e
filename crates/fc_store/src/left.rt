// What operations leave of segments, and of the blocks that they add.
ghost use Rattle.std.specs.Prelude.{◌≡◌, ◌+◌, ◌<◌, ◌≤◌, ◌&&◌, ◌++◌, ◌∷◌, [], drop, length, map, slice_index_or, false, true, All, IfOk, OnOk};
ghost use Rattle.std.specs.Arc.{arc_value};
ghost use Rattle.fc_spec.specs.documents.Document.{adding};
ghost use Rattle.fc_spec.specs.documents.Live.{blocks_where, live_in, HasWholeBlocks};
ghost use Rattle.fc_spec.specs.documents.Operations.{blocks_added};
ghost use Rattle.fc_spec.specs.documents.Sets.{zip_with};
ghost use Rattle.fc_spec.specs.documents.Totals.{document_total};
ghost use Rattle.fc_spec.specs.words.Lists.{joined};
ghost use Rattle.fc_docs.specs.View.{batch_view, op_view};
ghost use Rattle.fc_store.specs.Named.{has_one_of, op_size, texts_of};
ghost use Rattle.fc_store.specs.Segments.{without};

use fc_base::{Name, WantMemory};
use fc_docs::{Batch, Op};
use fc_docset::DocSet;
use fc_segment::Segment;
use std::alloc::Global;
use std::sync::Arc;

// The positions of a segment's live blocks that have one of the ids.
fn live_with_ids(alloc: Global, segment: &Segment, ids: &[&Name]) -> Result<DocSet, WantMemory>
    requires { slice_index_or segment.now.texts 0 false ≡ true }
    ensures { IfOk result (λ found. found
        ≡ zip_with ◌&&◌ (blocks_where (has_one_of (texts_of ids.now)) segment.now.blocks) segment.now.live) }
{
    let mut found = DocSet::empty(alloc, segment.doc_count())?;
    for id in ids {
        segment.parents_with_id(id.bytes(), &mut found);
    }
    found.and_with(segment.live());
    Ok(found)
}

// A segment without the blocks that have one of the ids: the same, shared, where none of them is live.
fn without_ids(
    alloc: Global,
    segment: &Arc<Segment>,
    ids: &[&Name],
) -> Result<Arc<Segment>, WantMemory>
    requires { slice_index_or (arc_value segment.now).texts 0 false ≡ true }
    ensures { IfOk result (λ left. arc_value left
        ≡ without (has_one_of (texts_of ids.now)) (arc_value segment.now)) }
{
    let live = segment.live();
    let gone = live_with_ids(alloc, segment, ids)?;
    if gone.count() == 0 {
        let same = Arc::try_clone(segment)?;
        return Ok(same);
    }
    let mut others = live.copy(alloc)?;
    others.without(&gone);
    let left = segment.with_live(alloc, others)?;
    Ok(Arc::new(alloc, left)?)
}

/// The segments without the blocks that have one of the ids, with room for one more. One of which no live block has one is shared as
/// it is, of the others the columns are. An id is looked up in each segment.
pub fn left_segments(
    alloc: Global,
    segments: &[Arc<Segment>],
    ids: &[&Name],
) -> Result<Vec<Arc<Segment>>, WantMemory>
    requires { All (λ segment. slice_index_or segment.texts 0 false ≡ true)
        (map arc_value segments.now) }
    ensures { IfOk result (λ left. map arc_value left.items
        ≡ map (without (has_one_of (texts_of ids.now))) (map arc_value segments.now)) }
{
    let mut left = Vec::with_capacity(alloc, segments.len() + 1)?;
    for segment in segments {
        left.push(without_ids(alloc, segment, ids)?)?;
    }
    Ok(left)
}

// Puts an operation behind others, if it adds a block, which begins at a position, and that is in the set; and answers where it ends.
fn push_if_left(kept: &mut Vec<Op>, op: Op, left: &DocSet, at: u32) -> Result<u32, WantMemory>
    requires fits { at + op_size (op_view op) ≤ length left.now }
    ensures end { IfOk result (λ end. end ≡ at + op_size (op_view op)) }
    ensures kept { OnOk result (map op_view kept.new.items ≡ map op_view kept.old.items
        ++ map adding (live_in (blocks_added (op_view op ∷ [])) (drop at left.now))) }
{
    // positions are below 2 ^ 32
    let _len = left.len();
    match op {
        Op::Add(block) => {
            let parent = at + block.children.len() as u32;
            if left.contains(parent) {
                kept.push(Op::Add(block))?;
            }
            Ok(parent + 1)
        }
        Op::Delete(_) => Ok(at),
    }
}

// A batch that adds those of the blocks that a batch adds that are in a set, where the first of them begins at a position; and where the
// last one ends.
fn left_batch(
    alloc: Global,
    batch: Batch,
    left: &DocSet,
    from: u32,
) -> Result<(Batch, u32), WantMemory>
    requires fits { from + document_total (blocks_added (batch_view batch)) ≤ length left.now }
    ensures only { IfOk result (λ made. batch_view made.0
        ≡ map adding (live_in (blocks_added (batch_view batch)) (drop from left.now))) }
    ensures end { IfOk result (λ made. made.1 ≡ from + document_total (blocks_added (batch_view batch))) }
{
    let mut ops = Vec::new(alloc);
    let mut at = from;
    for op in batch.ops {
        at = push_if_left(&mut ops, op, left, at)?;
    }
    Ok((Batch { ops }, at))
}

// Batches that add those of the blocks that batches add that are in a set.
fn left_batches(alloc: Global, batches: Vec<Batch>, left: &DocSet) -> Result<Vec<Batch>, WantMemory>
    requires { length left.now ≡ document_total (blocks_added (joined (map batch_view batches.items))) }
    ensures { IfOk result (λ only. blocks_added (joined (map batch_view only.items))
        ≡ live_in (blocks_added (joined (map batch_view batches.items))) left.now) }
{
    let mut made = Vec::with_capacity(alloc, batches.len())?;
    let mut at = 0;
    for batch in batches {
        let (only, end) = left_batch(alloc, batch, left, at)?;
        made.push(only)?;
        at = end;
    }
    Ok(made)
}

/// Batches that add those of the blocks that batches add that are in a set: the same batches, where all of them are.
pub fn only_left(
    alloc: Global,
    batches: Vec<Batch>,
    left: &DocSet,
) -> Result<Vec<Batch>, WantMemory>
    requires { length left.now ≡ document_total (blocks_added (joined (map batch_view batches.items))) }
    ensures { IfOk result (λ only. blocks_added (joined (map batch_view only.items))
        ≡ live_in (blocks_added (joined (map batch_view batches.items))) left.now) }
{
    if left.count() == left.len() {
        return Ok(batches);
    }
    let only = left_batches(alloc, batches, left)?;
    Ok(only)
}
