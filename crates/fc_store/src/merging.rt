// Segments with one more, and the last of them merged.
ghost use Rattle.std.specs.Prelude.{◌≡◌, ◌<◌, ◌-◌, ◌++◌, ◌∷◌, [], length, map, take, drop, All, IfOk};
ghost use Rattle.std.specs.Arc.{arc_value};
ghost use Rattle.fc_spec.specs.scripts.WorldLimits.{IsWithinLimits};
ghost use Rattle.fc_segment.specs.Merged.{live_blocks, live_blocks_of};
ghost use Rattle.fc_store.specs.Segments.{if_any, merged, AreDense, AreSegmentsOf};
ghost use Rattle.fc_store.specs.Tiers.{AreTiered, sizes_of};

use crate::tiers::{first_sparse, merged_from};
use fc_base::{Schema, WantMemory};
use fc_segment::Segment;
use std::alloc::Global;
use std::sync::Arc;

// Segments with one more behind them, if that has a document.
fn with_one(
    alloc: Global,
    segments: Vec<Arc<Segment>>,
    one: Segment,
) -> Result<Vec<Arc<Segment>>, WantMemory>
    ensures { IfOk result (λ made. map arc_value made.items ≡ map arc_value segments.items ++ if_any one) }
{
    let mut made = segments;
    if one.doc_count() > 0 {
        made.push(Arc::new(alloc, one)?)?;
    }
    Ok(made)
}

// The segments, with those from a place on merged into one of their live blocks, if there is one.
fn merged_behind(
    alloc: Global,
    schema: &Schema,
    segments: Vec<Arc<Segment>>,
    place: usize,
) -> Result<Vec<Arc<Segment>>, WantMemory>
    requires kept { AreSegmentsOf schema.now (map arc_value segments.items) }
    requires within { place < length segments.items }
    ensures { IfOk result (λ made. map arc_value made.items ≡ take place (map arc_value segments.items)
        ++ if_any (merged schema.now (drop place (map arc_value segments.items)))) }
{
    let mut made = segments;
    let last = made.split_off(place)?;
    let one = Segment::merge(alloc, schema, &last)?;
    let made = with_one(alloc, made, one)?;
    Ok(made)
}

// Merges so many of the last segments that each has at least twice as many documents as the next one, where all but the last do, and that
// at least half of the documents of each are live.
fn leveled(
    alloc: Global,
    schema: &Schema,
    segments: Vec<Arc<Segment>>,
) -> Result<Vec<Arc<Segment>>, WantMemory>
    requires kept { AreSegmentsOf schema.now (map arc_value segments.items) }
    requires some { All (λ size. 0 < size) (sizes_of (map arc_value segments.items)) }
    requires tiers { AreTiered (take (length segments.items - 1) (sizes_of (map arc_value segments.items))) }
    requires limits { IsWithinLimits (live_blocks_of (map arc_value segments.items) ∷ []) }
    ensures blocks { IfOk result (λ made. live_blocks_of (map arc_value made.items)
        ≡ live_blocks_of (map arc_value segments.items)) }
    ensures kept { IfOk result (λ made. AreSegmentsOf schema.now (map arc_value made.items)) }
    ensures tiers { IfOk result (λ made. AreTiered (sizes_of (map arc_value made.items))) }
    ensures dense { IfOk result (λ made. AreDense (map arc_value made.items)) }
{
    if segments.is_empty() {
        return Ok(segments);
    }
    let sparse = first_sparse(&segments);
    let place = merged_from(&segments, sparse)?;
    if place + 1 == segments.len() && sparse == segments.len() {
        return Ok(segments);
    }
    let made = merged_behind(alloc, schema, segments, place)?;
    Ok(made)
}

/// Segments with one more behind them, if it has a document; then so many of the last are merged that each has at least twice as many
/// documents as the next one, and that at least half of the documents of each are live.
pub fn with_added(
    alloc: Global,
    schema: &Schema,
    segments: Vec<Arc<Segment>>,
    added: Segment,
) -> Result<Vec<Arc<Segment>>, WantMemory>
    requires kept { AreSegmentsOf schema.now (map arc_value segments.items) }
    requires tiers { AreTiered (sizes_of (map arc_value segments.items)) }
    requires added { AreSegmentsOf schema.now (added ∷ []) }
    requires limits { IsWithinLimits ((live_blocks_of (map arc_value segments.items) ++ live_blocks added) ∷ []) }
    ensures blocks { IfOk result (λ made. live_blocks_of (map arc_value made.items)
        ≡ live_blocks_of (map arc_value segments.items) ++ live_blocks added) }
    ensures kept { IfOk result (λ made. AreSegmentsOf schema.now (map arc_value made.items)) }
    ensures tiers { IfOk result (λ made. AreTiered (sizes_of (map arc_value made.items))) }
    ensures dense { IfOk result (λ made. AreDense (map arc_value made.items)) }
{
    let all = with_one(alloc, segments, added)?;
    let made = leveled(alloc, schema, all)?;
    Ok(made)
}
