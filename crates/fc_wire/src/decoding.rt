// Messages are read.
ghost use Rattle.std.specs.Prelude.{IfOk, map};
ghost use Rattle.fc_spec.specs.messages.Message.{Partials};
ghost use Rattle.fc_spec.specs.messages.Nesting.{Spells};
ghost use Rattle.fc_base.specs.Answers.{Answers, one_fault};
ghost use Rattle.fc_partial.specs.BucketView.{bucket_view, node_view, message_view};
ghost use Rattle.fc_wire.specs.Faults.{IsFault};
ghost use Rattle.fc_wire.specs.FieldReading.{many};
ghost use Rattle.fc_wire.specs.Reading.{part_at, node_at, whole_of, message_of};

use crate::WireFault;
use crate::reading::{key_at, stats_at, u64_at};
use crate::room::places_for;
use fc_base::Refusal;
use fc_partial::{Message, PartialBucket, PartialNode};
use std::alloc::Global;
use std::mem::size_of;

// What a bucket and a node take in memory.
const BUCKET: usize = size_of::<PartialBucket>();

const NODE: usize = size_of::<PartialNode>();

#[cycle(decoding)]
#[tactic(auto, unfolding(crate::specs::Reading::part_at, crate::specs::Reading::part_with, crate::specs::Reading::node_at, crate::specs::FieldReading::counted))]
fn bucket_at(
    alloc: Global,
    depth: u32,
    bytes: &[u8],
) -> Result<(PartialBucket, &[u8]), Refusal<WireFault>>
    ensures { Answers (λ x. (bucket_view x.0, x.1.now)) one_fault result (part_at depth bytes.now) }
{
    if depth == 0 {
        return Err(Refusal::Fault(WireFault));
    }
    let (key, rest) = key_at(alloc, bytes)?;
    let (stats, rest) = stats_at(alloc, rest)?;
    let (count, rest) = u64_at(rest)?;
    let (nodes, rest) = nodes_at(alloc, depth - 1, count, rest)?;
    Ok((PartialBucket { key, stats, nodes }, rest))
}

#[cycle(decoding)]
fn buckets_at(
    alloc: Global,
    depth: u32,
    count: u64,
    bytes: &[u8],
) -> Result<(Vec<PartialBucket>, &[u8]), Refusal<WireFault>>
    ensures { Answers (λ x. (map bucket_view x.0.items, x.1.now)) one_fault result (many (part_at depth) count bytes.now) }
{
    let mut buckets = Vec::with_capacity(alloc, places_for(count, BUCKET, bytes))?;
    let mut rest = bytes;
    for _ in 0..count {
        let (bucket, after) = bucket_at(alloc, depth, rest)?;
        buckets.push(bucket)?;
        rest = after;
    }
    Ok((buckets, rest))
}

#[cycle(decoding)]
#[tactic(auto, unfolding(crate::specs::Reading::node_at, crate::specs::Reading::node_with, crate::specs::FieldReading::counted))]
fn node_at(
    alloc: Global,
    depth: u32,
    bytes: &[u8],
) -> Result<(PartialNode, &[u8]), Refusal<WireFault>>
    ensures { Answers (λ x. (node_view x.0, x.1.now)) one_fault result (node_at depth bytes.now) }
{
    let (count, rest) = u64_at(bytes)?;
    let (buckets, rest) = buckets_at(alloc, depth, count, rest)?;
    Ok((PartialNode { buckets }, rest))
}

#[cycle(decoding)]
fn nodes_at(
    alloc: Global,
    depth: u32,
    count: u64,
    bytes: &[u8],
) -> Result<(Vec<PartialNode>, &[u8]), Refusal<WireFault>>
    ensures { Answers (λ x. (map node_view x.0.items, x.1.now)) one_fault result (many (node_at depth) count bytes.now) }
{
    let mut nodes = Vec::with_capacity(alloc, places_for(count, NODE, bytes))?;
    let mut rest = bytes;
    for _ in 0..count {
        let (node, after) = node_at(alloc, depth, rest)?;
        nodes.push(node)?;
        rest = after;
    }
    Ok((nodes, rest))
}

#[tactic(auto, unfolding(crate::specs::Reading::whole_of, crate::specs::FieldReading::counted))]
fn whole_of(alloc: Global, bytes: &[u8]) -> Result<Message, Refusal<WireFault>>
    ensures { Answers message_view one_fault result (whole_of bytes.now) }
{
    let (count, rest) = u64_at(bytes)?;
    let (buckets, rest) = buckets_at(alloc, 9, count, rest)?;
    if !rest.is_empty() {
        return Err(Refusal::Fault(WireFault));
    }
    Ok(Message { buckets })
}

#[tactic(auto, unfolding(crate::specs::Reading::message_of))]
fn message_of(alloc: Global, bytes: &[u8]) -> Result<Message, Refusal<WireFault>>
    ensures { Answers message_view one_fault result (message_of bytes.now) }
{
    match bytes {
        [b'M', rest @ ..] => whole_of(alloc, rest),
        _ => Err(Refusal::Fault(WireFault)),
    }
}

/// The message that the bytes spell. It is a fault where they spell none: where they end too early or
/// go on behind the message, have a byte that begins no key or no statistic, a text that is not
/// UTF-8, or buckets that nest more than nine deep. For a list no more memory is reserved than the
/// bytes that are left, whatever number stands before it.
pub fn decode(alloc: Global, bytes: &[u8]) -> Result<Message, Refusal<WireFault>>
    ensures message { IfOk result (λ message. Spells bytes.now (message_view message)) }
    ensures fault { IsFault result → (m : Partials) → Spells bytes.now m → ⊥ }
{
    message_of(alloc, bytes)
}
