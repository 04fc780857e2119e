// Messages are written.
ghost use Rattle.std.specs.Prelude.{◌≡◌, ◌≤◌, ◌++◌, IfOk, OnOk};
ghost use Rattle.fc_spec.specs.messages.MessageBytes.{partials_bytes, rows_bytes};
ghost use Rattle.fc_spec.specs.messages.Nesting.{nesting, Spells};
ghost use Rattle.fc_partial.specs.BucketView.{buckets_view, rows_view, message_view};
ghost use Rattle.fc_wire.specs.Fitting.{BucketsFit, NodesFit};

use crate::room::room_of;
use crate::writing::{put_key, put_length, put_stats};
use fc_base::WantMemory;
use fc_partial::{Message, PartialBucket, PartialNode};
use std::alloc::Global;

#[cycle(encoding)]
fn put_buckets(out: &mut Vec<u8>, buckets: &[PartialBucket]) -> Result<(), WantMemory>
    ensures bytes { OnOk result (out.new.items ≡ out.old.items ++ partials_bytes (buckets_view buckets.now)) }
    ensures fit { OnOk result (BucketsFit (buckets_view buckets.now)) }
{
    for bucket in buckets {
        put_key(out, &bucket.key)?;
        put_stats(out, &bucket.stats)?;
        put_length(out, bucket.nodes.len())?;
        put_nodes(out, &bucket.nodes)?;
    }
    Ok(())
}

#[cycle(encoding)]
fn put_nodes(out: &mut Vec<u8>, nodes: &[PartialNode]) -> Result<(), WantMemory>
    ensures bytes { OnOk result (out.new.items ≡ out.old.items ++ rows_bytes (rows_view nodes.now)) }
    ensures fit { OnOk result (NodesFit (rows_view nodes.now)) }
{
    for node in nodes {
        put_length(out, node.buckets.len())?;
        put_buckets(out, &node.buckets)?;
    }
    Ok(())
}

/// The bytes that spell the message, whose buckets nest at most nine deep. Its own buckets are the
/// first level.
pub fn encode(alloc: Global, message: &Message) -> Result<Vec<u8>, WantMemory>
    requires { nesting (message_view message.now) ≤ 9 }
    ensures { IfOk result (λ bytes. Spells bytes.items (message_view message.now)) }
{
    let mut out = Vec::with_capacity(alloc, room_of(message))?;
    out.push(b'M')?;
    put_length(&mut out, message.buckets.len())?;
    put_buckets(&mut out, &message.buckets)?;
    Ok(out)
}
