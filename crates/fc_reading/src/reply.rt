// The reply over a reading.
ghost use Rattle.std.specs.Prelude.{◌≡◌, IfOk};
ghost use Rattle.fc_spec.specs.replies.Distributed as definition;
ghost use Rattle.fc_reply.specs.ReplyView.{reply_view};
ghost use Rattle.fc_request.specs.NodeView.{inner_view};
ghost use Rattle.fc_refine.specs.CountableRanges.{AreCountable};
ghost use Rattle.fc_reading.specs.Distinct.{AreDistinct};

use crate::BucketReading;
use crate::tree::facets;
use fc_base::WantMemory;
use fc_reply::{Reply, ReplyBucket};
use fc_request::Node;
use std::alloc::Global;

/// The reply whose root is a bucket that carries these shards, with the nodes that are nested in one: as the
/// definition has it over this reading.
pub fn reply_over<R: BucketReading>(
    alloc: Global,
    reading: &R,
    node: &Node,
    shards: &[u32],
    bucket: &R::Bucket,
) -> Result<Reply, WantMemory>
    requires countable { AreCountable (inner_view node.now) }
    requires distinct { AreDistinct shards.now }
    ensures { IfOk result (λ reply. reply_view reply ≡ definition.reply_over
        (R.reading reading.now) (inner_view node.now) shards.now (R.held bucket.now)) }
{
    let stats = node.stats(alloc)?;
    let stats = reading.stats_on(alloc, &stats, shards, bucket)?;
    let facets = facets(alloc, reading, node, shards, bucket, &stats)?;
    Ok(Reply {
        root: ReplyBucket {
            val: None,
            count: stats.count,
            facets,
        },
    })
}
