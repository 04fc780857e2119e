// The reply of a search.
ghost use Rattle.std.specs.Prelude.{◌≡◌, ◌≤◌, All, IfOk, IsTrue, None, OnOk, length, map, option_map};
ghost use Rattle.std.specs.Arc.{arc_value};
ghost use Rattle.fc_spec.specs.documents.World.{single};
ghost use Rattle.fc_spec.specs.laws.NumberedPaths.{AreNumberedFacetsOf, HasNumberedTopsOf};
ghost use Rattle.fc_spec.specs.laws.RefinedPaths.{IsBucketOf, val_in};
ghost use Rattle.fc_spec.specs.messages.Lengths.{put_all};
ghost use Rattle.fc_spec.specs.messages.WholeTrace.{whole_trace};
ghost use Rattle.fc_spec.specs.replies.Exact.{exact};
ghost use Rattle.fc_spec.specs.replies.Folded.{folded};
ghost use Rattle.fc_spec.specs.replies.Numbers.{numbered};
ghost use Rattle.fc_spec.specs.replies.Replied.{replied};
ghost use Rattle.fc_spec.specs.replies.WithTops.{with_tops};
ghost use Rattle.fc_spec.specs.requests.Paths.{at_root};
ghost use Rattle.fc_spec.specs.requests.Shape.{no_limits};
ghost use Rattle.fc_spec.specs.requests.ValidRequests.{IsValidRequest};
ghost use Rattle.fc_spec.specs.scripts.WorldLimits.{IsWithinLimits};
ghost use Rattle.fc_request.specs.RequestView.{IsRoot, request_view};
ghost use Rattle.fc_reply.specs.ReplyView.{reply_view};
ghost use Rattle.fc_kind.specs.Names.{Covers};
ghost use Rattle.fc_round.specs.Askable.{world_of};
ghost use Rattle.fc_search.specs.Schemas.{AreSame};

use crate::coordinating::distributed_reply;
use crate::laws::reply_laws;
use crate::replacing::replaced_reply;
use crate::{Probe, Turns};
use fc_base::WantMemory;
use fc_kind::FacetKind;
use fc_replaced::has_exact;
use fc_reply::Reply;
use fc_request::Request;
use fc_store::Generation;
use fc_unique::fold;
use std::alloc::Global;
use std::sync::Arc;
use std::thread::Threads;

/// The reply to a request over the generations of 1 to 64 shards of one schema, in the order of the shards, whatever `turns`
/// answers: the distributed one, folded, so that numbers of values and of buckets stand where they are asked for. With one worker
/// `turns` is asked once before each turn of a future which of the shards that are not done does it. With more it is never asked:
/// the shards that are asked in a round are cut into at most so many runs of neighbours, and each run, where there are more than
/// one, has a thread of its own where one can be made. Each shard's message comes as bytes, and `probe` is told of each once it is
/// there: its round, its shard and its length. Rounds count from 1: what exact facets print is found in the first two or three, and
/// the reply is made of those behind them, nine at most. After want of memory the probe has been told of some messages. Each number
/// is counted from the documents that the bucket around it counts. The buckets on refined paths are exact over all shards, with
/// their numbers; outermost facets that are exact or have no limit print the values of a single index over their domains, in their
/// order, with their counts, statistics and numbers; and without limits the reply is that of a single index with all the blocks,
/// folded too.
pub fn search<R: Threads + Sync, T: Turns, P: Probe>(
    rt: &R,
    alloc: Global,
    generations: &[Arc<Generation>],
    request: &Request,
    kinds: &[Box<dyn FacetKind>],
    turns: &mut T,
    workers: u32,
    probe: &mut P,
) -> Result<Reply, WantMemory>
    requires workers { (1 ≤ workers) × (workers ≤ 64) }
    requires covers { Covers (map name kinds.now) }
    requires some { 1 ≤ length generations.now }
    requires root { IsRoot request.now.root }
    requires valid { All (λ generation. IsValidRequest generation.schema (request_view request.now)) (map arc_value generations.now) }
    requires schema { AreSame (map (λ generation. generation.schema) (map arc_value generations.now)) }
    requires limits { IsWithinLimits (world_of (map arc_value generations.now)) }
    ensures reply { IfOk result (λ reply. reply_view reply
        ≡ replied (request_view request.now) (world_of (map arc_value generations.now))) }
    ensures root { IfOk result (λ reply. val_in (reply_view reply) ≡ None) }
    ensures numbers { IfOk result (λ reply. reply_view reply
        ≡ numbered (request_view request.now) (world_of (map arc_value generations.now))) }
    ensures refined { IfOk result (λ reply. IsBucketOf (request_view request.now) (world_of (map arc_value generations.now)) at_root
        (AreNumberedFacetsOf (request_view request.now) (world_of (map arc_value generations.now)) (request_view request.now).nodes at_root)
        (reply_view reply)) }
    ensures tops { IfOk result (λ reply. HasNumberedTopsOf (request_view request.now) (world_of (map arc_value generations.now))
        (reply_view reply)) }
    ensures single_index { IfOk result (λ reply. IsTrue (no_limits (request_view request.now).nodes)
        → reply_view reply ≡ folded (request_view request.now)
        (exact (request_view request.now) (single (world_of (map arc_value generations.now))))) }
    ensures trace { OnOk result (P.lengths probe.new
        ≡ option_map (put_all (whole_trace (request_view request.now) (world_of (map arc_value generations.now)))) (P.lengths probe.old)) }
{
    reply_laws();
    let reply = reply_of(
        rt,
        alloc,
        generations,
        request,
        kinds,
        turns,
        workers,
        probe,
    )?;
    let printed = fold(alloc, request, reply)?;
    Ok(printed)
}

// The reply before it is folded, of the distributed reply alone where no facet is exact.
fn reply_of<R: Threads + Sync, T: Turns, P: Probe>(
    rt: &R,
    alloc: Global,
    generations: &[Arc<Generation>],
    request: &Request,
    kinds: &[Box<dyn FacetKind>],
    turns: &mut T,
    workers: u32,
    probe: &mut P,
) -> Result<Reply, WantMemory>
    requires workers { 1 ≤ workers }
    requires covers { Covers (map name kinds.now) }
    requires some { 1 ≤ length generations.now }
    requires root { IsRoot request.now.root }
    requires valid { All (λ generation. IsValidRequest generation.schema (request_view request.now)) (map arc_value generations.now) }
    requires schema { AreSame (map (λ generation. generation.schema) (map arc_value generations.now)) }
    requires limits { IsWithinLimits (world_of (map arc_value generations.now)) }
    ensures reply { IfOk result (λ reply. reply_view reply
        ≡ with_tops (request_view request.now) (world_of (map arc_value generations.now))) }
    ensures trace { OnOk result (P.lengths probe.new
        ≡ option_map (put_all (whole_trace (request_view request.now) (world_of (map arc_value generations.now)))) (P.lengths probe.old)) }
{
    reply_laws();
    if has_exact(request) {
        let reply = replaced_reply(
            rt,
            alloc,
            generations,
            request,
            kinds,
            turns,
            workers,
            probe,
        )?;
        return Ok(reply);
    }
    let reply = distributed_reply(
        rt,
        alloc,
        generations,
        request,
        kinds,
        turns,
        workers,
        0,
        probe,
    )?;
    Ok(reply)
}
