// The reply to a request with exact facets.
ghost use Rattle.std.specs.Prelude.{◌≡◌, ◌≤◌, All, IfOk, OnOk, false, length, map, option_map};
ghost use Rattle.std.specs.Arc.{arc_value};
ghost use Rattle.fc_spec.specs.messages.Lengths.{put_all};
ghost use Rattle.fc_spec.specs.messages.WholeTrace.{whole_trace};
ghost use Rattle.fc_spec.specs.replies.WithTops.{with_tops};
ghost use Rattle.fc_spec.specs.requests.Shape.{no_exact};
ghost use Rattle.fc_spec.specs.requests.ValidRequests.{IsValidRequest};
ghost use Rattle.fc_spec.specs.scripts.WorldLimits.{IsWithinLimits};
ghost use Rattle.fc_request.specs.RequestView.{IsRoot, request_view};
ghost use Rattle.fc_reply.specs.ReplyView.{reply_view};
ghost use Rattle.fc_kind.specs.Names.{Covers};
ghost use Rattle.fc_round.specs.Askable.{world_of};
ghost use Rattle.fc_search.specs.Schemas.{AreSame};

use crate::coordinating::distributed_reply;
use crate::laws::replacing_laws;
use crate::schemas::all_own_blocks;
use crate::{Probe, Turns};
use fc_base::WantMemory;
use fc_kind::FacetKind;
use fc_replaced::{only_exact, replaced, restored};
use fc_reply::Reply;
use fc_request::Request;
use fc_store::Generation;
use fc_tops::find_tops;
use std::alloc::Global;
use std::sync::Arc;
use std::thread::Threads;

/// The top values are found first, of the exact facets alone; the reply is then put together from that to the request with query
/// facets in their place.
pub(crate) fn replaced_reply<R: Threads + Sync, T: Turns, P: Probe>(
    rt: &R,
    alloc: Global,
    generations: &[Arc<Generation>],
    request: &Request,
    kinds: &[Box<dyn FacetKind>],
    turns: &mut T,
    workers: u32,
    probe: &mut P,
) -> Result<Reply, WantMemory>
    requires workers { 1 ≤ workers }
    requires covers { Covers (map name kinds.now) }
    requires some { 1 ≤ length generations.now }
    requires valid { All (λ generation. IsValidRequest generation.schema (request_view request.now)) (map arc_value generations.now) }
    requires schema { AreSame (map (λ generation. generation.schema) (map arc_value generations.now)) }
    requires limits { IsWithinLimits (world_of (map arc_value generations.now)) }
    requires exact { no_exact (request_view request.now).nodes ≡ false }
    ensures reply { IfOk result (λ reply. reply_view reply
        ≡ with_tops (request_view request.now) (world_of (map arc_value generations.now))) }
    ensures trace { OnOk result (P.lengths probe.new
        ≡ option_map (put_all (whole_trace (request_view request.now) (world_of (map arc_value generations.now)))) (P.lengths probe.old)) }
{
    replacing_laws();
    all_own_blocks(generations);
    let exact = only_exact(alloc, request)?;
    let found = find_tops(rt, alloc, generations, &exact, kinds, turns, workers, probe)?;
    let made = replaced(alloc, request, &found.tops)?;
    let merged = distributed_reply(
        rt,
        alloc,
        generations,
        &made,
        kinds,
        turns,
        workers,
        found.rounds,
        probe,
    )?;
    let reply = restored(alloc, request, &found.tops, merged)?;
    Ok(reply)
}
