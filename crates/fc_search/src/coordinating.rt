// The rounds of the coordinator, and the reply that it makes.
ghost use Rattle.std.specs.Prelude.{◌≡◌, ◌≤◌, IfOk, OnOk, length, map, option_map};
ghost use Rattle.std.specs.Arc.{arc_value};
ghost use Rattle.fc_spec.specs.messages.Lengths.{put_all};
ghost use Rattle.fc_spec.specs.messages.Trace.{trace};
ghost use Rattle.fc_spec.specs.messages.WholeTrace.{behind_rounds};
ghost use Rattle.fc_spec.specs.replies.Distributed.{distributed};
ghost use Rattle.fc_request.specs.RequestView.{request_view};
ghost use Rattle.fc_reply.specs.ReplyView.{reply_view};
ghost use Rattle.fc_kind.specs.Names.{Covers};
ghost use Rattle.fc_round.specs.Askable.{AreAskable, world_of};

use crate::laws::merging_laws;
use crate::round::run_round;
use crate::{Probe, Turns};
use fc_base::WantMemory;
use fc_coord::Coord;
use fc_kind::FacetKind;
use fc_reply::Reply;
use fc_request::Request;
use fc_store::Generation;
use std::alloc::Global;
use std::sync::Arc;
use std::thread::Threads;

/// The reply that the coordinator makes of what the shards answer, in rounds behind so many others.
pub(crate) fn distributed_reply<R: Threads + Sync, T: Turns, P: Probe>(
    rt: &R,
    alloc: Global,
    generations: &[Arc<Generation>],
    request: &Request,
    kinds: &[Box<dyn FacetKind>],
    turns: &mut T,
    workers: u32,
    behind: u32,
    probe: &mut P,
) -> Result<Reply, WantMemory>
    requires workers { 1 ≤ workers }
    requires covers { Covers (map name kinds.now) }
    requires some { 1 ≤ length generations.now }
    requires behind { behind ≤ 3 }
    requires askable { AreAskable request.now (map arc_value generations.now) }
    ensures distributed { IfOk result (λ reply. reply_view reply
        ≡ distributed (request_view request.now) (world_of (map arc_value generations.now))) }
    ensures trace { OnOk result (P.lengths probe.new
        ≡ option_map (put_all (map (behind_rounds behind) (trace (request_view request.now) (world_of (map arc_value generations.now)))))
        (P.lengths probe.old)) }
{
    merging_laws();
    let mut coord = Coord::begin(alloc, request, generations.len() as u32)?;
    while !coord.ready() {
        run_round(
            rt,
            alloc,
            generations,
            request,
            kinds,
            turns,
            workers,
            behind,
            &mut coord,
            probe,
        )?;
    }
    let reply = coord.into_reply()?;
    Ok(reply)
}
