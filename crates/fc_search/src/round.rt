// A round of the coordinator.
ghost use Rattle.std.specs.Prelude.{◌≡◌, ◌<◌, ◌≤◌, IfOk, OnOk, false, length, map};
ghost use Rattle.std.specs.Arc.{arc_value};
ghost use Rattle.fc_request.specs.RequestView.{request_view};
ghost use Rattle.fc_coord.specs.CoordView.{state_view};
ghost use Rattle.fc_kind.specs.Names.{Covers};
ghost use Rattle.fc_round.specs.Askable.{AreAskable, world_of};
ghost use Rattle.fc_round.specs.Responses.{SpellAnswers};
ghost use Rattle.fc_search.specs.Hearing.{HeardSince, IsHearing, awaited_answers, rounds_left};

use crate::laws::telling_laws;
use crate::questions::questions_of;
use crate::{Probe, Turns};
use fc_base::WantMemory;
use fc_coord::Coord;
use fc_kind::FacetKind;
use fc_request::Request;
use fc_round::{Response, message_of, responses_of};
use fc_store::Generation;
use std::alloc::Global;
use std::sync::Arc;
use std::thread::Threads;

// What each shard that is awaited sends, in the order of the shards.
fn responses_to<R: Threads + Sync, T: Turns>(
    rt: &R,
    alloc: Global,
    generations: &[Arc<Generation>],
    request: &Request,
    kinds: &[Box<dyn FacetKind>],
    turns: &mut T,
    workers: u32,
    coord: &Coord<'_>,
) -> Result<Vec<Response>, WantMemory>
    requires workers { 1 ≤ workers }
    requires covers { Covers (map name kinds.now) }
    requires askable { AreAskable request.now (map arc_value generations.now) }
    requires hearing { IsHearing (request_view request.now) (world_of (map arc_value generations.now)) (state_view coord.now) }
    ensures { IfOk result (λ responses. SpellAnswers responses.items
        (awaited_answers (request_view request.now) (world_of (map arc_value generations.now)) (state_view coord.now))) }
{
    let questions = questions_of(alloc, coord, generations.len() as u32)?;
    let responses = responses_of(
        rt,
        alloc,
        generations,
        request,
        kinds,
        turns,
        workers,
        &questions,
    )?;
    Ok(responses)
}

/// The coordinator is told the answers of all shards that it awaits, in their order, and the probe how many bytes each is: in a round
/// behind so many others.
pub(crate) fn run_round<R: Threads + Sync, T: Turns, P: Probe>(
    rt: &R,
    alloc: Global,
    generations: &[Arc<Generation>],
    request: &Request,
    kinds: &[Box<dyn FacetKind>],
    turns: &mut T,
    workers: u32,
    behind: u32,
    coord: &mut Coord<'_>,
    probe: &mut P,
) -> Result<(), WantMemory>
    requires workers { 1 ≤ workers }
    requires covers { Covers (map name kinds.now) }
    requires some { 1 ≤ length generations.now }
    requires behind { behind ≤ 3 }
    requires askable { AreAskable request.now (map arc_value generations.now) }
    requires hearing { IsHearing (request_view request.now) (world_of (map arc_value generations.now)) (state_view coord.old) }
    requires not_ready { (state_view coord.old).ready ≡ false }
    ensures hearing { OnOk result
        (IsHearing (request_view request.now) (world_of (map arc_value generations.now)) (state_view coord.new)) }
    ensures told { OnOk result (HeardSince (request_view request.now) (world_of (map arc_value generations.now)) behind
        (state_view coord.old) (state_view coord.new) (P.lengths probe.old) (P.lengths probe.new)) }
    ensures fewer { OnOk result (rounds_left (state_view coord.new) < rounds_left (state_view coord.old)) }
{
    telling_laws();
    let responses = responses_to(
        rt,
        alloc,
        generations,
        request,
        kinds,
        turns,
        workers,
        coord,
    )?;
    for response in responses {
        let Response { shard, bytes } = response;
        let message = message_of(alloc, &bytes)?;
        probe.message(behind + coord.round(), shard, bytes.len() as u64);
        coord.take(shard, message)?;
    }
    Ok(())
}
