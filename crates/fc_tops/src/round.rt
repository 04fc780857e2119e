// A round of the finding of top values.
ghost use Rattle.std.specs.Prelude.{◌≡◌, ◌<◌, ◌≤◌, IfOk, OnOk, false, map};
ghost use Rattle.std.specs.Arc.{arc_value};
ghost use Rattle.fc_spec.specs.laws.TopRoundsLaw.{AreTopNodes};
ghost use Rattle.fc_request.specs.RequestView.{request_view};
ghost use Rattle.fc_exact.specs.CoreView.{state_view};
ghost use Rattle.fc_exact.specs.Rounds.{rounds_left};
ghost use Rattle.fc_kind.specs.Names.{Covers};
ghost use Rattle.fc_round.specs.Askable.{AreAskable, world_of};
ghost use Rattle.fc_round.specs.Questions.{answered};
ghost use Rattle.fc_round.specs.Responses.{SpellAnswers};
ghost use Rattle.fc_tops.specs.Asked.{questions_from};
ghost use Rattle.fc_tops.specs.Hearing.{HeardSince, IsHearing};

use crate::laws::finding_laws;
use crate::questions::questions_of;
use fc_base::WantMemory;
use fc_exact::ExactCore;
use fc_hooks::{Probe, Turns};
use fc_kind::FacetKind;
use fc_request::Request;
use fc_round::{Response, message_of, responses_of};
use fc_store::Generation;
use std::alloc::Global;
use std::sync::Arc;
use std::thread::Threads;

// What each shard that is awaited sends, in the order of the shards.
fn responses_to<R: Threads + Sync, T: Turns>(
    rt: &R,
    alloc: Global,
    generations: &[Arc<Generation>],
    request: &Request,
    kinds: &[Box<dyn FacetKind>],
    turns: &mut T,
    workers: u32,
    core: &ExactCore<'_>,
) -> Result<Vec<Response>, WantMemory>
    requires workers { 1 ≤ workers }
    requires covers { Covers (map name kinds.now) }
    requires askable { AreAskable request.now (map arc_value generations.now) }
    requires nodes { AreTopNodes (request_view request.now).nodes }
    requires hearing { IsHearing (request_view request.now) (world_of (map arc_value generations.now)) (state_view core.now) }
    requires not_ready { (state_view core.now).ready ≡ false }
    ensures { IfOk result (λ responses. SpellAnswers responses.items
        (map (answered (request_view request.now) (world_of (map arc_value generations.now))) (questions_from 0 (state_view core.now).asks))) }
{
    finding_laws();
    let questions = questions_of(alloc, core, generations.len() as u32)?;
    let responses = responses_of(
        rt,
        alloc,
        generations,
        request,
        kinds,
        turns,
        workers,
        &questions,
    )?;
    Ok(responses)
}

/// The core is told the answers of all shards that it awaits, in their order, and the probe how many bytes each is.
pub(crate) fn run_round<R: Threads + Sync, T: Turns, P: Probe>(
    rt: &R,
    alloc: Global,
    generations: &[Arc<Generation>],
    request: &Request,
    kinds: &[Box<dyn FacetKind>],
    turns: &mut T,
    workers: u32,
    core: &mut ExactCore<'_>,
    probe: &mut P,
) -> Result<(), WantMemory>
    requires workers { 1 ≤ workers }
    requires covers { Covers (map name kinds.now) }
    requires askable { AreAskable request.now (map arc_value generations.now) }
    requires nodes { AreTopNodes (request_view request.now).nodes }
    requires hearing { IsHearing (request_view request.now) (world_of (map arc_value generations.now)) (state_view core.old) }
    requires not_ready { (state_view core.old).ready ≡ false }
    ensures hearing { OnOk result
        (IsHearing (request_view request.now) (world_of (map arc_value generations.now)) (state_view core.new)) }
    ensures told { OnOk result (HeardSince (request_view request.now) (world_of (map arc_value generations.now))
        (state_view core.old) (state_view core.new) (P.lengths probe.old) (P.lengths probe.new)) }
    ensures fewer { OnOk result (rounds_left (state_view core.new) < rounds_left (state_view core.old)) }
{
    finding_laws();
    let responses = responses_to(rt, alloc, generations, request, kinds, turns, workers, core)?;
    for response in responses {
        let Response { shard, bytes } = response;
        let message = message_of(alloc, &bytes)?;
        probe.message(core.round(), shard, bytes.len() as u64);
        core.take(shard, message)?;
    }
    Ok(())
}
