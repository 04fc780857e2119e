// The top values.
ghost use Rattle.std.specs.Prelude.{◌≡◌, ◌≤◌, IfOk, OnOk, length, map, option_map};
ghost use Rattle.std.specs.Arc.{arc_value};
ghost use Rattle.fc_spec.specs.laws.TopRoundsLaw.{AreTopNodes};
ghost use Rattle.fc_spec.specs.messages.Lengths.{put_all};
ghost use Rattle.fc_spec.specs.messages.WholeTrace.{exact_round_count, exact_trace};
ghost use Rattle.fc_spec.specs.replies.Tops.{tops_of};
ghost use Rattle.fc_base.specs.View.{val_view};
ghost use Rattle.fc_request.specs.RequestView.{request_view};
ghost use Rattle.fc_kind.specs.Names.{Covers};
ghost use Rattle.fc_round.specs.Askable.{AreAskable, world_of};

use crate::laws::finding_laws;
use crate::round::run_round;
use fc_base::{Val, WantMemory};
use fc_exact::ExactCore;
use fc_hooks::{Probe, Turns};
use fc_kind::FacetKind;
use fc_request::Request;
use fc_store::Generation;
use std::alloc::Global;
use std::sync::Arc;
use std::thread::Threads;

/// What exact facets print, and in how many rounds it was found: two, or three.
#[derive(Debug, Drop)]
pub struct Found {
    /// One list for each facet, in their order: its values, in the order in which they are printed.
    pub tops: Vec<Vec<Val>>,
    pub rounds: u32,
}

/// The values that exact facets print over the generations of 1 to 64 shards, in the order of the shards: those that a single index
/// with all the blocks prints. The request is of such facets alone, with nothing nested in them. Each shard's message comes as bytes,
/// and `probe` is told of each once it is there: its round, from 1 to 3, its shard and its length. After want of memory the probe
/// has been told of some of them.
pub fn find_tops<R: Threads + Sync, T: Turns, P: Probe>(
    rt: &R,
    alloc: Global,
    generations: &[Arc<Generation>],
    request: &Request,
    kinds: &[Box<dyn FacetKind>],
    turns: &mut T,
    workers: u32,
    probe: &mut P,
) -> Result<Found, WantMemory>
    requires workers { 1 ≤ workers }
    requires covers { Covers (map name kinds.now) }
    requires some { 1 ≤ length generations.now }
    requires askable { AreAskable request.now (map arc_value generations.now) }
    requires nodes { AreTopNodes (request_view request.now).nodes }
    ensures tops { IfOk result (λ found. map (λ vals. map val_view vals.items) found.tops.items
        ≡ tops_of (request_view request.now) (world_of (map arc_value generations.now))) }
    ensures rounds { IfOk result (λ found. found.rounds
        ≡ exact_round_count (request_view request.now) (world_of (map arc_value generations.now))) }
    ensures trace { OnOk result (P.lengths probe.new
        ≡ option_map (put_all (exact_trace (request_view request.now) (world_of (map arc_value generations.now)))) (P.lengths probe.old)) }
{
    finding_laws();
    let mut core = ExactCore::begin(alloc, request, generations.len() as u32)?;
    while !core.ready() {
        run_round(
            rt,
            alloc,
            generations,
            request,
            kinds,
            turns,
            workers,
            &mut core,
            probe,
        )?;
    }
    let rounds = core.round();
    let tops = core.into_tops()?;
    Ok(Found { tops, rounds })
}
