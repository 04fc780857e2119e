// The searches of a phase.
ghost use Rattle.std.specs.Prelude.{◌≡◌, ◌<◌, ◌≤◌, [], ℕ, All, AllPairs, IfOk, OnOk, false, length, map};
ghost use Rattle.std.specs.Arc.{arc_value};
ghost use Rattle.fc_spec.specs.documents.Val.{same_text};
ghost use Rattle.fc_spec.specs.replies.Replied.{replied};
ghost use Rattle.fc_spec.specs.scripts.PinnedWorlds.{world_added};
ghost use Rattle.fc_spec.specs.scripts.SearchLines.{ArePhaseLines};
ghost use Rattle.fc_spec.specs.scripts.WorldLimits.{IsWithinLimits};
ghost use Rattle.fc_kind.specs.Names.{Covers};
ghost use Rattle.fc_script.specs.PartsView.{search_view};
ghost use Rattle.fc_search.specs.Schemas.{AreSame};
ghost use Rattle.fc_work.specs.Opened.{AreNumbered, CanOpen};
ghost use Rattle.fc_work.specs.Phased.{Adds, AreWorked, IsSearchBy, readers_in, sent_in, whole_in};
ghost use Rattle.fc_work.specs.Pinned.{charters_of, least_of, most_of};
ghost use Rattle.fc_work.specs.Working.{AreReady, CanAsk};

use crate::ended::Ended;
use crate::making::make_all;
use crate::searches::{Searches, apart};
use crate::stores::{end_all, starts_of};
use crate::worker::work_all;
use crate::{Gate, Opening, Worker};
use fc_base::{Name, WantMemory};
use fc_kind::FacetKind;
use fc_request::{Request, RequestFault};
use fc_script::Search;
use fc_search::Sent;
use fc_spec::phases_write_outputs;
use fc_store::Generation;
use std::alloc::Global;
use std::sync::{Arc, Wait};
use std::thread::Threads;

/// What a phase with searches ends with: the last generation of each shard, and for each search, in order, the messages that were sent
/// for it, ascending by round, then shard; none for one whose request has a fault.
#[derive(Drop)]
pub struct PhaseEnd {
    pub generations: Vec<Arc<Generation>>,
    pub sent: Vec<Option<Vec<Sent>>>,
}

// Makes the workers, and has each do its work.
fn work<R: Threads + Wait + Sync, G: Gate>(
    rt: &R,
    alloc: Global,
    openings: Vec<Opening>,
    names: &[Name],
    order: &[u32],
    asked: &Vec<Result<Request, RequestFault>>,
    kinds: &[Box<dyn FacetKind>],
    search_workers: u32,
    gate: &G,
    replies: &[u64],
    workers: &mut Vec<Worker>,
    idle: &mut Vec<Worker>,
) -> Result<(), WantMemory>
    requires covers { Covers (map name kinds.now) }
    requires search_workers { (1 ≤ search_workers) × (search_workers ≤ 64) }
    requires open { All CanOpen openings.items }
    requires ready { AreReady (readers_in openings.items) }
    requires few { length names.now ≤ 16 }
    requires some { 1 ≤ length order.now }
    requires sessions { All (λ session. session < length names.now) order.now }
    requires count { length order.now ≡ length asked.now.items }
    requires ask { All (CanAsk (readers_in openings.items)) asked.now.items }
    requires none { workers.old.items ≡ [] }
    ensures { OnOk result (AreWorked openings.items names.now order.now asked.now.items workers.new.items) }
{
    make_all(rt, alloc, openings, names, order, replies, workers, idle)?;
    work_all(
        rt,
        alloc,
        order,
        asked,
        workers,
        kinds,
        search_workers,
        gate,
    );
    Ok(())
}

/// Runs the searches of a phase beside its commits: a worker for each shard that has commits and one for each session that searches,
/// each in a thread of its own; one alone in the thread that calls. Their lines are appended in the order of the searches. Answers the
/// last generation of each shard, which has all of its charter, and what was sent for each search. `search_workers` tells how many
/// workers a search may have; `replies` has how many replies each session has had.
pub fn run_searches<R: Threads + Wait + Sync, G: Gate>(
    rt: &R,
    alloc: Global,
    openings: Vec<Opening>,
    names: &[Name],
    searches: Vec<Search>,
    kinds: &[Box<dyn FacetKind>],
    search_workers: u32,
    gate: &G,
    replies: &mut [u64],
    text: &mut Vec<u8>,
) -> Result<PhaseEnd, WantMemory>
    requires covers { Covers (map name kinds.now) }
    requires search_workers { (1 ≤ search_workers) × (search_workers ≤ 64) }
    requires open { All CanOpen openings.items }
    requires numbered { AreNumbered openings.items }
    requires some { 1 ≤ length openings.items }
    requires schema { AreSame (map (λ reader. reader.schema) (readers_in openings.items)) }
    requires limits { IsWithinLimits (world_added (charters_of (readers_in openings.items))) }
    requires few { length names.now ≤ 16 }
    requires different { AllPairs (λ a b. same_text a b ≡ false) names.now }
    requires some_search { 1 ≤ length searches.items }
    requires searches { All (IsSearchBy (length names.now) (readers_in openings.items)) searches.items }
    ensures generations { IfOk result (λ end. map arc_value end.generations.items ≡ map whole_in openings.items) }
    ensures text { (phase : ℕ) → IfOk result (λ end. Adds text.old.items text.new.items (sent_in end.sent.items) (ArePhaseLines replied
        (charters_of (readers_in openings.items)) (most_of (readers_in openings.items)) (λ session. least_of (readers_in openings.items))
        (map (search_view names.now phase) searches.items))) }
{
    phases_write_outputs();
    let Searches { order, asked } = apart(alloc, searches)?;
    let mut ended = Ended::new(alloc, starts_of(alloc, &openings)?, names.len())?;
    let mut workers = Vec::new(alloc);
    let mut idle = Vec::new(alloc);
    let worked = work(
        rt,
        alloc,
        openings,
        names,
        &order,
        &asked,
        kinds,
        search_workers,
        gate,
        replies,
        &mut workers,
        &mut idle,
    );
    end_all(rt, idle);
    ended.take_all(rt, workers, replies);
    worked?;
    let end = ended.finish(alloc, &order, text)?;
    Ok(end)
}
