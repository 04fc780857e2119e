// The workers of a phase.
ghost use Rattle.std.specs.Prelude.{◌≡◌, ◌≤◌, All, length, map};
ghost use Rattle.fc_kind.specs.Names.{Covers};
ghost use Rattle.fc_work.specs.Working.{AllWorked, CanWork, Worked};

use crate::asks::Asks;
use crate::{Gate, IndexWorker, SessionWorker};
use fc_kind::FacetKind;
use fc_request::{Request, RequestFault};
use std::alloc::Global;
use std::sync::Wait;
use std::thread;
use std::thread::Threads;

/// The worker of a shard or of a session.
pub enum Worker {
    Index(IndexWorker),
    Session(SessionWorker),
}

impl Worker {
    // Does all of its work.
    fn work<R: Threads + Wait + Sync, G: Gate>(
        &mut self,
        rt: &R,
        alloc: Global,
        order: &[u32],
        asked: &[Result<Request, RequestFault>],
        kinds: &[Box<dyn FacetKind>],
        workers: u32,
        gate: &G,
    )
        requires covers { Covers (map name kinds.now) }
        requires workers { (1 ≤ workers) × (workers ≤ 64) }
        requires count { length order.now ≡ length asked.now }
        requires can { CanWork order.now asked.now self.old }
        ensures { Worked order.now asked.now self.old self.new }
    {
        match self {
            Worker::Index(worker) => worker.work(rt, gate),
            Worker::Session(worker) => worker.work(rt, alloc, order, asked, kinds, workers, gate),
        }
    }
}

/// Each does its work, in a thread of its own where there is one to be had: `order` tells whose the searches of the phase are,
/// `search_workers` how many workers a search may have.
pub(crate) fn work_all<R: Threads + Wait + Sync, A: Asks, G: Gate>(
    rt: &R,
    alloc: Global,
    order: &[u32],
    searches: &A,
    workers: &mut [Worker],
    kinds: &[Box<dyn FacetKind>],
    search_workers: u32,
    gate: &G,
)
    requires covers { Covers (map name kinds.now) }
    requires search_workers { (1 ≤ search_workers) × (search_workers ≤ 64) }
    requires count { length order.now ≡ length (A.asks searches.now) }
    requires can { All (CanWork order.now (A.asks searches.now)) workers.old }
    ensures { AllWorked order.now (A.asks searches.now) workers.old workers.new }
{
    let threads = workers.len().max(1);
    thread::for_each_mut(
        rt,
        workers,
        threads,
        &|_, worker: &mut Worker|
            requires { Covers (map name kinds.now) × (1 ≤ search_workers) × (search_workers ≤ 64) × (length order.now ≡ length (A.asks searches.now)) × CanWork order.now (A.asks searches.now) worker.old }
            ensures { Worked order.entry.now (A.asks searches.entry.now) worker.old worker.new }
        {
            worker.work(
                rt,
                alloc,
                order,
                searches.asked(),
                kinds,
                search_workers,
                gate,
            )
        },
    );
}
