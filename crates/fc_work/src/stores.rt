// The stores of a phase.
ghost use Rattle.std.specs.Prelude.{◌≡◌, ◌++◌, ◌∷◌, ◌≤◌, [], All, IfOk, OnOk, List, length, map, is_ok, if◌then◌else◌};
ghost use Rattle.std.specs.Arc.{arc_value};
ghost use Rattle.std.specs.List.{filter};
ghost use Rattle.fc_store.specs.Ends.{Pinning};
ghost use Rattle.fc_work.specs.Opened.{CanOpen, commits_some, has_commits, indexes_in, pinning_in, place_for, place_in, sessions_in, start_in};

use crate::{IndexWorker, Worker};
use fc_base::WantMemory;
use fc_store::{Charter, Generation, ShardReader, open_shard};
use std::alloc::Global;
use std::sync::{Arc, Wait};

/// The shard of a store, and what the store may publish.
#[derive(Debug, Drop)]
pub struct Opening {
    pub shard: u32,
    pub charter: Charter,
}

/// The generations that the stores begin with.
pub(crate) fn starts_of(
    alloc: Global,
    openings: &[Opening],
) -> Result<Vec<Arc<Generation>>, WantMemory>
    ensures { IfOk result (λ starts. map arc_value starts.items ≡ map start_in openings.now) }
{
    let mut starts = Vec::with_capacity(alloc, openings.len())?;
    for opening in openings {
        starts.push(opening.charter.start()?)?;
    }
    Ok(starts)
}

// Ends a worker of no use.
fn end<R: Wait>(rt: &R, worker: Worker) {
    match worker {
        Worker::Index(worker) => {
            let IndexWorker {
                shard: _,
                writer,
                wants_memory: _,
            } = worker;
            let _ = writer.finish(rt);
        }
        Worker::Session(_worker) => {}
    }
}

/// Ends workers that have nothing to do.
pub(crate) fn end_all<R: Wait>(rt: &R, workers: Vec<Worker>) {
    let mut left = workers;
    while let Some(worker) = left.pop() {
        end(rt, worker);
    }
    left.destroy_empty();
}

/// Puts a worker behind the others.
pub(crate) fn add_worker<R: Wait>(
    rt: &R,
    workers: &mut Vec<Worker>,
    worker: Worker,
) -> Result<(), WantMemory>
    ensures { workers.new.items ≡ (if is_ok result then workers.old.items ++ worker ∷ [] else workers.old.items) }
{
    match workers.push(worker) {
        Ok(()) => Ok(()),
        Err(refused) => {
            end(rt, refused.value);
            Err(WantMemory)
        }
    }
}

// Puts the worker of a shard behind the others; one with nothing to commit, behind the idle ones.
fn add_index<R: Wait>(
    rt: &R,
    worker: IndexWorker,
    workers: &mut Vec<Worker>,
    idle: &mut Vec<Worker>,
) -> Result<(), WantMemory>
    ensures sessions { sessions_in workers.new.items ≡ sessions_in workers.old.items }
    ensures indexes { OnOk result (map place_in (indexes_in workers.new.items)
        ≡ map place_in (indexes_in workers.old.items) ++ map place_in (filter has_commits (worker ∷ []))) }
{
    if worker.writer.commits_left() == 0 {
        add_worker(rt, idle, Worker::Index(worker))?;
        return Ok(());
    }
    add_worker(rt, workers, Worker::Index(worker))?;
    Ok(())
}

// Gives each seat one of the readers.
fn hand_out(readers: Vec<ShardReader>, seats: &mut [Vec<ShardReader>]) -> Result<(), WantMemory>
    requires { length readers.items ≡ length seats.old }
    ensures { (x : Pinning) (own : List Pinning) → All (λ reader. reader ≡ x) readers.items → All (λ seat. seat.items ≡ own) seats.old
        → OnOk result (All (λ seat. seat.items ≡ own ++ x ∷ []) seats.new) }
{
    let mut left = readers;
    for seat in seats.iter_mut() {
        match left.pop() {
            Some(reader) => seat.push(reader)?,
            None => unreachable!(),
        }
    }
    Ok(())
}

// Opens a store with a reader for each seat. Its worker stands behind the others, or behind the idle ones.
fn open_one<R: Wait>(
    rt: &R,
    alloc: Global,
    opening: Opening,
    seats: &mut [Vec<ShardReader>],
    workers: &mut Vec<Worker>,
    idle: &mut Vec<Worker>,
) -> Result<(), WantMemory>
    requires open { CanOpen opening }
    requires seats { (1 ≤ length seats.old) × (length seats.old ≤ 16) }
    ensures sessions { sessions_in workers.new.items ≡ sessions_in workers.old.items }
    ensures indexes { OnOk result (map place_in (indexes_in workers.new.items)
        ≡ map place_in (indexes_in workers.old.items) ++ map place_for (filter commits_some (opening ∷ []))) }
    ensures seats { (own : List Pinning) → All (λ seat. seat.items ≡ own) seats.old
        → OnOk result (All (λ seat. seat.items ≡ own ++ pinning_in opening ∷ []) seats.new) }
{
    let Opening { shard, charter } = opening;
    let (writer, readers) = open_shard(rt, alloc, charter, seats.len() as u32)?;
    let worker = IndexWorker {
        shard,
        writer,
        wants_memory: false,
    };
    add_index(rt, worker, workers, idle)?;
    hand_out(readers, seats)?;
    Ok(())
}

/// Opens the stores, each with a reader for each seat. The workers of those that have commits stand behind the others, and
/// the rest behind the idle ones.
pub(crate) fn open_all<R: Wait>(
    rt: &R,
    alloc: Global,
    openings: Vec<Opening>,
    seats: &mut [Vec<ShardReader>],
    workers: &mut Vec<Worker>,
    idle: &mut Vec<Worker>,
) -> Result<(), WantMemory>
    requires open { All CanOpen openings.items }
    requires seats { (1 ≤ length seats.old) × (length seats.old ≤ 16) }
    requires free { All (λ seat. seat.items ≡ []) seats.old }
    ensures sessions { sessions_in workers.new.items ≡ sessions_in workers.old.items }
    ensures indexes { OnOk result (map place_in (indexes_in workers.new.items)
        ≡ map place_in (indexes_in workers.old.items) ++ map place_for (filter commits_some openings.items)) }
    ensures seats { OnOk result (All (λ seat. seat.items ≡ map pinning_in openings.items) seats.new) }
{
    for opening in openings {
        open_one(rt, alloc, opening, seats, workers, idle)?;
    }
    Ok(())
}
