// What the workers of a phase leave.
ghost use Rattle.std.specs.Prelude.{◌≡◌, map, slice_set};
ghost use Rattle.std.specs.Arc.{arc_value};
ghost use Rattle.fc_work.specs.SearchLineView.{line_views};
ghost use Rattle.fc_work.specs.Woven.{lines_in, woven_by};

use crate::search_line::SearchLine;
use crate::weaving::weave;
use crate::{IndexWorker, PhaseEnd, SessionWorker, Worker};
use fc_base::WantMemory;
use fc_store::Generation;
use std::alloc::Global;
use std::collections::VecDeque;
use std::sync::{Arc, Wait};

/// The last generation of each shard, the lines of each session, and whether a worker wanted memory.
#[derive(Drop)]
pub(crate) struct Ended {
    pub(crate) generations: Vec<Arc<Generation>>,
    pub(crate) lines: Vec<VecDeque<SearchLine>>,
    pub(crate) wants_memory: bool,
}

// Puts the lines of a session at its number, if there is a place for it.
#[tactic(auto, using(crate::proofs::Placed::placed, crate::proofs::Placed::past))]
fn place(all: &mut [VecDeque<SearchLine>], session: usize, lines: VecDeque<SearchLine>)
    ensures { lines_in all.new ≡ slice_set (lines_in all.old) session (line_views lines.items) }
{
    if all.len() <= session {
        return;
    }
    all[session] = lines;
}

// Puts the generation of a shard at its number, if there is a place for it.
#[tactic(auto, using(crate::proofs::Placed::put_at, crate::proofs::Placed::put_past))]
fn put(all: &mut [Arc<Generation>], shard: usize, generation: Arc<Generation>)
    ensures { map arc_value all.new ≡ slice_set (map arc_value all.old) shard (arc_value generation) }
{
    if all.len() <= shard {
        return;
    }
    all[shard] = generation;
}

// Notes how many replies a session has had, if there is a place for it.
fn count(all: &mut [u64], session: usize, replies: u64) {
    if all.len() <= session {
        return;
    }
    all[session] = replies;
}

impl Ended {
    ghost use Rattle.std.specs.Prelude.{◌≡◌, ◌++◌, ◌<◌, All, IfOk, OnOk, false, length};
    ghost use Rattle.fc_spec.specs.scripts.SearchLines.{sent_for, text_of};
    ghost use Rattle.fc_work.specs.Ends.{IsCalm, ends_of, nothing, with_end, with_ends, with_index, with_session};
    ghost use Rattle.fc_work.specs.Phased.{sent_in};

    /// Before any of them has ended, from these generations on, with room for the lines of so many sessions.
    pub(crate) fn new(
        alloc: Global,
        starts: Vec<Arc<Generation>>,
        sessions: usize,
    ) -> Result<Ended, WantMemory>
        ensures none { IfOk result (λ ended. ends_of ended ≡ nothing (map arc_value starts.items) sessions) }
        ensures count { IfOk result (λ ended. length ended.lines.items ≡ sessions) }
    {
        let mut lines = Vec::with_capacity(alloc, sessions)?;
        for _number in 0..sessions {
            lines.push(VecDeque::new(alloc))?;
        }
        Ok(Ended {
            generations: starts,
            lines,
            wants_memory: false,
        })
    }

    // Ends the worker of a shard, and its store.
    fn close<R: Wait>(&mut self, rt: &R, worker: IndexWorker)
        ensures taken { self.new.wants_memory ≡ false → (self.old.wants_memory ≡ false) × (worker.wants_memory ≡ false)
            × (ends_of self.new ≡ with_index worker (ends_of self.old)) }
    {
        let IndexWorker {
            shard,
            writer,
            wants_memory,
        } = worker;
        match writer.finish(rt) {
            Ok(last) => {
                put(&mut self.generations, shard as usize, last);
                self.wants_memory = self.wants_memory || wants_memory;
            }
            Err(WantMemory) => self.wants_memory = true,
        }
    }

    // Ends the worker of a session, whose lines are kept.
    fn keep(&mut self, worker: SessionWorker, counts: &mut [u64])
        ensures taken { self.new.wants_memory ≡ false → (self.old.wants_memory ≡ false) × (worker.wants_memory ≡ false)
            × (ends_of self.new ≡ with_session worker (ends_of self.old)) }
    {
        let SessionWorker {
            session,
            lines,
            replies,
            wants_memory,
            ..
        } = worker;
        count(counts, session as usize, replies);
        place(&mut self.lines, session as usize, lines);
        self.wants_memory = self.wants_memory || wants_memory;
    }

    // Ends a worker.
    fn take<R: Wait>(&mut self, rt: &R, worker: Worker, counts: &mut [u64])
        ensures taken { self.new.wants_memory ≡ false → (self.old.wants_memory ≡ false) × IsCalm worker × (ends_of self.new ≡ with_end worker (ends_of self.old)) }
    {
        match worker {
            Worker::Index(worker) => self.close(rt, worker),
            Worker::Session(worker) => self.keep(worker, counts),
        }
    }

    /// Ends the workers, each in its turn, and notes in `counts` how many replies each session has had.
    pub(crate) fn take_all<R: Wait>(&mut self, rt: &R, workers: Vec<Worker>, counts: &mut [u64])
        ensures taken { self.new.wants_memory ≡ false → (self.old.wants_memory ≡ false) × All IsCalm workers.items × (ends_of self.new ≡ with_ends workers.items (ends_of self.old)) }
    {
        let mut left = workers;
        while !left.is_empty() {
            self.take(rt, left.remove(0), counts);
        }
        left.destroy_empty();
    }

    /// The last generations, where no worker wanted memory, and what was sent. The lines are appended, for each of these sessions its
    /// next one.
    pub(crate) fn finish(
        self,
        alloc: Global,
        order: &[u32],
        text: &mut Vec<u8>,
    ) -> Result<PhaseEnd, WantMemory>
        requires { self.wants_memory ≡ false → All (λ session. session < length self.lines.items) order.now }
        ensures calm { OnOk result (self.wants_memory ≡ false) }
        ensures generations { IfOk result (λ end. map arc_value end.generations.items ≡ (ends_of self).generations) }
        ensures text { OnOk result (text.new.items ≡ text.old.items ++ text_of (woven_by (ends_of self).lines order.now)) }
        ensures sent { IfOk result (λ end. sent_in end.sent.items ≡ sent_for (woven_by (ends_of self).lines order.now)) }
    {
        let Ended {
            generations,
            mut lines,
            wants_memory,
        } = self;
        if wants_memory {
            return Err(WantMemory);
        }
        let sent = weave(alloc, order, &mut lines, text)?;
        Ok(PhaseEnd { generations, sent })
    }
}
