// A shard's future.
ghost use Rattle.std.specs.Prelude.{◌≡◌, ◌<◌, ◌∷◌, [], IfOk, false, map};
ghost use Rattle.std.specs.Arc.{arc_value};
ghost use Rattle.fc_spec.specs.messages.Message as message;
ghost use Rattle.fc_spec.specs.requests.ValidRequests.{IsSearchable};
ghost use Rattle.fc_spec.specs.scripts.WorldLimits.{IsWithinLimits};
ghost use Rattle.fc_request.specs.RequestView.{IsRoot, request_view};
ghost use Rattle.fc_refine.specs.AskView.{ask_view};
ghost use Rattle.fc_kind.specs.Names.{Covers};
ghost use Rattle.fc_refine.specs.Named.{NamesKeys};
ghost use Rattle.fc_units.specs.Asked.{asked_count};
ghost use Rattle.fc_units.specs.LeastLists.{NestNothing};
ghost use Rattle.fc_phase.specs.Futures.{IsBegun, IsLeastBegun, phase_of};
ghost use Rattle.fc_phase.specs.Phases.{Turned, left_of};

use crate::Turn;
use crate::course::Course;
use crate::least_progress::LeastProgress;
use crate::progress::Progress;
use fc_base::WantMemory;
use fc_kind::FacetKind;
use fc_partial::Message;
use fc_refine::Ask;
use fc_request::Request;
use fc_store::Generation;
use fc_units::shared;
use futures::Future;
use futures::task::{Context, Poll};
use std::alloc::Global;
use std::sync::Arc;

/// A shard's answer to an ask, over one generation, made in turns: each does one unit, which is one segment of one job, or
/// the whole job where there is no segment. A job is a top bucket of the answer, or a list of a facet's buckets in it, in
/// the order of their keys.
#[derive(Drop)]
pub struct PhaseFuture<'a> {
    pub(crate) alloc: Global,
    pub(crate) kinds: &'a [Box<dyn FacetKind>],
    pub(crate) course: Course<'a>,
}

impl<'a> PhaseFuture<'a> {
    /// The answer to the first ask: the root's bucket, and what the shard offers below it.
    pub fn first(
        alloc: Global,
        generation: Arc<Generation>,
        request: &'a Request,
        kinds: &'a [Box<dyn FacetKind>],
    ) -> Result<PhaseFuture<'a>, WantMemory>
        requires covers { Covers (map name kinds.now) }
        requires root { IsRoot request.now.root }
        requires valid { IsSearchable (arc_value generation).schema (request_view request.now) }
        requires limits { IsWithinLimits ((arc_value generation).blocks ∷ []) }
        ensures begun { IfOk result (λ future. IsBegun request.now (arc_value generation).blocks message.first (phase_of future)) }
        ensures kinds { IfOk result (λ future. future.kinds.now ≡ kinds.now) }
    {
        let segments = generation.share(alloc)?;
        let progress = Progress::begin(alloc, request, segments, Ask::First)?;
        Ok(PhaseFuture {
            alloc,
            kinds,
            course: Course::Asked(progress),
        })
    }

    /// The answer to an ask for buckets, of which there is one at least: one top bucket for each, in their order, whatever
    /// its count. Each step of each way, and then the bucket's own node and key, have to name a facet of the request that is
    /// no statistic, and a key of that facet.
    pub fn more(
        alloc: Global,
        generation: Arc<Generation>,
        request: &'a Request,
        kinds: &'a [Box<dyn FacetKind>],
        ask: &Ask,
    ) -> Result<PhaseFuture<'a>, WantMemory>
        requires covers { Covers (map name kinds.now) }
        requires root { IsRoot request.now.root }
        requires valid { IsSearchable (arc_value generation).schema (request_view request.now) }
        requires limits { IsWithinLimits ((arc_value generation).blocks ∷ []) }
        requires some { 0 < asked_count (ask_view ask.now) }
        requires names { NamesKeys (request_view request.now).nodes (ask_view ask.now) }
        ensures begun { IfOk result (λ future. IsBegun request.now (arc_value generation).blocks (ask_view ask.now) (phase_of future)) }
        ensures kinds { IfOk result (λ future. future.kinds.now ≡ kinds.now) }
    {
        let segments = generation.share(alloc)?;
        let own = shared(ask)?;
        let progress = Progress::begin(alloc, request, segments, own)?;
        Ok(PhaseFuture {
            alloc,
            kinds,
            course: Course::Asked(progress),
        })
    }

    /// The answer from counts on: the root's bucket, and below it in each facet what the shard lists from its count on; of a terms
    /// facet the values of at least that count, and those without a value. There is one count for each facet of the request,
    /// statistics passed over; a facet without one lists each value. Nothing may be nested in a facet. Its units are those of the
    /// answer to the first ask.
    pub fn least(
        alloc: Global,
        generation: Arc<Generation>,
        request: &'a Request,
        kinds: &'a [Box<dyn FacetKind>],
        least: &[u64],
    ) -> Result<PhaseFuture<'a>, WantMemory>
        requires covers { Covers (map name kinds.now) }
        requires root { IsRoot request.now.root }
        requires valid { IsSearchable (arc_value generation).schema (request_view request.now) }
        requires limits { IsWithinLimits ((arc_value generation).blocks ∷ []) }
        requires bare { NestNothing (request_view request.now).nodes }
        ensures begun { IfOk result (λ future. IsLeastBegun request.now (arc_value generation).blocks least.now (phase_of future)) }
        ensures kinds { IfOk result (λ future. future.kinds.now ≡ kinds.now) }
    {
        let segments = generation.share(alloc)?;
        let own = least.to_vec(alloc)?;
        let progress = LeastProgress::begin(alloc, request, segments, own)?;
        Ok(PhaseFuture {
            alloc,
            kinds,
            course: Course::Least(progress),
        })
    }

    /// Does one unit. Where memory is wanting the future is over, as it is once the answer was given; a number of units that
    /// passes 64 bits is told as want of memory.
    pub fn turn(&mut self) -> Result<Turn, WantMemory>
        requires covers { Covers (map name self.old.kinds.now) }
        requires fresh { (phase_of self.old).spent ≡ false }
        ensures turned { Turned (phase_of self.old) (phase_of self.new) result }
        ensures kinds { self.new.kinds.now ≡ self.old.kinds.now }
    {
        self.course.turn(self.alloc, self.kinds)
    }

    /// Whether the answer was given, or memory was wanting: there is no further turn.
    pub fn spent(&self) -> bool
        ensures { result ≡ (phase_of self.now).spent }
    {
        self.course.spent()
    }

    /// How many units are done.
    pub fn done(&self) -> u64
        ensures { result ≡ (phase_of self.now).done }
    {
        self.course.done()
    }

    /// How many units of jobs that are known are not done. A job is known from the end of the job of the facet around it
    /// on; those of top buckets, and of the facets directly in them, from the start.
    pub fn left(&self) -> u64
        ensures { result ≡ left_of (phase_of self.now) }
    {
        self.course.left()
    }
}

impl Future for PhaseFuture<'_> {
    type Output = Result<Message, WantMemory>;

    ghost use Rattle.std.specs.Prelude.{◌≡◌, false, map, true};
    ghost use Rattle.futures.specs.Poll.{IfReady, OnPending};
    ghost use Rattle.futures.specs.Task.{Covers as CoversSources, Keeps};
    ghost use Rattle.fc_kind.specs.Names.{Covers};
    ghost use Rattle.fc_phase.specs.Futures.{phase_of};
    ghost use Rattle.fc_phase.specs.Phases.{GivesAnswer, Polled, answer_of};

    ghost can_poll = { λ f. ((phase_of f).spent ≡ false) × Covers (map (λ b. (FacetKind-box b).name b.value) f.kinds.now) };

    ghost gives = { λ f. GivesAnswer (answer_of (phase_of f)) };

    /// One turn. Where there is more to do it asks to be polled again.
    fn poll(&mut self, cx: &mut Context<'_>) -> Poll<Result<Message, WantMemory>>
        requires { ((phase_of self.old).spent ≡ false) × Covers (map name self.old.kinds.now) }
        ensures value { IfReady result (GivesAnswer (answer_of (phase_of self.old))) }
        ensures again { OnPending result (((phase_of self.new).spent ≡ false) × Covers (map name self.new.kinds.now)) }
        ensures same { OnPending result ((r : _) → GivesAnswer (answer_of (phase_of self.new)) r → GivesAnswer (answer_of (phase_of self.old)) r) }
        ensures registered { OnPending result (CoversSources cx.new (λ _. ⊥)) }
        ensures woken { OnPending result (cx.new.is_woken ≡ true) }
        ensures kept { Keeps cx.old cx.new }
        ensures turned { Polled (phase_of self.old) (phase_of self.new) result }
    {
        match self.turn() {
            Ok(Turn::Done(message)) => Poll::Ready(Ok(message)),
            Ok(Turn::Pending) => cx.yield_now(),
            Err(want) => Poll::Ready(Err(want)),
        }
    }
}
