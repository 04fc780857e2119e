// How far a shard has come with its answer.
ghost use Rattle.std.specs.Prelude.{◌≡◌, ◌<◌, ◌+◌, ◌*◌, ◌-◌, IfOk, IfSome, None, false, length, map};
ghost use Rattle.std.specs.Arc.{arc_value};
ghost use Rattle.fc_spec.specs.documents.Schema.{Schema};
ghost use Rattle.fc_spec.specs.words.Lists.{joined};
ghost use Rattle.fc_request.specs.RequestView.{request_view};
ghost use Rattle.fc_refine.specs.AskView.{ask_view};
ghost use Rattle.fc_kind.specs.Names.{Covers};
ghost use Rattle.fc_answers.specs.SetAnswer.{live_world};
ghost use Rattle.fc_levels.specs.Jobs.{units_each};
ghost use Rattle.fc_jobs.specs.Pieces.{pieces_in};
ghost use Rattle.fc_units.specs.Asked as asked;
ghost use Rattle.fc_refine.specs.Named.{NamesKeys};
ghost use Rattle.fc_units.specs.Built.{CanAnswer};
ghost use Rattle.fc_phase.specs.FirstJobs.{FirstJobs};
ghost use Rattle.fc_phase.specs.Phases.{Turned};

use crate::Turn;
use fc_base::WantMemory;
use fc_jobs::Bases;
use fc_kind::FacetKind;
use fc_levels::facet_count;
use fc_refine::Ask;
use fc_request::Request;
use fc_segment::Segment;
use fc_units::{Building, Gone, Job, asked_count, asked_node, top_job, unit_done};
use std::alloc::Global;
use std::marker::Model;
use std::sync::Arc;

/// How far a shard has come with its answer.
#[derive(Drop)]
pub struct Progress<'a> {
    pub(crate) request: &'a Request,
    pub(crate) segments: Vec<Arc<Segment>>,
    pub(crate) ask: Ask,
    /// Those without some tags, in the segments where a facet excluded tags.
    pub(crate) bases: Bases<'a>,
    pub(crate) done: u64,
    pub(crate) left: u64,
    // There is none once the answer was given, or memory was wanting.
    pub(crate) building: Option<Building<'a>>,
}

impl<'a> Model for Progress<'a> {
    ghost use Rattle.std.specs.Coded.{codes};
    ghost use Rattle.fc_request.specs.contracts.request.Request as asked_request;
    ghost use Rattle.fc_refine.specs.contracts.ask.Ask as asked_ask;
    ghost use Rattle.fc_phase.specs.Phases.{Phase};
    ghost use Rattle.fc_phase.specs.Inside.{phase_in, IsSound};

    ghost Value = { Phase };

    ghost coded = { Prim.hlevel (codes, asked_request.the_row.coded, asked_ask.the_row.coded) };

    ghost view = { phase_in };

    ghost invariant = { IsSound };
}

/// How many units a job has.
pub(crate) fn units_each(segments: usize) -> u64
    ensures { result ≡ units_each segments }
{
    (segments as u64).max(1)
}

// The jobs of the top buckets and of the facets directly in them.
fn first_jobs(request: &Request, ask: &Ask) -> Option<u64>
    requires { NamesKeys (request_view request.now).nodes (ask_view ask.now) }
    ensures { IfSome result (λ jobs. FirstJobs request.now (ask_view ask.now) jobs) }
{
    let mut jobs: u64 = 0;
    for number in 0..asked_count(ask) {
        let node = asked_node(request, ask, number);
        let here = (facet_count(&node.nodes) as u64).checked_add(1)?;
        jobs = jobs.checked_add(here)?;
    }
    Some(jobs)
}

impl<'a> Progress<'a> {
    ghost use Rattle.std.specs.Prelude.{is_none};
    ghost use Rattle.fc_phase.specs.Phases.{left_of};

    /// Whether there is no further turn.
    pub(crate) fn spent(&self) -> bool
        ensures { result ≡ self.now.spent }
    {
        self.building.is_none()
    }

    /// How many units are done.
    pub(crate) fn done(&self) -> u64
        ensures { result ≡ self.now.done }
    {
        self.done
    }

    /// How many units of known jobs are not done.
    pub(crate) fn left(&self) -> u64
        ensures { result ≡ left_of self.now }
    {
        self.left
    }

    /// Nothing done yet.
    pub(crate) fn begin(
        alloc: Global,
        request: &'a Request,
        segments: Vec<Arc<Segment>>,
        ask: Ask,
    ) -> Result<Progress<'a>, WantMemory>
        requires some { 0 < asked.asked_count (ask_view ask) }
        requires names { NamesKeys (request_view request.now).nodes (ask_view ask) }
        requires can { (s : Schema) × CanAnswer s (map arc_value segments.items) request.now }
        ensures { IfOk result (λ progress. progress ≡ record {
          request = request.now;
          ask = ask;
          least = None;
          blocks = joined (live_world (pieces_in (map arc_value segments.items)));
          segments = length segments.items;
          done = 0;
          spent = false;
        }) }
    {
        let Some(jobs) = first_jobs(request, &ask) else {
            return Err(WantMemory);
        };
        let Some(left) = jobs.checked_mul(units_each(segments.len())) else {
            return Err(WantMemory);
        };
        let job = top_job(alloc, request, &ask, 0, Vec::new(alloc))?;
        let buckets = Vec::with_capacity(alloc, asked_count(&ask))?;
        let building = Building {
            roots: Vec::new(alloc),
            buckets,
            levels: Vec::new(alloc),
            job: Job::Top(job),
        };
        Ok(Progress {
            request,
            segments,
            ask,
            bases: Bases::new(alloc),
            done: 0,
            left,
            building: Some(building),
        })
    }

    /// Does one unit.
    pub(crate) fn turn(
        &mut self,
        alloc: Global,
        kinds: &[Box<dyn FacetKind>],
    ) -> Result<Turn, WantMemory>
        requires covers { Covers (map name kinds.now) }
        requires fresh { self.old.spent ≡ false }
        ensures { Turned self.old self.new result }
    {
        let Some(building) = self.building.take() else {
            unreachable!()
        };
        let gone = unit_done(
            alloc,
            kinds,
            self.request,
            &self.segments,
            &mut self.bases,
            &self.ask,
            building,
        )?;
        match gone {
            Gone::On(building, opened) => {
                let Some(left) = left_then(self.left, opened, self.segments.len()) else {
                    return Err(WantMemory);
                };
                let Some(done) = self.done.checked_add(1) else {
                    return Err(WantMemory);
                };
                self.done = done;
                self.left = left;
                self.building = Some(building);
                Ok(Turn::Pending)
            }
            Gone::Whole(message) => {
                let Some(done) = self.done.checked_add(1) else {
                    return Err(WantMemory);
                };
                self.done = done;
                self.left = 0;
                Ok(Turn::Done(message))
            }
        }
    }
}

// The units left once one of them is done, and so many jobs are known besides.
fn left_then(left: u64, opened: u64, segments: usize) -> Option<u64>
    ensures { IfSome result (λ more. (0 < left) × (more ≡ left - 1 + opened * units_each segments)) }
{
    let more = opened.checked_mul(units_each(segments))?;
    left.checked_sub(1)?.checked_add(more)
}
