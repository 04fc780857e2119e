// How far a shard has come with its answer from counts on.
ghost use Rattle.std.specs.Prelude.{◌≡◌, ◌*◌, IfOk, IfSome, Some, false, length, map};
ghost use Rattle.std.specs.Arc.{arc_value};
ghost use Rattle.fc_spec.specs.documents.Schema.{Schema};
ghost use Rattle.fc_spec.specs.words.Lists.{joined};
ghost use Rattle.fc_request.specs.RequestView.{request_view};
ghost use Rattle.fc_refine.specs.declared.ask.Ask.TheVariants as asks;
ghost use Rattle.fc_kind.specs.Names.{Covers};
ghost use Rattle.fc_answers.specs.SetAnswer.{live_world};
ghost use Rattle.fc_jobs.specs.Pieces.{pieces_in};
ghost use Rattle.fc_levels.specs.Jobs.{units_each};
ghost use Rattle.fc_units.specs.Built.{CanAnswer};
ghost use Rattle.fc_units.specs.LeastLists.{NestNothing};
ghost use Rattle.fc_units.specs.Leasts.{least_jobs};
ghost use Rattle.fc_phase.specs.Phases.{Turned};

use crate::Turn;
use crate::progress::units_each;
use fc_base::WantMemory;
use fc_jobs::Bases;
use fc_kind::FacetKind;
use fc_levels::facet_count;
use fc_refine::Ask;
use fc_request::Request;
use fc_segment::Segment;
use fc_units::{LeastBuilding, LeastGone, least_unit, top_job};
use std::alloc::Global;
use std::marker::Model;
use std::sync::Arc;

/// How far a shard has come with its answer from counts on, of which there is one for each facet of the request.
#[derive(Drop)]
pub struct LeastProgress<'a> {
    pub(crate) request: &'a Request,
    pub(crate) segments: Vec<Arc<Segment>>,
    pub(crate) least: Vec<u64>,
    /// Those without some tags, in the segments where a facet excluded tags.
    pub(crate) bases: Bases<'a>,
    pub(crate) done: u64,
    /// Of all jobs, which are known from the start.
    pub(crate) units: u64,
    // There is none once the answer was given, or memory was wanting.
    pub(crate) building: Option<LeastBuilding<'a>>,
}

impl<'a> Model for LeastProgress<'a> {
    ghost use Rattle.std.specs.Coded.{codes};
    ghost use Rattle.fc_request.specs.contracts.request.Request as asked_request;
    ghost use Rattle.fc_refine.specs.contracts.ask.Ask as asked_ask;
    ghost use Rattle.fc_phase.specs.Phases.{Phase};
    ghost use Rattle.fc_phase.specs.LeastInside.{phase_in, IsSound};

    ghost Value = { Phase };

    ghost coded = { Prim.hlevel (codes, asked_request.the_row.coded, asked_ask.the_row.coded) };

    ghost view = { phase_in };

    ghost invariant = { IsSound };
}

// The units of all jobs: that of the root's bucket, and one for each facet.
fn units_of(request: &Request, segments: usize) -> Option<u64>
    ensures { IfSome result (λ units. units ≡ units_each segments * least_jobs (request_view request.now)) }
{
    let jobs = (facet_count(&request.root.nodes) as u64).checked_add(1)?;
    jobs.checked_mul(units_each(segments))
}

impl<'a> LeastProgress<'a> {
    ghost use Rattle.std.specs.Prelude.{is_none};
    ghost use Rattle.fc_phase.specs.Phases.{left_of};

    /// Whether there is no further turn.
    pub(crate) fn spent(&self) -> bool
        ensures { result ≡ self.now.spent }
    {
        self.building.is_none()
    }

    /// How many units are done.
    pub(crate) fn done(&self) -> u64
        ensures { result ≡ self.now.done }
    {
        self.done
    }

    /// How many units are not done.
    pub(crate) fn left(&self) -> u64
        ensures { result ≡ left_of self.now }
    {
        self.units - self.done
    }

    /// Nothing done yet.
    pub(crate) fn begin(
        alloc: Global,
        request: &'a Request,
        segments: Vec<Arc<Segment>>,
        least: Vec<u64>,
    ) -> Result<LeastProgress<'a>, WantMemory>
        requires can { (s : Schema) × CanAnswer s (map arc_value segments.items) request.now }
        requires bare { NestNothing (request_view request.now).nodes }
        ensures { IfOk result (λ progress. progress ≡ record {
          request = request.now;
          ask = asks.First;
          least = Some least.items;
          blocks = joined (live_world (pieces_in (map arc_value segments.items)));
          segments = length segments.items;
          done = 0;
          spent = false;
        }) }
    {
        let Some(units) = units_of(request, segments.len()) else {
            return Err(WantMemory);
        };
        let job = top_job(alloc, request, &Ask::First, 0, Vec::new(alloc))?;
        Ok(LeastProgress {
            request,
            segments,
            least,
            bases: Bases::new(alloc),
            done: 0,
            units,
            building: Some(LeastBuilding::Root(job)),
        })
    }

    /// Does one unit.
    pub(crate) fn turn(
        &mut self,
        alloc: Global,
        kinds: &[Box<dyn FacetKind>],
    ) -> Result<Turn, WantMemory>
        requires covers { Covers (map name kinds.now) }
        requires fresh { self.old.spent ≡ false }
        ensures { Turned self.old self.new result }
    {
        let Some(building) = self.building.take() else {
            unreachable!()
        };
        let gone = least_unit(
            alloc,
            kinds,
            self.request,
            &self.segments,
            &mut self.bases,
            &self.least,
            building,
        )?;
        self.done += 1;
        match gone {
            LeastGone::On(building) => {
                self.building = Some(building);
                Ok(Turn::Pending)
            }
            LeastGone::Whole(message) => Ok(Turn::Done(message)),
        }
    }
}
