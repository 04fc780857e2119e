// What follows a unit.
ghost use Rattle.std.specs.Prelude.{◌≡◌, ◌⊎◌, ◌<◌, ◌≤◌, ◌++◌, [], IfOk, IsTrue, List, ℕ, length, map};
ghost use Rattle.std.specs.Arc.{arc_value};
ghost use Rattle.fc_spec.specs.documents.Schema.{Schema};
ghost use Rattle.fc_spec.specs.requests.Request.{stats_of};
ghost use Rattle.fc_partial.specs.BucketView.{bucket_view, linked};
ghost use Rattle.fc_request.specs.FacetNode.{has_buckets, kind_of};
ghost use Rattle.fc_request.specs.NodeView.{inner_view};
ghost use Rattle.fc_request.specs.RequestView.{request_view};
ghost use Rattle.fc_refine.specs.AskView.{ask_view};
ghost use Rattle.fc_kind.specs.Names.{Covers};
ghost use Rattle.fc_answers.specs.SetAnswer.{Sets, base_of};
ghost use Rattle.fc_segment.specs.Segmented.{Segmented};
ghost use Rattle.fc_jobs.specs.BasesKept.{AreBases};
ghost use Rattle.fc_jobs.specs.Gathered.{AreFirst};
ghost use Rattle.fc_levels.specs.Facets.{nested_view};
ghost use Rattle.fc_levels.specs.Jobs.{openings, units_each};
ghost use Rattle.fc_levels.specs.Levels.{ended_in};
ghost use Rattle.fc_jobs.specs.Pieces.{pieces_in};
ghost use Rattle.fc_units.specs.Asked as asked;
ghost use Rattle.fc_refine.specs.Named.{NamesKeys};
ghost use Rattle.fc_units.specs.Asked.{FitsTop, HasSameDomain, top_scope};
ghost use Rattle.fc_units.specs.Built.{CanAnswer, IsBuilt, IsTopJob, IsUnder, done_in, row_under_way, zeroed};
ghost use Rattle.fc_units.specs.Going.{AreFront, Begins, Ends, GoesOn, UnitDone, ended_by, known_already, opened_by};
ghost use Rattle.fc_units.specs.Stepping.{IsOneFurther, StandsAtFacet, StandsAtTop};

use crate::asked::{asked_count, asked_key, asked_node, has_same_domain};
use crate::building::Building;
use crate::jobs::{FacetJob, Job, TopJob};
use crate::units::{facet_segment, top_segment};
use fc_base::WantMemory;
use fc_docset::DocSet;
use fc_jobs::{Bases, listed, tally_of};
use fc_kind::FacetKind;
use fc_levels::{Level, Next, job_ended, top_ended};
use fc_partial::{Message, PartialBucket, PartialNode, Stats};
use fc_refine::Ask;
use fc_request::{Node, Request};
use fc_segment::Segment;
use std::alloc::Global;
use std::sync::Arc;

/// What an answer is after a unit.
#[derive(Drop)]
pub enum Gone<'a> {
    /// Partly built; and how many jobs are known from now on.
    On(Building<'a>, u64),
    Whole(Message),
}

/// The job of a top bucket, of which no segment is done.
pub fn top_job<'a>(
    alloc: Global,
    request: &'a Request,
    ask: &Ask,
    number: usize,
    domain: Vec<DocSet>,
) -> Result<TopJob<'a>, WantMemory>
    requires number { number < asked.asked_count (ask_view ask.now) }
    requires names { NamesKeys (request_view request.now).nodes (ask_view ask.now) }
    ensures begun { IfOk result (λ job. (s : Schema) (segments : List Segmented) (roots : Sets)
        → CanAnswer s segments request.now
        → FitsTop (nested_view request.now.root) (request_view request.now) (pieces_in segments) (ask_view ask.now) number domain.items
        → IsTopJob s request.now (pieces_in segments) (ask_view ask.now) number roots job) }
    ensures at { IfOk result (λ job. job.at ≡ 0) }
{
    let node = asked_node(request, ask, number);
    let key = asked_key(alloc, ask, number)?;
    let stats = node.stats(alloc)?;
    let over = Stats::neutral(alloc, &stats)?;
    Ok(TopJob {
        node,
        key,
        domain,
        at: 0,
        stats,
        over,
    })
}

// The job of a facet, of which no segment is done.
fn facet_job<'a>(alloc: Global, node: &'a Node) -> Result<FacetJob<'a>, WantMemory>
    ensures node { IfOk result (λ job. job.node.now ≡ node.now) }
    ensures domain { IfOk result (λ job. job.domain.items ≡ []) }
    ensures tally { IfOk result (λ job. job.tally ≡ record { stats = stats_of (inner_view node.now); entries = [] }) }
{
    let tally = tally_of(alloc, node)?;
    Ok(FacetJob {
        node,
        domain: Vec::new(alloc),
        tally,
    })
}

// The domain of the bucket before, where the next one has the same; else none.
fn kept_domain(alloc: Global, ask: &Ask, number: usize, domain: Vec<DocSet>) -> Vec<DocSet>
    requires { number < asked.asked_count (ask_view ask.now) }
    ensures { (result.items ≡ domain.items) × HasSameDomain (ask_view ask.now) number ⊎ (result.items ≡ []) }
{
    if has_same_domain(ask, number) {
        domain
    } else {
        Vec::new(alloc)
    }
}

// After the last bucket that was whole: the next top bucket, or the message.
fn next_top<'a>(
    alloc: Global,
    request: &'a Request,
    ask: &Ask,
    roots: Vec<DocSet>,
    buckets: Vec<PartialBucket>,
    domain: Vec<DocSet>,
) -> Result<Gone<'a>, WantMemory>
    requires names { NamesKeys (request_view request.now).nodes (ask_view ask.now) }
    ensures { IfOk result (λ gone. (s : Schema) (segments : List Segmented) → CanAnswer s segments request.now
        → AreFirst (map (base_of (request_view request.now) []) (pieces_in segments)) roots.items
        → AreFront (request_view request.now) (pieces_in segments) (ask_view ask.now) buckets.items
        → (HasSameDomain (ask_view ask.now) (length buckets.items)
        → FitsTop (nested_view request.now.root) (request_view request.now) (pieces_in segments) (ask_view ask.now) (length buckets.items) domain.items)
        → Begins s segments request.now (ask_view ask.now) buckets.items gone) }
{
    let number = buckets.len();
    if number >= asked_count(ask) {
        return Ok(Gone::Whole(Message { buckets }));
    }
    let domain = kept_domain(alloc, ask, number, domain);
    let job = top_job(alloc, request, ask, number, domain)?;
    let levels = Vec::new(alloc);
    let building = Building {
        roots,
        buckets,
        levels,
        job: Job::Top(job),
    };
    Ok(Gone::On(building, 0))
}

// What follows the end of a job.
fn after_job<'a>(
    alloc: Global,
    request: &'a Request,
    ask: &Ask,
    roots: Vec<DocSet>,
    mut buckets: Vec<PartialBucket>,
    levels: Vec<Level<'a>>,
    next: Next<'a>,
) -> Result<Gone<'a>, WantMemory>
    requires names { NamesKeys (request_view request.now).nodes (ask_view ask.now) }
    ensures { IfOk result (λ gone. (s : Schema) (segments : List Segmented) (before : List ℕ) → CanAnswer s segments request.now
        → AreFirst (map (base_of (request_view request.now) []) (pieces_in segments)) roots.items
        → AreFront (request_view request.now) (pieces_in segments) (ask_view ask.now) buckets.items
        → Ends s segments request.now (ask_view ask.now) (length buckets.items) before levels.entry.items next.entry
        → GoesOn s segments request.now (ask_view ask.now) (openings (linked (map bucket_view buckets.items)) ++ before) (opened_by next.entry) gone) }
{
    match next {
        Next::Job(node, opened) => {
            let job = facet_job(alloc, node)?;
            let building = Building {
                roots,
                buckets,
                levels,
                job: Job::Facet(job),
            };
            Ok(Gone::On(building, opened))
        }
        Next::Whole(node, domain) => {
            let PartialNode { buckets: mut whole } = node;
            buckets.append(&mut whole)?;
            next_top(alloc, request, ask, roots, buckets, domain)
        }
    }
}

// The jobs directly in a top bucket are known from the start.
fn known_before<'a>(next: Next<'a>) -> Next<'a>
    ensures { result ≡ known_already next.entry }
{
    match next {
        Next::Job(node, _) => Next::Job(node, 0),
        Next::Whole(node, domain) => Next::Whole(node, domain),
    }
}

// What follows the last segment of a top bucket's job.
fn top_done<'a>(
    alloc: Global,
    request: &'a Request,
    ask: &Ask,
    roots: Vec<DocSet>,
    buckets: Vec<PartialBucket>,
    job: TopJob<'a>,
) -> Result<Gone<'a>, WantMemory>
    requires names { NamesKeys (request_view request.now).nodes (ask_view ask.now) }
    requires facet { IsTrue (has_buckets (kind_of job.node.now)) }
    ensures { IfOk result (λ gone. (s : Schema) (cut : List Segmented)
        → StandsAtTop s cut request.now (ask_view ask.now) (length buckets.items) roots.items job.entry
        → length cut ≤ job.entry.at
        → AreFront (request_view request.now) (pieces_in cut) (ask_view ask.now) buckets.items
        → (k : ℕ) × GoesOn s cut request.now (ask_view ask.now) (openings (linked (map bucket_view buckets.items))) k gone) }
{
    let TopJob {
        node,
        key,
        domain,
        at: _,
        stats: _,
        over,
    } = job;
    let mut levels = Vec::new(alloc);
    let next = top_ended(alloc, &mut levels, node, domain, key, over)?;
    let known = known_before(next);
    after_job(alloc, request, ask, roots, buckets, levels, known)
}

// What follows a segment of a top bucket's job, where there are so many.
fn top_followed<'a>(
    alloc: Global,
    request: &'a Request,
    ask: &Ask,
    segments: usize,
    roots: Vec<DocSet>,
    buckets: Vec<PartialBucket>,
    job: TopJob<'a>,
) -> Result<Gone<'a>, WantMemory>
    requires names { NamesKeys (request_view request.now).nodes (ask_view ask.now) }
    requires facet { IsTrue (has_buckets (kind_of job.node.now)) }
    ensures { IfOk result (λ gone. (s : Schema) (cut : List Segmented) (done : ℕ) → length cut ≡ segments
        → done < units_each (length cut) → IsOneFurther (length cut) done job.entry.at
        → StandsAtTop s cut request.now (ask_view ask.now) (length buckets.items) roots.items job.entry
        → AreFront (request_view request.now) (pieces_in cut) (ask_view ask.now) buckets.items
        → UnitDone s cut request.now (ask_view ask.now) (openings (linked (map bucket_view buckets.items))) done gone) }
{
    if job.at < segments {
        let levels = Vec::new(alloc);
        let building = Building {
            roots,
            buckets,
            levels,
            job: Job::Top(job),
        };
        return Ok(Gone::On(building, 0));
    }
    top_done(alloc, request, ask, roots, buckets, job)
}

// One segment of a top bucket's job, and what follows.
fn top_unit<'a>(
    alloc: Global,
    kinds: &[Box<dyn FacetKind>],
    request: &'a Request,
    segments: &[Arc<Segment>],
    bases: &mut Bases<'a>,
    ask: &Ask,
    mut roots: Vec<DocSet>,
    buckets: Vec<PartialBucket>,
    mut job: TopJob<'a>,
) -> Result<Gone<'a>, WantMemory>
    requires covers { Covers (map name kinds.now) }
    requires number { length buckets.items < asked.asked_count (ask_view ask.now) }
    requires names { NamesKeys (request_view request.now).nodes (ask_view ask.now) }
    requires stands { (s : Schema) × StandsAtTop s (map arc_value segments.now) request.now (ask_view ask.now) (length buckets.items) roots.items job }
    requires within { job.at < units_each (length segments.now) }
    requires bases { AreBases (request_view request.now) (pieces_in (map arc_value segments.now)) bases.old }
    ensures gone { IfOk result (λ gone. (s : Schema)
        → StandsAtTop s (map arc_value segments.now) request.now (ask_view ask.now) (length buckets.items) roots.items job.entry
        → AreFront (request_view request.now) (pieces_in (map arc_value segments.now)) (ask_view ask.now) buckets.items
        → UnitDone s (map arc_value segments.now) request.now (ask_view ask.now) (openings (linked (map bucket_view buckets.items))) job.entry.at gone) }
    ensures bases { AreBases (request_view request.now) (pieces_in (map arc_value segments.now)) bases.new }
{
    let number = buckets.len();
    top_segment(
        alloc, kinds, request, segments, bases, ask, number, &mut roots, &mut job,
    )?;
    top_followed(alloc, request, ask, segments.len(), roots, buckets, job)
}

// What follows the last segment of a facet's job.
fn facet_done<'a>(
    alloc: Global,
    request: &'a Request,
    ask: &Ask,
    roots: Vec<DocSet>,
    buckets: Vec<PartialBucket>,
    mut levels: Vec<Level<'a>>,
    job: FacetJob<'a>,
) -> Result<Gone<'a>, WantMemory>
    requires names { NamesKeys (request_view request.now).nodes (ask_view ask.now) }
    requires stands { (s : Schema) × (cut : List Segmented) × StandsAtFacet s cut request.now (ask_view ask.now) (length buckets.items) levels.items job }
    ensures { IfOk result (λ gone. (s : Schema) (cut : List Segmented)
        → StandsAtFacet s cut request.now (ask_view ask.now) (length buckets.items) levels.entry.items job.entry
        → length cut ≤ length job.entry.domain.items
        → AreFirst (map (base_of (request_view request.now) []) (pieces_in cut)) roots.items
        → AreFront (request_view request.now) (pieces_in cut) (ask_view ask.now) buckets.items
        → IsUnder request.now (pieces_in cut) (ask_view ask.now) (length buckets.items) levels.entry.items
        (row_under_way (top_scope (request_view request.now) (ask_view ask.now) (length buckets.items)) (pieces_in cut) levels.entry.items job.entry)
        → (k : ℕ) × GoesOn s cut request.now (ask_view ask.now)
        (openings (linked (map bucket_view buckets.items)) ++ zeroed (ended_in (top_scope (request_view request.now) (ask_view ask.now) (length buckets.items)) (pieces_in cut) levels.entry.items
        (row_under_way (top_scope (request_view request.now) (ask_view ask.now) (length buckets.items)) (pieces_in cut) levels.entry.items job.entry))) k gone) }
{
    let FacetJob {
        node,
        domain,
        tally,
    } = job;
    let list = listed(alloc, node, tally)?;
    let next = job_ended(alloc, &mut levels, node, domain, list)?;
    after_job(alloc, request, ask, roots, buckets, levels, next)
}

// What follows a segment of a facet's job, where there are so many.
fn facet_followed<'a>(
    alloc: Global,
    request: &'a Request,
    ask: &Ask,
    segments: usize,
    roots: Vec<DocSet>,
    buckets: Vec<PartialBucket>,
    levels: Vec<Level<'a>>,
    job: FacetJob<'a>,
) -> Result<Gone<'a>, WantMemory>
    requires names { NamesKeys (request_view request.now).nodes (ask_view ask.now) }
    requires stands { (s : Schema) × (cut : List Segmented) × StandsAtFacet s cut request.now (ask_view ask.now) (length buckets.items) levels.items job }
    ensures { IfOk result (λ gone. (s : Schema) (cut : List Segmented) (done : ℕ) → length cut ≡ segments
        → done < units_each (length cut) → IsOneFurther (length cut) done (length job.entry.domain.items)
        → StandsAtFacet s cut request.now (ask_view ask.now) (length buckets.items) levels.entry.items job.entry
        → AreFirst (map (base_of (request_view request.now) []) (pieces_in cut)) roots.items
        → AreFront (request_view request.now) (pieces_in cut) (ask_view ask.now) buckets.items
        → IsUnder request.now (pieces_in cut) (ask_view ask.now) (length buckets.items) levels.entry.items
        (row_under_way (top_scope (request_view request.now) (ask_view ask.now) (length buckets.items)) (pieces_in cut) levels.entry.items job.entry)
        → UnitDone s cut request.now (ask_view ask.now)
        (openings (linked (map bucket_view buckets.items)) ++ zeroed (ended_in (top_scope (request_view request.now) (ask_view ask.now) (length buckets.items)) (pieces_in cut) levels.entry.items
        (row_under_way (top_scope (request_view request.now) (ask_view ask.now) (length buckets.items)) (pieces_in cut) levels.entry.items job.entry))) done gone) }
{
    if job.domain.len() < segments {
        let building = Building {
            roots,
            buckets,
            levels,
            job: Job::Facet(job),
        };
        return Ok(Gone::On(building, 0));
    }
    facet_done(alloc, request, ask, roots, buckets, levels, job)
}

// One segment of a facet's job, and what follows.
fn facet_unit_done<'a>(
    alloc: Global,
    kinds: &[Box<dyn FacetKind>],
    request: &'a Request,
    segments: &[Arc<Segment>],
    bases: &mut Bases<'a>,
    ask: &Ask,
    roots: Vec<DocSet>,
    buckets: Vec<PartialBucket>,
    levels: Vec<Level<'a>>,
    mut job: FacetJob<'a>,
) -> Result<Gone<'a>, WantMemory>
    requires covers { Covers (map name kinds.now) }
    requires number { length buckets.items < asked.asked_count (ask_view ask.now) }
    requires names { NamesKeys (request_view request.now).nodes (ask_view ask.now) }
    requires stands { (s : Schema) × StandsAtFacet s (map arc_value segments.now) request.now (ask_view ask.now) (length buckets.items) levels.items job }
    requires within { length job.domain.items < units_each (length segments.now) }
    requires bases { AreBases (request_view request.now) (pieces_in (map arc_value segments.now)) bases.old }
    ensures gone { IfOk result (λ gone. (s : Schema)
        → StandsAtFacet s (map arc_value segments.now) request.now (ask_view ask.now) (length buckets.items) levels.entry.items job.entry
        → AreFirst (map (base_of (request_view request.now) []) (pieces_in (map arc_value segments.now))) roots.items
        → AreFront (request_view request.now) (pieces_in (map arc_value segments.now)) (ask_view ask.now) buckets.items
        → IsUnder request.now (pieces_in (map arc_value segments.now)) (ask_view ask.now) (length buckets.items) levels.entry.items
        (row_under_way (top_scope (request_view request.now) (ask_view ask.now) (length buckets.items)) (pieces_in (map arc_value segments.now)) levels.entry.items job.entry)
        → UnitDone s (map arc_value segments.now) request.now (ask_view ask.now)
        (openings (linked (map bucket_view buckets.items)) ++ zeroed (ended_in (top_scope (request_view request.now) (ask_view ask.now) (length buckets.items)) (pieces_in (map arc_value segments.now)) levels.entry.items
        (row_under_way (top_scope (request_view request.now) (ask_view ask.now) (length buckets.items)) (pieces_in (map arc_value segments.now)) levels.entry.items job.entry)))
        (length job.entry.domain.items) gone) }
    ensures bases { AreBases (request_view request.now) (pieces_in (map arc_value segments.now)) bases.new }
{
    let number = buckets.len();
    facet_segment(
        alloc, kinds, request, segments, bases, ask, number, &levels, &mut job,
    )?;
    facet_followed(
        alloc,
        request,
        ask,
        segments.len(),
        roots,
        buckets,
        levels,
        job,
    )
}

/// One unit, and what the answer is then.
pub fn unit_done<'a>(
    alloc: Global,
    kinds: &[Box<dyn FacetKind>],
    request: &'a Request,
    segments: &[Arc<Segment>],
    bases: &mut Bases<'a>,
    ask: &Ask,
    building: Building<'a>,
) -> Result<Gone<'a>, WantMemory>
    requires covers { Covers (map name kinds.now) }
    requires names { NamesKeys (request_view request.now).nodes (ask_view ask.now) }
    requires built { (s : Schema) × IsBuilt s (map arc_value segments.now) request.now (ask_view ask.now) building }
    requires within { done_in building.job < units_each (length segments.now) }
    requires bases { AreBases (request_view request.now) (pieces_in (map arc_value segments.now)) bases.old }
    ensures gone { IfOk result (λ gone. (s : Schema) → IsBuilt s (map arc_value segments.now) request.now (ask_view ask.now) building.entry
        → UnitDone s (map arc_value segments.now) request.now (ask_view ask.now)
        (ended_by (request_view request.now) (pieces_in (map arc_value segments.now)) (ask_view ask.now) building.entry) (done_in building.entry.job) gone) }
    ensures bases { AreBases (request_view request.now) (pieces_in (map arc_value segments.now)) bases.new }
{
    let Building {
        roots,
        buckets,
        levels,
        job,
    } = building;
    match job {
        Job::Top(job) => top_unit(
            alloc, kinds, request, segments, bases, ask, roots, buckets, job,
        ),
        Job::Facet(job) => facet_unit_done(
            alloc, kinds, request, segments, bases, ask, roots, buckets, levels, job,
        ),
    }
}
