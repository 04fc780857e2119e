// Answers from counts on that are partly built.
ghost use Rattle.std.specs.Prelude.{◌≡◌, ◌<◌, ◌≤◌, ◌+◌, ◌∷◌, [], IfOk, List, OnOk, drop, length, map, ℕ};
ghost use Rattle.std.specs.Arc.{arc_value};
ghost use Rattle.fc_spec.specs.documents.Schema.{Schema};
ghost use Rattle.fc_spec.specs.messages.Message.{first};
ghost use Rattle.fc_spec.specs.messages.TopRounds.{first_number};
ghost use Rattle.fc_request.specs.NodeView.{nodes_view};
ghost use Rattle.fc_request.specs.RequestView.{request_view};
ghost use Rattle.fc_request.specs.declared.request.Request as asked_request;
ghost use Rattle.fc_kind.specs.Names.{Covers};
ghost use Rattle.fc_segment.specs.Segmented.{Segmented};
ghost use Rattle.fc_jobs.specs.BasesKept.{AreBases};
ghost use Rattle.fc_jobs.specs.Pieces.{pieces_in};
ghost use Rattle.fc_levels.specs.Facets.{facets_of};
ghost use Rattle.fc_levels.specs.Jobs.{units_each};
ghost use Rattle.fc_levels.specs.Steps.{AreValidFacets};
ghost use Rattle.fc_units.specs.Built.{CanAnswer};
ghost use Rattle.fc_units.specs.LeastLists.{root_sets};
ghost use Rattle.fc_units.specs.Leasts.{AreFirstLists, AreLists, IsLeastBuilt, IsListJob, LeastGoesOn, LeastUnitDone, jobs_ended, least_done};
ghost use Rattle.fc_units.specs.Stepping.{IsOneFurther, StandsAtTop};

use crate::asked::asked_node;
use crate::jobs::TopJob;
use crate::units::{segment_at, top_segment};
use fc_base::WantMemory;
use fc_docset::DocSet;
use fc_jobs::{Bases, facet_unit, listed_from, tally_of};
use fc_kind::FacetKind;
use fc_levels::next_facet;
use fc_partial::{Key, Message, PartialBucket, PartialNode, Stats, Tally};
use fc_refine::Ask;
use fc_request::{Node, Request};
use fc_segment::Segment;
use std::alloc::Global;
use std::sync::Arc;

/// A facet whose values are counted.
#[derive(Drop)]
pub struct ListJob<'a> {
    pub node: &'a Node,
    /// How many segments are done.
    pub at: usize,
    pub tally: Tally,
}

/// The root's bucket, of which the first lists are whole.
#[derive(Drop)]
pub struct Lists<'a> {
    /// The root's domain, segment by segment.
    pub base: Vec<DocSet>,
    pub stats: Stats,
    pub done: Vec<PartialNode>,
    pub job: ListJob<'a>,
    /// The nodes behind the facet under way.
    pub left: &'a [Node],
}

/// An answer from counts on that is partly built: its root's bucket is under way, or a list of a facet there.
#[derive(Drop)]
pub enum LeastBuilding<'a> {
    Root(TopJob<'a>),
    Facets(Lists<'a>),
}

/// What it is after a unit.
#[derive(Drop)]
pub enum LeastGone<'a> {
    On(LeastBuilding<'a>),
    Whole(Message),
}

// The count of the facet with a number; 0 where there is none.
fn count_at(least: &[u64], number: usize) -> u64
    ensures { result ≡ first_number (drop number least.now) }
{
    least.get(number).copied().unwrap_or(0)
}

// The list of the next facet, or the answer where there is no further one.
fn next_list<'a>(
    alloc: Global,
    base: Vec<DocSet>,
    stats: Stats,
    done: Vec<PartialNode>,
    nodes: &'a [Node],
) -> Result<LeastGone<'a>, WantMemory>
    ensures { IfOk result (λ gone. (s : Schema) (cut : List Segmented) (request : asked_request.Request) (ns : List ℕ)
        → CanAnswer s cut request
        → AreFirstLists s (request_view request) (pieces_in cut) ns base.items stats done.items (facets_of (nodes_view nodes.now))
        → AreValidFacets s (nodes_view nodes.now)
        → LeastGoesOn s cut request ns (length done.items + 1) gone) }
{
    let Some((node, left)) = next_facet(nodes) else {
        let mut buckets = Vec::new(alloc);
        buckets.push(PartialBucket {
            key: Key::Whole,
            stats,
            nodes: done,
        })?;
        return Ok(LeastGone::Whole(Message { buckets }));
    };
    let tally = tally_of(alloc, node)?;
    let lists = Lists {
        base,
        stats,
        done,
        job: ListJob { node, at: 0, tally },
        left,
    };
    Ok(LeastGone::On(LeastBuilding::Facets(lists)))
}

// What follows the last segment of the root's job.
fn root_done<'a>(alloc: Global, job: TopJob<'a>) -> Result<LeastGone<'a>, WantMemory>
    ensures { IfOk result (λ gone. (s : Schema) (cut : List Segmented) (request : asked_request.Request) (ns : List ℕ)
        → StandsAtTop s cut request first 0 [] job.entry
        → length cut ≤ job.entry.at
        → LeastGoesOn s cut request ns 1 gone) }
{
    let TopJob {
        node,
        key: _,
        domain,
        at: _,
        stats: _,
        over,
    } = job;
    next_list(alloc, domain, over, Vec::new(alloc), &node.nodes)
}

// What follows a segment of the root's job, where there are so many.
fn root_followed<'a>(
    alloc: Global,
    segments: usize,
    job: TopJob<'a>,
) -> Result<LeastGone<'a>, WantMemory>
    ensures { IfOk result (λ gone. (s : Schema) (cut : List Segmented) (request : asked_request.Request) (ns : List ℕ) (done : ℕ)
        → length cut ≡ segments → done < units_each (length cut) → IsOneFurther (length cut) done job.entry.at
        → StandsAtTop s cut request first 0 [] job.entry
        → LeastUnitDone s cut request ns 0 done gone) }
{
    if job.at < segments {
        return Ok(LeastGone::On(LeastBuilding::Root(job)));
    }
    root_done(alloc, job)
}

// One segment of the root's job, and what follows.
fn root_unit<'a>(
    alloc: Global,
    kinds: &[Box<dyn FacetKind>],
    request: &'a Request,
    segments: &[Arc<Segment>],
    bases: &mut Bases<'a>,
    mut job: TopJob<'a>,
) -> Result<LeastGone<'a>, WantMemory>
    requires covers { Covers (map name kinds.now) }
    requires stands { (s : Schema) × StandsAtTop s (map arc_value segments.now) request.now first 0 [] job }
    requires within { job.at < units_each (length segments.now) }
    requires bases { AreBases (request_view request.now) (pieces_in (map arc_value segments.now)) bases.old }
    ensures gone { IfOk result (λ gone. (s : Schema) (ns : List ℕ)
        → StandsAtTop s (map arc_value segments.now) request.now first 0 [] job.entry
        → LeastUnitDone s (map arc_value segments.now) request.now ns 0 job.entry.at gone) }
    ensures bases { AreBases (request_view request.now) (pieces_in (map arc_value segments.now)) bases.new }
{
    let mut roots = Vec::new(alloc);
    top_segment(
        alloc,
        kinds,
        request,
        segments,
        bases,
        &Ask::First,
        0,
        &mut roots,
        &mut job,
    )?;
    root_followed(alloc, segments.len(), job)
}

// One segment of a facet's job, where there is one left.
fn list_segment<'a>(
    alloc: Global,
    kinds: &[Box<dyn FacetKind>],
    request: &'a Request,
    segments: &[Arc<Segment>],
    bases: &mut Bases<'a>,
    base: &[DocSet],
    job: &mut ListJob<'_>,
) -> Result<(), WantMemory>
    requires covers { Covers (map name kinds.now) }
    requires stands { (s : Schema) × CanAnswer s (map arc_value segments.now) request.now
        × IsListJob s (request_view request.now) (pieces_in (map arc_value segments.now)) job.old }
    requires base { base.now ≡ root_sets (request_view request.now) (pieces_in (map arc_value segments.now)) }
    requires bases { AreBases (request_view request.now) (pieces_in (map arc_value segments.now)) bases.old }
    ensures node { OnOk result (job.new.node.now ≡ job.old.node.now) }
    ensures stepped { OnOk result ((s : Schema) → CanAnswer s (map arc_value segments.now) request.now
        → IsListJob s (request_view request.now) (pieces_in (map arc_value segments.now)) job.old
        → IsListJob s (request_view request.now) (pieces_in (map arc_value segments.now)) job.new) }
    ensures further { OnOk result (IsOneFurther (length segments.now) job.old.at job.new.at) }
    ensures bases { AreBases (request_view request.now) (pieces_in (map arc_value segments.now)) bases.new }
{
    let at = job.at;
    let Some(segment) = segment_at(segments, at) else {
        return Ok(());
    };
    let root = asked_node(request, &Ask::First, 0);
    facet_unit(
        alloc,
        kinds,
        request,
        segment,
        at,
        bases,
        &[],
        root,
        &Key::Whole,
        &base[at],
        job.node,
        &mut job.tally,
    )?;
    job.at = at + 1;
    Ok(())
}

// What follows the last segment of a facet's job, whose list is from this count on.
fn list_done<'a>(alloc: Global, least: u64, lists: Lists<'a>) -> Result<LeastGone<'a>, WantMemory>
    requires { (s : Schema) × (cut : List Segmented) × (request : asked_request.Request) × CanAnswer s cut request
        × IsListJob s (request_view request) (pieces_in cut) lists.job }
    ensures { IfOk result (λ gone. (s : Schema) (cut : List Segmented) (request : asked_request.Request) (ns : List ℕ)
        → CanAnswer s cut request
        → AreLists s (request_view request) (pieces_in cut) ns lists.entry
        → length cut ≤ lists.entry.job.at
        → least ≡ first_number (drop (length lists.entry.done.items) ns)
        → LeastGoesOn s cut request ns (length lists.entry.done.items + 2) gone) }
{
    let Lists {
        base,
        stats,
        mut done,
        job,
        left,
    } = lists;
    let ListJob { node, at: _, tally } = job;
    let buckets = listed_from(alloc, node, tally, least)?;
    done.push(PartialNode { buckets })?;
    next_list(alloc, base, stats, done, left)
}

// What follows a segment of a facet's job, where there are so many.
fn list_followed<'a>(
    alloc: Global,
    segments: usize,
    least: &[u64],
    lists: Lists<'a>,
) -> Result<LeastGone<'a>, WantMemory>
    requires { (s : Schema) × (cut : List Segmented) × (request : asked_request.Request) × CanAnswer s cut request
        × IsListJob s (request_view request) (pieces_in cut) lists.job }
    ensures { IfOk result (λ gone. (s : Schema) (cut : List Segmented) (request : asked_request.Request) (done : ℕ)
        → CanAnswer s cut request
        → length cut ≡ segments → done < units_each (length cut) → IsOneFurther (length cut) done lists.entry.job.at
        → AreLists s (request_view request) (pieces_in cut) least.now lists.entry
        → LeastUnitDone s cut request least.now (length lists.entry.done.items + 1) done gone) }
{
    if lists.job.at < segments {
        return Ok(LeastGone::On(LeastBuilding::Facets(lists)));
    }
    let count = count_at(least, lists.done.len());
    list_done(alloc, count, lists)
}

// One segment of a facet's job, and what follows.
fn list_unit<'a>(
    alloc: Global,
    kinds: &[Box<dyn FacetKind>],
    request: &'a Request,
    segments: &[Arc<Segment>],
    bases: &mut Bases<'a>,
    least: &[u64],
    mut lists: Lists<'a>,
) -> Result<LeastGone<'a>, WantMemory>
    requires covers { Covers (map name kinds.now) }
    requires stands { (s : Schema) × CanAnswer s (map arc_value segments.now) request.now
        × AreLists s (request_view request.now) (pieces_in (map arc_value segments.now)) least.now lists }
    requires within { lists.job.at < units_each (length segments.now) }
    requires bases { AreBases (request_view request.now) (pieces_in (map arc_value segments.now)) bases.old }
    ensures gone { IfOk result (λ gone. (s : Schema) → CanAnswer s (map arc_value segments.now) request.now
        → AreLists s (request_view request.now) (pieces_in (map arc_value segments.now)) least.now lists.entry
        → LeastUnitDone s (map arc_value segments.now) request.now least.now (length lists.entry.done.items + 1) lists.entry.job.at gone) }
    ensures bases { AreBases (request_view request.now) (pieces_in (map arc_value segments.now)) bases.new }
{
    let under_way = &mut lists;
    list_segment(
        alloc,
        kinds,
        request,
        segments,
        bases,
        &under_way.base,
        &mut under_way.job,
    )?;
    list_followed(alloc, segments.len(), least, lists)
}

/// One unit, and what the answer is then.
pub fn least_unit<'a>(
    alloc: Global,
    kinds: &[Box<dyn FacetKind>],
    request: &'a Request,
    segments: &[Arc<Segment>],
    bases: &mut Bases<'a>,
    least: &[u64],
    building: LeastBuilding<'a>,
) -> Result<LeastGone<'a>, WantMemory>
    requires covers { Covers (map name kinds.now) }
    requires built { (s : Schema) × IsLeastBuilt s (map arc_value segments.now) request.now least.now building }
    requires within { least_done building < units_each (length segments.now) }
    requires bases { AreBases (request_view request.now) (pieces_in (map arc_value segments.now)) bases.old }
    ensures gone { IfOk result (λ gone. (s : Schema)
        → IsLeastBuilt s (map arc_value segments.now) request.now least.now building.entry
        → LeastUnitDone s (map arc_value segments.now) request.now least.now (jobs_ended building.entry) (least_done building.entry) gone) }
    ensures bases { AreBases (request_view request.now) (pieces_in (map arc_value segments.now)) bases.new }
{
    match building {
        LeastBuilding::Root(job) => root_unit(alloc, kinds, request, segments, bases, job),
        LeastBuilding::Facets(lists) => {
            list_unit(alloc, kinds, request, segments, bases, least, lists)
        }
    }
}
