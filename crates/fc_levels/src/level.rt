// Levels: facets whose job has ended, each with one bucket open.
ghost use Rattle.std.specs.Prelude.{◌≡◌, [], All, IfOk, IsTrue, map};
ghost use Rattle.fc_spec.specs.documents.Schema.{Schema};
ghost use Rattle.fc_spec.specs.documents.Sets.{places_at};
ghost use Rattle.fc_spec.specs.messages.Message.{partial, no_partials};
ghost use Rattle.fc_spec.specs.requests.Buckets.{is_key_of};
ghost use Rattle.fc_spec.specs.requests.Request.{stats_of};
ghost use Rattle.fc_spec.specs.requests.Statistics.{stats_over};
ghost use Rattle.fc_partial.specs.BucketView.{bare, buckets_view};
ghost use Rattle.fc_partial.specs.StatsView.{stats_view};
ghost use Rattle.fc_partial.specs.View.{key_view};
ghost use Rattle.fc_request.specs.FacetNode.{facet_view, has_buckets, kind_of, kind_view};
ghost use Rattle.fc_request.specs.NodeView.{inner_view};
ghost use Rattle.fc_answers.specs.Listed.{bucket_entry};
ghost use Rattle.fc_answers.specs.LiveSets.{AreLive};
ghost use Rattle.fc_answers.specs.SetAnswer.{Pieces, Scope, inside, bucket_sets, own_keys, set_rows, whole_world};
ghost use Rattle.fc_levels.specs.Facets.{nested_view};
ghost use Rattle.fc_levels.specs.Levels.{row_over, scope_in};
ghost use Rattle.fc_levels.specs.Steps.{AreKeysOf, Given, Goes, IsLevel, IsNextOf, IsValidNode, Resumes, StaysValid};

use crate::{facet_count, next_facet};
use fc_base::WantMemory;
use fc_docset::DocSet;
use fc_partial::{Key, PartialBucket, PartialNode, Stats};
use fc_request::Node;
use std::alloc::Global;

/// A facet whose job has ended, or that of a top bucket: its domain as a set of live documents for each segment, and what it
/// lists, with one bucket open.
#[derive(Debug, Drop)]
pub struct Level<'a> {
    pub node: &'a Node,
    /// Its first facet, and the nodes behind.
    pub(crate) first: &'a Node,
    pub(crate) others: &'a [Node],
    pub domain: Vec<DocSet>,
    /// The buckets before the open one.
    pub(crate) done: Vec<PartialBucket>,
    /// Those of the open bucket.
    pub key: Key,
    pub(crate) stats: Stats,
    /// The lists of its facets that are whole.
    pub(crate) rows: Vec<PartialNode>,
    /// The nodes behind the facet under way in it.
    pub(crate) left: &'a [Node],
    /// The buckets behind it, the next one last, with nothing nested.
    pub(crate) wait: Vec<PartialBucket>,
}

/// What follows the end of a job.
#[derive(Debug, Drop)]
pub enum Next<'a> {
    /// The job of a facet in the bucket that is open; and how many jobs are known from now on.
    Job(&'a Node, u64),
    /// Nothing: the list of the outermost buckets is whole. Their domain is given back.
    Whole(PartialNode, Vec<DocSet>),
}

/// Ends the job of a facet for which these buckets are listed, in the order of their keys.
pub fn job_ended<'a>(
    alloc: Global,
    levels: &mut Vec<Level<'a>>,
    node: &'a Node,
    domain: Vec<DocSet>,
    listed: Vec<PartialBucket>,
) -> Result<Next<'a>, WantMemory>
    requires { IsTrue (has_buckets (kind_of node.now)) }
    ensures goes { IfOk result (λ next. (o : Scope) (V : Pieces)
        → buckets_view listed.items ≡ bare (map
        (bucket_entry (kind_view (kind_of node.now)) (stats_of (inner_view node.now)) (places_at (whole_world V) domain.items))
        (own_keys (kind_view (kind_of node.now)) (inner_view node.now) (places_at (whole_world V) domain.items)))
        → Goes o V levels.old.items levels.new.items domain.items (row_over (scope_in o levels.old.items) V (nested_view node.now) domain.items) next) }
    ensures kept { IfOk result (λ next. (s : Schema) (V : Pieces) → All (IsLevel s V) levels.old.items
        → IsValidNode s node.now → AreLive V domain.items → AreKeysOf node.now listed.items
        → All (IsLevel s V) levels.new.items) }
    ensures next { IfOk result (λ next. (s : Schema) (V : Pieces) → All (IsLevel s V) levels.old.items
        → IsValidNode s node.now → AreLive V domain.items → AreKeysOf node.now listed.items
        → IsNextOf s V next) }
{
    let Some((first, others)) = next_facet(&node.nodes) else {
        return given(alloc, levels, domain, PartialNode { buckets: listed });
    };
    let facets = facet_count(&node.nodes) as u64;
    let Some(opened) = (listed.len() as u64).checked_mul(facets) else {
        return Err(WantMemory);
    };
    let mut wait = listed;
    wait.reverse();
    let Some(open) = wait.pop() else {
        let buckets = Vec::new(alloc);
        return given(alloc, levels, domain, PartialNode { buckets });
    };
    let PartialBucket {
        key,
        stats,
        nodes: _,
    } = open;
    levels.push(Level {
        node,
        first,
        others,
        domain,
        done: Vec::new(alloc),
        key,
        stats,
        rows: Vec::new(alloc),
        left: others,
        wait,
    })?;
    Ok(Next::Job(first, opened))
}

/// Ends the job of a bucket by itself: the one of a key of a facet, with these statistics.
pub fn top_ended<'a>(
    alloc: Global,
    levels: &mut Vec<Level<'a>>,
    node: &'a Node,
    domain: Vec<DocSet>,
    key: Key,
    stats: Stats,
) -> Result<Next<'a>, WantMemory>
    requires { IsTrue (has_buckets (kind_of node.now)) }
    ensures goes { IfOk result (λ next. (o : Scope) (V : Pieces)
        → stats_view stats ≡ stats_over (stats_of (inner_view node.now))
        (places_at (whole_world V) (bucket_sets V (kind_view (kind_of node.now)) (key_view key) domain.items))
        → Goes o V levels.old.items levels.new.items domain.items
        (partial (key_view key) (stats_view stats) (set_rows (inside (scope_in o levels.old.items) (facet_view node.now) (key_view key)) V (inner_view node.now)
        (bucket_sets V (kind_view (kind_of node.now)) (key_view key) domain.items)) no_partials) next) }
    ensures kept { IfOk result (λ next. (s : Schema) (V : Pieces) → All (IsLevel s V) levels.old.items
        → IsValidNode s node.now → AreLive V domain.items
        → IsTrue (is_key_of (kind_view (kind_of node.now)) (key_view key))
        → All (IsLevel s V) levels.new.items) }
    ensures next { IfOk result (λ next. (s : Schema) (V : Pieces) → All (IsLevel s V) levels.old.items
        → IsValidNode s node.now → AreLive V domain.items
        → IsTrue (is_key_of (kind_view (kind_of node.now)) (key_view key))
        → IsNextOf s V next) }
{
    let rows = Vec::new(alloc);
    let Some((first, others)) = next_facet(&node.nodes) else {
        let mut buckets = Vec::new(alloc);
        buckets.push(PartialBucket {
            key,
            stats,
            nodes: rows,
        })?;
        return given(alloc, levels, domain, PartialNode { buckets });
    };
    let opened = facet_count(&node.nodes) as u64;
    levels.push(Level {
        node,
        first,
        others,
        domain,
        done: Vec::new(alloc),
        key,
        stats,
        rows,
        left: others,
        wait: Vec::new(alloc),
    })?;
    Ok(Next::Job(first, opened))
}

// What a level is once the list under way in its open bucket is whole.
#[derive(Debug, Drop)]
enum Step<'a> {
    // With the next facet of the open bucket, or the first of the next bucket.
    Opened(Level<'a>, &'a Node),
    // All its buckets, and its domain.
    Closed(PartialNode, Vec<DocSet>),
}

// Puts a whole list into the open bucket of a level, and goes on to the next facet or bucket.
fn resumed<'a>(
    alloc: Global,
    mut level: Level<'a>,
    row: PartialNode,
) -> Result<Step<'a>, WantMemory>
    ensures resumes { IfOk result (Resumes level.entry row) }
    ensures valid { IfOk result (λ step. (s : Schema) (V : Pieces) → IsLevel s V level.entry → StaysValid s V step) }
{
    level.rows.push(row)?;
    if let Some((node, left)) = next_facet(level.left) {
        level.left = left;
        return Ok(Step::Opened(level, node));
    }
    let Level {
        node,
        first,
        others,
        domain,
        mut done,
        key,
        stats,
        rows,
        left: _,
        mut wait,
    } = level;
    done.push(PartialBucket {
        key,
        stats,
        nodes: rows,
    })?;
    let Some(open) = wait.pop() else {
        return Ok(Step::Closed(PartialNode { buckets: done }, domain));
    };
    let PartialBucket {
        key,
        stats,
        nodes: _,
    } = open;
    let level = Level {
        node,
        first,
        others,
        domain,
        done,
        key,
        stats,
        rows: Vec::new(alloc),
        left: others,
        wait,
    };
    Ok(Step::Opened(level, first))
}

// Puts a whole list over a domain where it belongs, and closes what is whole then.
fn given<'a>(
    alloc: Global,
    levels: &mut Vec<Level<'a>>,
    domain: Vec<DocSet>,
    row: PartialNode,
) -> Result<Next<'a>, WantMemory>
    ensures given { IfOk result (Given levels.old.items levels.new.items domain.items row) }
    ensures kept { IfOk result (λ next. (s : Schema) (V : Pieces) → All (IsLevel s V) levels.old.items
        → All (IsLevel s V) levels.new.items) }
    ensures next { IfOk result (λ next. (s : Schema) (V : Pieces) → All (IsLevel s V) levels.old.items
        → AreLive V domain.items → IsNextOf s V next) }
{
    let mut row = row;
    let mut domain = domain;
    while let Some(level) = levels.pop() {
        match resumed(alloc, level, row)? {
            Step::Opened(level, node) => {
                levels.push(level)?;
                return Ok(Next::Job(node, 0));
            }
            Step::Closed(whole, around) => {
                row = whole;
                domain = around;
            }
        }
    }
    Ok(Next::Whole(row, domain))
}
