// Merging the parents of segments, of each of which only what is live is kept.
ghost use Rattle.std.specs.Prelude.{◌≡◌, ◌+◌, ◌<◌, ◌≤◌, ◌++◌, false, count_by, length, map, slice_set, take, All, IfOk};
ghost use Rattle.std.specs.Arc.{arc_value};
ghost use Rattle.std.specs.List.{items_where_true};
ghost use Rattle.fc_docset.specs.Positions.{contains};
ghost use Rattle.fc_segment.specs.Begun.{begun};
ghost use Rattle.fc_segment.specs.Merged.{live_marks, IsWhole};

use crate::Segment;
use fc_base::WantMemory;
use fc_docset::DocSet;
use std::alloc::Global;
use std::sync::Arc;

// How many documents are live. More than a `u32` counts are answered as want of memory.
fn live_count(segments: &[Arc<Segment>]) -> Result<u32, WantMemory>
    ensures count { IfOk result (λ count. count ≡ length (live_marks (map arc_value segments.now))) }
    ensures whole { IfOk result (λ _. All IsWhole (map arc_value segments.now)) }
{
    let mut count: u32 = 0;
    for segment in segments {
        count = match count.checked_add(segment.live().count()) {
            Some(more) => more,
            None => return Err(WantMemory),
        };
    }
    Ok(count)
}

// Puts a position into the set where that is said.
fn put(set: &mut DocSet, at: u32, here: bool)
    requires within { at < length set.old }
    requires none { contains set.old at ≡ false }
    ensures { set.new ≡ slice_set set.old at here }
{
    if here {
        set.add(at);
    }
}

// Adds behind the first positions which of the live ones are parents, and answers how many there are then.
fn add_live(set: &mut DocSet, from: u32, parents: &DocSet, live: &DocSet) -> u32
    requires even { length live.now ≡ length parents.now }
    requires room { from + count_by (λ here. here) live.now ≤ length set.old }
    requires begun { set.old ≡ begun (length set.old) (take from set.old) }
    ensures set { set.new ≡ begun (length set.old)
        (take from set.old ++ items_where_true live.now parents.now) }
    ensures next { result ≡ from + count_by (λ here. here) live.now }
{
    let _len = set.len();
    let mut next = from;
    for at in live.iter() {
        put(set, next, parents.contains(at));
        next += 1;
    }
    next
}

/// The parents among what is live, one segment behind the other.
pub fn merged_parents(alloc: Global, segments: &[Arc<Segment>]) -> Result<DocSet, WantMemory>
    ensures parents { IfOk result (λ parents. parents ≡ live_marks (map arc_value segments.now)) }
    ensures whole { IfOk result (λ _. All IsWhole (map arc_value segments.now)) }
{
    let mut parents = DocSet::empty(alloc, live_count(segments)?)?;
    let mut next = 0;
    for segment in segments {
        next = add_live(&mut parents, next, segment.parents(), segment.live());
    }
    Ok(parents)
}
