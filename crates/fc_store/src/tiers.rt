// Which segments are merged behind a commit.
ghost use Rattle.std.specs.Prelude.{◌≡◌, ◌*◌, ◌<◌, ◌≤◌, ◌-◌, ◌⊎◌, ◌++◌, ◌∷◌, [], length, map, slice_get, slice_index, sum, take, drop, All, IfOk, IfSome, MatchBool};
ghost use Rattle.std.specs.Arc.{arc_value};
ghost use Rattle.fc_spec.specs.documents.Totals.{document_total};
ghost use Rattle.fc_segment.specs.Merged.{live_blocks};
ghost use Rattle.fc_store.specs.Segments.{AreDense, IsSparse};
ghost use Rattle.fc_store.specs.Tiers.{ArePassed, AreTiered, sizes_of};

use fc_base::WantMemory;
use fc_segment::Segment;
use std::sync::Arc;

// How many documents a segment has.
fn size_at(segments: &[Arc<Segment>], at: usize) -> u32
    requires { at < length segments.now }
    ensures { result ≡ slice_index (sizes_of (map arc_value segments.now)) at }
{
    segments[at].doc_count()
}

// Whether fewer documents of a segment are live than dead.
fn is_sparse(segment: &Segment) -> bool
    ensures { MatchBool result (IsSparse segment.now)
        (document_total segment.now.blocks ≤ 2 * document_total (live_blocks segment.now)) }
{
    2 * u64::from(segment.live().count()) < u64::from(segment.doc_count())
}

/// The place of the first segment of which fewer documents are live than dead: the number of segments where there is none.
pub fn first_sparse(segments: &[Arc<Segment>]) -> usize
    ensures within { result ≤ length segments.now }
    ensures dense { AreDense (take result (map arc_value segments.now)) }
    ensures sparse { IfSome (slice_get (map arc_value segments.now) result) IsSparse }
{
    for (at, segment) in segments.iter().enumerate() {
        if is_sparse(segment) {
            return at;
        }
    }
    segments.len()
}

// Whether segments from a place on, which have so many documents, are merged with the one before them: where a sparse one stands before
// the place, or that one has fewer than twice as many documents.
fn goes_on(segments: &[Arc<Segment>], sparse: usize, place: usize, size: u32) -> bool
    requires some { 0 < place }
    requires within { place < length segments.now }
    ensures { let ahead = slice_index (sizes_of (map arc_value segments.now)) (place - 1) in
        MatchBool result ((sparse < place) ⊎ (ahead < 2 * size)) ((place ≤ sparse) × (2 * size ≤ ahead)) }
{
    place > sparse || u64::from(size_at(segments, place - 1)) < 2 * u64::from(size)
}

/// From which place on segments are merged into one, so that each has at least twice as many documents as the next one: a given place, or
/// one before it, and the last place where no segment stands there. Merging the last two again and again, while one has fewer than
/// twice as many as the next, ends with the same segments, but copies documents more than once. A segment has at most 4,294,967,295
/// documents: more are answered as want of memory.
pub fn merged_from(segments: &[Arc<Segment>], sparse: usize) -> Result<usize, WantMemory>
    requires any { 0 < length segments.now }
    requires some { All (λ size. 0 < size) (sizes_of (map arc_value segments.now)) }
    requires tiers { AreTiered (take (length segments.now - 1) (sizes_of (map arc_value segments.now))) }
    ensures within { IfOk result (λ place. place < length segments.now) }
    ensures low { IfOk result (λ place. place ≤ sparse) }
    ensures tiers { IfOk result (λ place. AreTiered (take place (sizes_of (map arc_value segments.now))
        ++ sum (drop place (sizes_of (map arc_value segments.now))) ∷ [])) }
    ensures needed { IfOk result (λ place. ArePassed sparse place (sizes_of (map arc_value segments.now))) }
{
    let mut place = segments.len() - 1;
    let mut size = size_at(segments, place);
    while place > 0 && goes_on(segments, sparse, place, size) {
        place -= 1;
        size = size
            .checked_add(size_at(segments, place))
            .ok_or(WantMemory)?;
    }
    Ok(place)
}
