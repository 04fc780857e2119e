// Where positions go when those of a set alone are left.
ghost use Rattle.std.specs.Prelude.{◌≡◌, ◌+◌, ◌≤◌, ◌&&◌, length, map, not, IfOk, Some, None, if◌then◌else◌};
ghost use Rattle.fc_spec.specs.documents.Sets.{zip_with};
ghost use Rattle.fc_spec.specs.words.Lists.{is_empty};
ghost use Rattle.fc_docset.specs.Positions.{contains};
ghost use Rattle.fc_lists.specs.Kept.{AreCounts, kept_before};

use crate::bits::{bits_before, count_between, rank};
use crate::rows::Rows;
use fc_base::WantMemory;
use fc_docset::DocSet;
use std::alloc::Global;

/// How many positions of the set stand before each of its words.
pub fn counts_of(alloc: Global, live: &DocSet) -> Result<Vec<u32>, WantMemory>
    ensures { IfOk result (λ counts. AreCounts live.now counts.items) }
{
    // So it is known that all positions are counted by a `u32`.
    let _len = live.len();
    let counts = bits_before(alloc, live.words())?;
    Ok(counts)
}

/// How many positions of the set stand before one that is in it; none for another.
pub fn place_of(live: &DocSet, counts: &[u32], at: u32) -> Option<u32>
    requires { AreCounts live.now counts.now }
    ensures { result ≡ (if contains live.now at then Some (kept_before live.now at) else None) }
{
    rank(live.words(), counts, at)
}

/// How many positions of the set stand from one up to but not including another.
pub fn kept_between(live: &DocSet, from: u32, to: u32) -> u32
    requires order { from ≤ to }
    requires within { to ≤ length live.now }
    ensures { kept_before live.now from + result ≡ kept_before live.now to }
{
    count_between(live.words(), from, to)
}

/// The positions of the set that have items.
pub fn filled<T: Drop>(alloc: Global, rows: &Rows<T>, live: &DocSet) -> Result<DocSet, WantMemory>
    requires { length live.now ≡ length rows.now }
    ensures { IfOk result (λ filled. filled
        ≡ zip_with ◌&&◌ (map (λ row. not (is_empty row)) rows.now) live.now) }
{
    let mut words = vec![in alloc; 0; live.words().len()]?;
    rows.any(&mut words);
    let mut filled = DocSet::from_mask(alloc, live.len(), &words)?;
    filled.and_with(live);
    Ok(filled)
}
