// Integers in ascending order, each with its position.
ghost use Rattle.std.specs.Prelude.{map, IfOk};
ghost use Rattle.std.specs.List.Sorted.{IsPermutation};
ghost use Rattle.fc_lists.specs.Ordered.{AreInOrderOf, Rise};

use crate::entries::{Entry, items_of, positions_of};
use fc_base::WantMemory;
use std::alloc::Global;

/// The integers of the entries in ascending order, and beside each its position.
pub fn in_order(alloc: Global, entries: Vec<Entry<i64>>) -> Result<(Vec<i64>, Vec<u32>), WantMemory>
    ensures { IfOk result (λ made. AreInOrderOf entries.items made.0.items made.1.items) }
{
    let sorted = sorted(entries)?;
    let values = items_of(alloc, &sorted)?;
    let positions = positions_of(alloc, &sorted)?;
    Ok((values, positions))
}

// The entries in the order of their integers.
fn sorted(entries: Vec<Entry<i64>>) -> Result<Vec<Entry<i64>>, WantMemory>
    ensures entries { IfOk result (λ sorted. IsPermutation entries.items sorted.items) }
    ensures rising { IfOk result (λ sorted. Rise (map (λ entry. entry.item) sorted.items)) }
{
    let mut sorted = entries;
    sorted.sort_by_key(|entry| entry.item)?;
    Ok(sorted)
}
