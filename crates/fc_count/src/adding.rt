// Putting what was counted by number into a tally.
ghost use Rattle.std.specs.Prelude.{◌≡◌, ℕ, ◌<◌, ◌≤◌, length, pos, OnOk};
ghost use Rattle.fc_count.specs.Added.{AreApart, AreShaped, CellsAddUp, HaveAdded};

use crate::Keys;
use fc_base::WantMemory;
use fc_partial::{Cells, Tally};
use std::alloc::Global;

/// Combines what each number below the bound has with what its key has in the tally, where it has a document.
pub fn add_cells<K: Keys>(
    alloc: Global,
    cells: &Cells,
    bound: usize,
    keys: &K,
    into: &mut Tally,
) -> Result<(), WantMemory>
    requires length { length cells.now.cells ≡ bound }
    requires small { bound ≤ 4_294_967_296 }
    requires stats { into.old.stats ≡ cells.now.stats }
    requires shaped { AreShaped cells.now.stats cells.now.cells bound }
    requires keyed { (i : ℕ) → i < bound → K.has_key keys.now (pos i) }
    requires apart { AreApart (K.key keys.now) bound }
    requires add_up { CellsAddUp (K.key keys.now) cells.now.cells bound into.old.entries }
    ensures { OnOk result (HaveAdded (K.key keys.now) cells.now.cells bound into.old into.new) }
{
    for number in 0..bound {
        if cells.count(number) > 0 {
            keys.add(number as i64, &cells.stats(alloc, number)?, into)?;
        }
    }
    Ok(())
}
