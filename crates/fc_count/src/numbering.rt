// Which numbers count a document.
ghost use Rattle.std.specs.Prelude.{◌≡◌, ◌<◌, ℕ, Bool, true, length, map, IsTrue};
ghost use Rattle.fc_spec.specs.messages.MessageShape.{values_fit};
ghost use Rattle.fc_partial.specs.Adding.{AddUp};
ghost use Rattle.fc_partial.specs.Celled.{cell_at, of_one};
ghost use Rattle.fc_partial.specs.View.{stat_value_view};
ghost use Rattle.fc_count.specs.Counted.{HaveCounted};

use fc_partial::{Cells, StatValue};

/// The numbers that count the document at each position.
pub trait Numbering {
    // How many positions there are, and below what the numbers are.
    ghost positions: { Self → ℕ };

    ghost bound: { Self → ℕ };
    // Whether the document at a position is counted by a number.
    ghost holds: { Self → ℕ → ℕ → Bool };

    /// Adds the document at a position, which has these statistics, to each number that counts it, once.
    fn count(&self, at: u32, values: &[StatValue], cells: &mut Cells)
        requires there { at < positions self.now }
        requires bound { length cells.old.cells ≡ bound self.now }
        requires shaped { IsTrue (values_fit cells.old.stats (map stat_value_view values.now)) }
        requires fits { (i : ℕ) → i < bound self.now → holds self.now at i ≡ true
            → AddUp (cell_at cells.old.cells i) (of_one (map stat_value_view values.now)) }
        ensures { HaveCounted (holds self.now at) (map stat_value_view values.now) cells.old cells.new };
}
