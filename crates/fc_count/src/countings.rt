// The documents that numbers count.
ghost use Rattle.std.specs.Prelude.{◌≡◌, ◌<◌, ◌⊎◌, ◌++◌, ℕ, Bool, true, [], ◌∷◌, length, slice_index, All, IfOk, OnOk, OnErr};

use fc_base::WantMemory;
use std::alloc::Global;
use std::marker::Model;

// A number, and the row of the document that it counts.
#[derive(Clone, Copy, Debug)]
pub(crate) struct Entry {
    pub(crate) number: i64,
    pub(crate) row: usize,
}

/// The documents that numbers count, seen as the list of the numbers, each with the position of its document. A document
/// has one row, where its numbers stand one after another.
#[derive(Debug, Drop)]
pub struct Countings {
    // The position of each row's document.
    positions: Vec<u32>,
    entries: Vec<Entry>,
}

impl Model for Countings {
    ghost use Rattle.std.specs.Prelude.{List};
    ghost use Rattle.fc_count.specs.Counting.{Counting};
    ghost use Rattle.fc_count.specs.Countings.{countings_view, AreInRows};

    ghost Value = { List Counting };

    ghost view = { countings_view };

    ghost invariant = { AreInRows };
}

impl Countings {
    ghost use Rattle.fc_count.specs.Countings.{counted_at};

    /// None.
    pub fn new(alloc: Global) -> Countings
        ensures { result ≡ [] }
    {
        Countings {
            positions: Vec::new(alloc),
            entries: Vec::new(alloc),
        }
    }

    /// Puts a number behind the others, with the position of the document that it counts.
    pub fn push(&mut self, number: i64, at: u32) -> Result<(), WantMemory>
        ensures ok { OnOk result
            (self.new ≡ self.old ++ record { number = number; at = at } ∷ []) }
        ensures err { OnErr result (self.new ≡ self.old) }
    {
        self.entries.reserve(1)?;
        let row = row_for(&mut self.positions, at)?;
        self.entries.push_reserved(Entry { number, row });
        Ok(())
    }

    // The position of each row, and the numbers with their rows.
    pub(crate) fn into_parts(self) -> (Vec<u32>, Vec<Entry>)
        ensures same { counted_at result.0.items result.1.items ≡ self }
        ensures there { All (λ e. e.row < length result.0.items) result.1.items }
        ensures counted { (p : ℕ → Bool) → All (λ c. p c.at ≡ true) self
            → All (λ at. p at ≡ true) result.0.items }
    {
        (self.positions, self.entries)
    }
}

// The last row, where it is that of the position, else a new one.
fn row_for(positions: &mut Vec<u32>, at: u32) -> Result<usize, WantMemory>
    ensures within { IfOk result (λ row. row < length positions.new.items) }
    ensures own { IfOk result (λ row. slice_index positions.new.items row ≡ at) }
    ensures grown { IfOk result (λ _. (positions.new.items ≡ positions.old.items)
        ⊎ (positions.new.items ≡ positions.old.items ++ at ∷ [])) }
    ensures err { OnErr result (positions.new.items ≡ positions.old.items) }
{
    let rows = positions.len();
    if rows > 0 && positions[rows - 1] == at {
        return Ok(rows - 1);
    }
    positions.push(at)?;
    Ok(rows)
}
