// Columns of integers.
ghost use Rattle.std.specs.Prelude.{◌≡◌, ℕ, ◌==◌, ◌<◌, ◌≤◌, [], ◌∷◌, ◌++◌, length, map, not, replicate, count_by, slice_index_or, true, ◌≤ℤ◌, ◌↔◌, All, IfOk, IsNone, IfSome, OnOk};
ghost use Rattle.std.specs.Ordering.{int_cmp};
ghost use Rattle.fc_spec.specs.documents.Bits.{words_for, first_bits, HasBits};
ghost use Rattle.fc_spec.specs.documents.Columns.{IsLong, IsAscending, longs_in};
ghost use Rattle.fc_spec.specs.documents.Val.{val_cmp};
ghost use Rattle.fc_base.specs.View.{val_view};
ghost use Rattle.fc_spec.specs.documents.IntegerTexts.{is_long};
ghost use Rattle.fc_spec.specs.words.Lists.{is_empty};
ghost use Rattle.fc_lane.specs.Between.{is_between};
ghost use Rattle.fc_column.specs.Longs.{AreThere, has_between};
ghost use Rattle.fc_lists.specs.Flat.{flat, spread_over};
ghost use Rattle.fc_lists.specs.Ordered.{AreInOrder};

use fc_base::{Val, WantMemory};
use fc_lane::mask_between;
use fc_lists::{Entries, Rows, mark};
use std::alloc::Global;
use std::marker::Model;

/// The integers of each position, seen as the list, position by position, of its integers in
/// ascending order, each once.
#[derive(Debug, Drop)]
pub struct LongColumn {
    rows: Rows<i64>,
    // The integers of all positions in ascending order, and beside each its position.
    values: Vec<i64>,
    positions: Vec<u32>,
}

impl Model for LongColumn {
    ghost use Rattle.std.specs.Prelude.{ℤ, List};

    ghost Value = { List (List ℤ) };

    ghost use Rattle.fc_column.specs.LongColumn.{IsColumn};

    ghost view = { λ column. column.rows };

    ghost invariant = { IsColumn };
}

impl LongColumn {
    /// How many positions there are.
    pub fn len(&self) -> u32
        ensures count { result ≡ length self.now }
        ensures long { All (All (λ value. is_long value ≡ true)) self.now }
    {
        self.rows.len()
    }

    /// The least and the greatest integer of all positions. There are none where no position has an integer.
    pub fn ends(&self) -> Option<(i64, i64)>
        ensures none { IsNone result ↔ All (λ values. values ≡ []) self.now }
        ensures order { IfSome result (λ ends. ends.0 ≤ℤ ends.1) }
        ensures between { IfSome result (λ ends.
            All (All (λ value. is_between ends.0 ends.1 value ≡ true)) self.now) }
        ensures there { IfSome result (λ ends. AreThere ends.0 ends.1 self.now) }
    {
        match (self.values.first(), self.values.last()) {
            (Some(least), Some(greatest)) => Some((*least, *greatest)),
            _ => None,
        }
    }

    // The column of these rows, whose integers stand in order.
    pub(crate) fn of(rows: Rows<i64>, values: Vec<i64>, positions: Vec<u32>) -> LongColumn
        requires ascending { All (IsAscending int_cmp) rows }
        requires long { All (All (λ value. is_long value ≡ true)) rows }
        requires order { AreInOrder values.items positions.items rows }
        ensures { result ≡ rows }
    {
        LongColumn {
            rows,
            values,
            positions,
        }
    }

    // The integers of each position.
    pub(crate) fn rows(&self) -> &Rows<i64>
        ensures rows { result.now ≡ self.now }
        ensures ascending { All (IsAscending int_cmp) self.now }
        ensures long { All (All (λ value. is_long value ≡ true)) self.now }
    {
        &self.rows
    }

    // The integers of all positions in ascending order, and beside each its position.
    pub(crate) fn in_order(&self) -> (&[i64], &[u32])
        ensures { AreInOrder result.0.now result.1.now self.now }
    {
        (&self.values, &self.positions)
    }

    /// The integers of a position.
    pub fn values_of(&self, doc: u32) -> &[i64]
        requires { doc < length self.now }
        ensures values { result.now ≡ slice_index_or self.now doc [] }
        ensures ascending { IsAscending int_cmp result.now }
        ensures long { All (λ value. is_long value ≡ true) result.now }
    {
        self.rows.row(doc)
    }

    /// The integers of all positions, one position behind the other.
    pub fn flat(&self) -> &[i64]
        ensures values { result.now ≡ flat self.now }
        ensures long { All (λ value. is_long value ≡ true) result.now }
    {
        self.rows.flat()
    }

    /// The integer of each position, where it is known that each position has exactly one.
    pub fn singles(&self) -> Option<&[i64]>
        ensures values { IfSome result (λ values. self.now ≡ map (λ value. value ∷ []) values.now) }
        ensures long { IfSome result (λ values. All (λ value. is_long value ≡ true) values.now) }
    {
        self.rows.singles()
    }

    /// Makes the bits exactly those of the places in `flat` whose position has the bit 1 in `docs`. Bit j of word i stands for
    /// position, or place, 64 i + j. Bits of `docs` past the last position are passed over.
    pub fn spread(&self, docs: &[u64], into: &mut [u64])
        requires enough { words_for (length self.now) ≤ length docs.now }
        requires room { words_for (length (flat self.now)) ≤ length into.old }
        ensures { HasBits into.new (spread_over (first_bits (length self.now) docs.now) self.now) }
    {
        self.rows.spread(docs, into);
    }

    /// Makes the bits exactly those of the positions with an integer. Bit j of word i stands for
    /// position 64 i + j.
    pub fn any(&self, into: &mut [u64])
        requires { words_for (length self.now) ≤ length into.old }
        ensures { HasBits into.new (map (λ values. not (is_empty values)) self.now) }
    {
        self.rows.any(into);
    }

    /// Makes the bits exactly those of the positions with an integer from `lo` to `hi`, both included.
    /// Bit j of word i stands for position 64 i + j.
    pub fn between(&self, lo: i64, hi: i64, into: &mut [u64])
        requires { words_for (length self.now) ≤ length into.old }
        ensures bits { HasBits into.new (map (has_between lo hi) self.now) }
        ensures long { All (All (λ value. is_long value ≡ true)) self.now }
    {
        let found = self.positions_between(lo, hi);
        match self.singles() {
            // To mark more than half of the positions costs more than to go over all integers.
            Some(values) if found.len() > values.len() / 2 => mask_between(values, lo, hi, into),
            _ => mark(found, into),
        }
    }

    /// The positions with an integer from `lo` to `hi`, both included, in any order: each once for each
    /// such integer.
    pub fn positions_between(&self, lo: i64, hi: i64) -> &[u32]
        ensures positions { (at : ℕ) → count_by (λ position. position == at) result.now
            ≡ count_by (is_between lo hi) (slice_index_or self.now at []) }
        ensures within { All (λ at. at < length self.now) result.now }
        ensures long { All (All (λ value. is_long value ≡ true)) self.now }
    {
        let from = self.values.partition_point(|value| value.cmp(&lo).is_lt());
        let to = self.values.partition_point(|value| value.cmp(&hi).is_le());
        if from < to {
            &self.positions[from..to]
        } else {
            &[]
        }
    }
}

/// Makes a column of integers, position by position. After want of memory it is only dropped.
#[derive(Debug, Drop)]
pub struct LongBuilder {
    values: Entries<i64>,
    // A call wanted memory, and a position may be half made.
    spent: bool,
    alloc: Global,
}

impl Model for LongBuilder {
    ghost use Rattle.std.specs.Prelude.{ℤ, List};

    ghost Value = { List (List ℤ) };

    ghost use Rattle.fc_column.specs.LongBuilder.{IsSound};

    ghost view = { λ builder. builder.values.rows };

    ghost invariant = { IsSound };
}

impl LongBuilder {
    /// A column with no position.
    pub fn new(alloc: Global) -> Result<LongBuilder, WantMemory>
        ensures { IfOk result (λ builder. builder ≡ []) }
    {
        Ok(LongBuilder {
            values: Entries::new(alloc),
            spent: false,
            alloc,
        })
    }

    /// How many positions were added.
    pub fn len(&self) -> u32
        ensures { result ≡ length self.now }
    {
        self.values.len()
    }

    /// Adds a position with these values, which stand in index order, each once. There are at most
    /// 4,294,967,295 positions and values, as a `u32` counts them: one more is answered as want of
    /// memory.
    pub fn push_doc(&mut self, values: &[Val]) -> Result<(), WantMemory>
        requires longs { All IsLong (map val_view values.now) }
        requires ascending { IsAscending val_cmp (map val_view values.now) }
        ensures { OnOk result (self.new ≡ self.old ++ longs_in (map val_view values.now) ∷ []) }
    {
        if self.spent {
            return Err(WantMemory);
        }
        self.spent = true;
        for value in values {
            let Val::Long(number) = value else {
                unreachable!()
            };
            self.values.push(*number)?;
        }
        self.values.end_row()?;
        self.spent = false;
        Ok(())
    }

    /// Adds so many positions without a value. They cost no memory.
    pub fn skip(&mut self, count: u32) -> Result<(), WantMemory>
        ensures { OnOk result (self.new ≡ self.old ++ replicate count []) }
    {
        if self.spent {
            return Err(WantMemory);
        }
        self.values.skip(count)
    }

    /// The column of the positions that were added.
    pub fn finish(self) -> Result<LongColumn, WantMemory>
        ensures { IfOk result (λ column. column ≡ self) }
    {
        if self.spent {
            return Err(WantMemory);
        }
        let rows = self.values.rows(self.alloc)?;
        let (values, positions) = self.values.in_order(self.alloc)?;
        Ok(LongColumn {
            rows,
            values,
            positions,
        })
    }
}
