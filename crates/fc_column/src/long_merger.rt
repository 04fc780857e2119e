// Merging columns of integers.
ghost use Rattle.std.specs.Prelude.{◌≡◌, ◌+◌, ◌<◌, ◌^◌, [], ◌++◌, length, count_by, IfOk, OnOk};
ghost use Rattle.std.specs.List.{items_where_true};
ghost use Rattle.fc_column.specs.LongMerger.{MovesWith};

use crate::LongColumn;
use fc_base::WantMemory;
use fc_docset::DocSet;
use fc_lists::{Entries, Entry, counts_of, in_order, place_of};
use std::alloc::Global;
use std::marker::Model;

/// Makes a column of integers from positions of others, one column behind the other. The integers of each are in order already, and
/// are merged.
#[derive(Debug, Drop)]
pub struct LongMerger {
    rows: Entries<i64>,
    // The integers with their positions: those of each column in ascending order.
    ordered: Vec<Entry<i64>>,
    alloc: Global,
}

impl Model for LongMerger {
    ghost use Rattle.std.specs.Prelude.{ℤ, List};

    ghost Value = { List (List ℤ) };

    ghost use Rattle.fc_column.specs.LongMerger.{IsSound};

    ghost view = { λ merger. merger.rows.rows };

    ghost invariant = { IsSound };
}

impl LongMerger {
    /// A column with no position.
    pub fn new(alloc: Global) -> LongMerger
        ensures { result ≡ [] }
    {
        LongMerger {
            rows: Entries::new(alloc),
            ordered: Vec::new(alloc),
            alloc,
        }
    }

    /// With the positions of a column that are in the set, in order. There are at most 4,294,967,295 positions and values, as a `u32`
    /// counts them: one more is answered as want of memory.
    pub fn with(self, column: &LongColumn, live: &DocSet) -> Result<LongMerger, WantMemory>
        requires { length live.now ≡ length column.now }
        ensures { IfOk result (λ merger. merger ≡ self ++ items_where_true live.now column.now) }
    {
        let LongMerger {
            mut rows,
            mut ordered,
            alloc,
        } = self;
        let first = rows.len();
        rows.add_rows(alloc, column.rows(), live)?;
        // So it is known that all positions are counted by a `u32`.
        let _end = rows.len();
        add_kept(alloc, &mut ordered, column, live, first)?;
        Ok(LongMerger {
            rows,
            ordered,
            alloc,
        })
    }

    /// The column of the positions that were added.
    pub fn finish(self) -> Result<LongColumn, WantMemory>
        ensures { IfOk result (λ column. column ≡ self) }
    {
        let rows = self.rows.rows(self.alloc)?;
        let (values, positions) = in_order(self.alloc, self.ordered)?;
        Ok(LongColumn::of(rows, values, positions))
    }
}

// Adds the integers of a column whose positions are in the set, each with the position that it gets.
fn add_kept(
    alloc: Global,
    ordered: &mut Vec<Entry<i64>>,
    column: &LongColumn,
    live: &DocSet,
    first: u32,
) -> Result<(), WantMemory>
    requires length { length live.now ≡ length column.now }
    requires small { first + count_by (λ here. here) live.now < 2 ^ 32 }
    ensures { OnOk result (MovesWith column.now live.now first ordered.old.items ordered.new.items) }
{
    let (values, positions) = column.in_order();
    if values.is_empty() {
        return Ok(());
    }
    let counts = counts_of(alloc, live)?;
    for (place, value) in values.iter().enumerate() {
        if let Some(at) = place_of(live, &counts, positions[place]) {
            ordered.push(Entry {
                at: first + at,
                item: *value,
            })?;
        }
    }
    Ok(())
}
