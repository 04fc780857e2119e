// Items with their positions, in the order of the positions.
ghost use Rattle.std.specs.Prelude.{◌≡◌, ◌<◌, ◌+◌, ◌^◌, ℕ, ℤ, Bool, ◌==◌, ◌&&◌, ◌∷◌, ◌++◌, [], length, map, replicate, slice_index, slice_index_or, count_by, vec_len, All, IfOk, OnOk, OnErr};
ghost use Rattle.std.specs.List.{items_where_true, range_with_len};
ghost use Rattle.std.specs.List.Sorted.{IsStrictlyIncreasing};
ghost use Rattle.fc_docset.specs.Positions.{positions};
ghost use Rattle.fc_lists.specs.Among.{is_among};
ghost use Rattle.fc_lists.specs.Ordered.{AreInOrder};

use crate::lists::Lists;
use crate::live::{filled, kept_between};
use crate::numbered::positions_of_numbers;
use crate::ordered::in_order;
use crate::rows::Rows;
use fc_base::WantMemory;
use fc_docset::DocSet;
use std::alloc::Global;
use std::marker::Model;

/// An item of a position.
#[derive(Clone, Copy, Debug)]
pub struct Entry<T> {
    pub at: u32,
    pub item: T,
}

/// The items of each position, and those of the next one. A position without an item costs nothing.
#[derive(Debug, Drop)]
pub struct Entries<T: Copy> {
    entries: Vec<Entry<T>>,
    // How many positions there are.
    len: u32,
}

impl<T: Copy> Model for Entries<T> {
    ghost use Rattle.fc_lists.specs.Laid.{Laid};

    ghost Value = { Laid T };

    ghost use Rattle.fc_lists.specs.Entries.{gathered, AreGathered};

    ghost view = { gathered };

    ghost invariant = { AreGathered };
}

impl<T: Copy> Entries<T> {
    /// No position yet.
    pub fn new(alloc: Global) -> Entries<T>
        ensures { result ≡ record { rows = []; next = [] } }
    {
        Entries {
            entries: Vec::new(alloc),
            len: 0,
        }
    }

    /// How many positions there are.
    pub fn len(&self) -> u32
        ensures { result ≡ length self.now.rows }
    {
        self.len
    }

    /// Adds an item to the next position. There are at most as many items as a `u32` counts: past
    /// them, memory is wanted.
    pub fn push(&mut self, item: T) -> Result<(), WantMemory>
        ensures ok { OnOk result
            (self.new ≡ record self.old { next = self.old.next ++ item ∷ [] }) }
        ensures err { OnErr result (self.new ≡ self.old) }
    {
        if self.entries.len() >= u32::MAX as usize {
            return Err(WantMemory);
        }
        self.entries.push(Entry { at: self.len, item })?;
        Ok(())
    }

    /// Ends the next position. There are at most as many as a `u32` counts: past them, memory is
    /// wanted.
    pub fn end_row(&mut self) -> Result<(), WantMemory>
        ensures ok { OnOk result
            (self.new ≡ record { rows = self.old.rows ++ self.old.next ∷ []; next = [] }) }
        ensures err { OnErr result (self.new ≡ self.old) }
    {
        self.len = self.len.checked_add(1).ok_or(WantMemory)?;
        Ok(())
    }

    /// Adds so many positions without an item. There are at most as many as a `u32` counts: past them,
    /// memory is wanted.
    pub fn skip(&mut self, count: u32) -> Result<(), WantMemory>
        requires { self.old.next ≡ [] }
        ensures ok { OnOk result
            (self.new ≡ record { rows = self.old.rows ++ replicate count []; next = [] }) }
        ensures err { OnErr result (self.new ≡ self.old) }
    {
        self.len = self.len.checked_add(count).ok_or(WantMemory)?;
        Ok(())
    }

    /// The items of each position, where none is left for the next one.
    pub fn rows(&self, alloc: Global) -> Result<Rows<T>, WantMemory>
        requires { self.now.next ≡ [] }
        ensures { IfOk result (λ rows. rows ≡ self.now.rows) }
    {
        let rows = Rows::of(alloc, &self.entries, self.len)?;
        Ok(rows)
    }
}

impl Entries<u32> {
    // Adds a position with these numbers, to each of which another is added.
    fn add_row(&mut self, row: &[u32], more: u32) -> Result<(), WantMemory>
        requires small { All (λ number. number + more < 2 ^ 32) row.now }
        requires whole { self.old.next ≡ [] }
        ensures { OnOk result (self.new ≡ record
            { rows = self.old.rows ++ map (λ number. number + more) row.now ∷ []; next = [] }) }
    {
        for number in row {
            self.push(*number + more)?;
        }
        self.end_row()
    }

    /// Adds the rows of the positions in a set, one behind the other; to each of their numbers another is added. Empty rows
    /// are not looked at.
    pub fn add_rows(
        &mut self,
        alloc: Global,
        rows: &Rows<u32>,
        live: &DocSet,
        more: u32,
    ) -> Result<(), WantMemory>
        requires length { length live.now ≡ length rows.now }
        requires small { All (All (λ number. number + more < 2 ^ 32)) rows.now }
        requires whole { self.old.next ≡ [] }
        ensures { OnOk result (self.new ≡ record {
          rows = self.old.rows
              ++ map (map (λ number. number + more)) (items_where_true live.now rows.now);
          next = [];
        }) }
    {
        if rows.are_empty() {
            return self.skip(live.count());
        }
        let filled = filled(alloc, rows, live)?;
        let mut from = 0;
        while let Some(at) = filled.next_from(from) {
            self.skip(kept_between(live, from, at))?;
            self.add_row(rows.row(at), more)?;
            from = at + 1;
        }
        self.skip(kept_between(live, from, live.len()))
    }

    /// Puts the number that stands at its place in the list in place of each item.
    pub fn renumber(&mut self, numbers: &[u32])
        requires within { All (All (λ item. item < length numbers.now)) self.old.rows }
        requires whole { self.old.next ≡ [] }
        ensures { self.new ≡ record
            { rows = map (map (λ item. slice_index numbers.now item)) self.old.rows; next = [] } }
    {
        for entry in self.entries.iter_mut() {
            entry.item = numbers[entry.item as usize];
        }
    }

    /// The positions that have each number below `count`, where no position has one twice.
    pub fn positions(&self, alloc: Global, count: u32) -> Result<Lists<u32>, WantMemory>
        requires within { All (All (λ item. item < count)) self.now.rows }
        requires rising { All IsStrictlyIncreasing self.now.rows }
        requires whole { self.now.next ≡ [] }
        ensures { IfOk result (λ lists. lists
            ≡ map (λ number. positions (map (is_among number) self.now.rows))
            (range_with_len 0 count)) }
    {
        let lists = positions_of_numbers(alloc, &self.entries, count)?;
        Ok(lists)
    }
}

impl Entries<i64> {
    // Adds a position with these integers.
    fn add_row(&mut self, row: &[i64]) -> Result<(), WantMemory>
        requires { self.old.next ≡ [] }
        ensures { OnOk result (self.new
            ≡ record { rows = self.old.rows ++ row.now ∷ []; next = [] }) }
    {
        for value in row {
            self.push(*value)?;
        }
        self.end_row()
    }

    /// Adds the rows of the positions in a set, one behind the other. Empty rows are not looked at.
    pub fn add_rows(
        &mut self,
        alloc: Global,
        rows: &Rows<i64>,
        live: &DocSet,
    ) -> Result<(), WantMemory>
        requires length { length live.now ≡ length rows.now }
        requires whole { self.old.next ≡ [] }
        ensures { OnOk result (self.new ≡ record
            { rows = self.old.rows ++ items_where_true live.now rows.now; next = [] }) }
    {
        if rows.are_empty() {
            return self.skip(live.count());
        }
        let filled = filled(alloc, rows, live)?;
        let mut from = 0;
        while let Some(at) = filled.next_from(from) {
            self.skip(kept_between(live, from, at))?;
            self.add_row(rows.row(at))?;
            from = at + 1;
        }
        self.skip(kept_between(live, from, live.len()))
    }

    /// The integers in ascending order, and beside each its position.
    pub fn in_order(self, alloc: Global) -> Result<(Vec<i64>, Vec<u32>), WantMemory>
        requires { self.next ≡ [] }
        ensures { IfOk result (λ made. AreInOrder made.0.items made.1.items self.rows) }
    {
        let made = in_order(alloc, self.entries)?;
        Ok(made)
    }
}

/// The items of entries.
pub fn items_of<T: Copy>(alloc: Global, entries: &[Entry<T>]) -> Result<Vec<T>, WantMemory>
    ensures { IfOk result (λ items. items.items ≡ map (λ entry. entry.item) entries.now) }
{
    let mut items = Vec::with_capacity(alloc, entries.len())?;
    for entry in entries {
        items.push(entry.item)?;
    }
    Ok(items)
}

/// The positions of entries.
pub fn positions_of<T: Copy>(alloc: Global, entries: &[Entry<T>]) -> Result<Vec<u32>, WantMemory>
    ensures { IfOk result (λ positions. positions.items ≡ map (λ entry. entry.at) entries.now) }
{
    let mut positions = Vec::with_capacity(alloc, entries.len())?;
    for entry in entries {
        positions.push(entry.at)?;
    }
    Ok(positions)
}
