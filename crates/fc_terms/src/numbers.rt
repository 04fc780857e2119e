// Terms and integers of a column, by number.
use fc_base::WantMemory;
use fc_column::{LongColumn, TextColumn};
use fc_count::{Keys, Numbering, Postings};
use fc_partial::{Cells, StatValue, Stats, Tally};

/// The terms of a column from one ordinal up to but not including another, numbered from 0 on.
#[derive(Clone, Copy)]
pub(crate) struct TermSpan<'a> {
    pub(crate) column: &'a TextColumn,
    pub(crate) from: u32,
    pub(crate) to: u32,
}

impl Numbering for TermSpan<'_> {
    ghost use Rattle.std.specs.Prelude.{◌-◌, length};
    ghost use Rattle.fc_terms.specs.TermSpan.{has_term};

    ghost positions = { λ span. length span.column.now };

    ghost bound = { λ span. span.to - span.from };

    ghost holds = { λ span at i. has_term span.column.now span.from at i };

    fn count(&self, at: u32, values: &[StatValue], cells: &mut Cells) {
        for ord in self.column.ordinals_of(at) {
            if self.from <= *ord && *ord < self.to {
                cells.add((*ord - self.from) as usize, values);
            }
        }
    }
}

impl Postings for TermSpan<'_> {
    ghost use Rattle.std.specs.Prelude.{length, pos};
    ghost use Rattle.fc_terms.specs.TermSpan.{IsTermNumber, has_term};

    ghost positions = { λ span. length span.column.now };

    ghost has_list = { λ span i. IsTermNumber span.column.now span.from span.to (pos i) };

    ghost holds = { λ span at i. has_term span.column.now span.from at i };

    fn positions_of(&self, number: usize) -> &[u32] {
        self.column.positions_of(self.from + number as u32)
    }
}

impl Keys for TermSpan<'_> {
    ghost use Rattle.fc_terms.specs.TermSpan.{IsTermNumber, term_key};

    ghost has_key = { λ span n. IsTermNumber span.column.now span.from span.to n };

    ghost key = { λ span n. term_key span.column.now span.from n };

    fn add(&self, number: i64, stats: &Stats, into: &mut Tally) -> Result<(), WantMemory> {
        let ord = self.from + number as u32;
        into.add_text(self.column.term(ord), stats)?;
        Ok(())
    }
}

/// So many integers from one on, numbered from 0 on, in a column.
#[derive(Clone, Copy)]
pub(crate) struct LongSpan<'a> {
    pub(crate) column: &'a LongColumn,
    pub(crate) least: i64,
    pub(crate) bound: usize,
}

impl Numbering for LongSpan<'_> {
    ghost use Rattle.std.specs.Prelude.{length};
    ghost use Rattle.fc_terms.specs.LongSpan.{has_integer};

    ghost positions = { λ span. length span.column.now };

    ghost bound = { λ span. span.bound };

    ghost holds = { λ span at i. has_integer span.column.now span.least at i };

    fn count(&self, at: u32, values: &[StatValue], cells: &mut Cells) {
        for value in self.column.values_of(at) {
            let number = value.abs_diff(self.least) as usize;
            if self.least <= *value && number < self.bound {
                cells.add(number, values);
            }
        }
    }
}

impl Keys for LongSpan<'_> {
    ghost use Rattle.fc_terms.specs.LongSpan.{IsIntegerNumber, integer_key};

    ghost has_key = { λ span n. IsIntegerNumber span.least n };

    ghost key = { λ span n. integer_key span.least n };

    fn add(&self, number: i64, stats: &Stats, into: &mut Tally) -> Result<(), WantMemory> {
        into.add_long(self.least + number, stats)?;
        Ok(())
    }
}
