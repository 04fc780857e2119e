// The gaps of a range facet over dates, by their numbers.
ghost use Rattle.fc_date_range.specs.GapSpans.{Rise};

use crate::counting::count_ordinal;
use crate::span::Span;
use fc_base::WantMemory;
use fc_column::TextColumn;
use fc_count::{Keys, Numbering, Postings};
use fc_partial::{Cells, StatValue, Stats, Tally};
use fc_range::GapKeys;

/// The gaps of a range facet over dates by their numbers: each counts the documents with a text in its span.
#[derive(Clone, Copy)]
pub(crate) struct GapSpans<'a> {
    pub(crate) column: &'a TextColumn,
    // The span of each gap.
    pub(crate) spans: &'a [Span],
    pub(crate) ghost rise: { Rise spans.now },
}

impl Numbering for GapSpans<'_> {
    ghost use Rattle.std.specs.Prelude.{length};
    ghost use Rattle.fc_date_range.specs.GapSpans.{has_in_span};

    ghost positions = { λ gaps. length gaps.column.now };

    ghost bound = { λ gaps. length gaps.spans.now };

    ghost holds = { λ gaps at i. has_in_span gaps.column.now gaps.spans.now at i };

    fn count(&self, at: u32, values: &[StatValue], cells: &mut Cells) {
        let mut reached = 0;
        for ord in self.column.ordinals_of(at) {
            reached = count_ordinal(self.spans, *ord, reached, values, cells);
        }
    }
}

impl Postings for GapSpans<'_> {
    ghost use Rattle.std.specs.Prelude.{length};
    ghost use Rattle.fc_date_range.specs.GapSpans.{HasList, has_in_span};

    ghost positions = { λ gaps. length gaps.column.now };

    ghost has_list = { λ gaps i. HasList gaps.column.now gaps.spans.now i };

    ghost holds = { λ gaps at i. has_in_span gaps.column.now gaps.spans.now at i };

    fn positions_of(&self, number: usize) -> &[u32] {
        let span = self.spans[number];
        self.column.positions_between(span.from, span.past)
    }
}

impl Keys for GapSpans<'_> {
    ghost use Rattle.std.specs.Prelude.{◌^◌, pos, ◌≤ℤ◌, ◌<ℤ◌};
    ghost use Rattle.fc_range.specs.GapKeys.{gap_key};

    ghost has_key = { λ _ number. (pos 0 ≤ℤ number) × (number <ℤ pos (2 ^ 32)) };

    ghost key = { λ _ number. gap_key number };

    fn add(&self, number: i64, stats: &Stats, into: &mut Tally) -> Result<(), WantMemory> {
        GapKeys.add(number, stats, into)
    }
}
