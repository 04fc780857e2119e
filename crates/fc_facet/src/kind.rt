// Kinds of facet, with their parameters.
ghost use Rattle.std.specs.Prelude.{◌≡◌, ◌<◌, ◌+◌, ◌*◌, ◌^◌, pos, ◌<ℤ◌, ◌*ℤ◌, ◌-ℤ◌, unsigned_abs, IfOk};
ghost use Rattle.fc_spec.specs.requests.Gaps.{gap_count, low_end, last_end};
ghost use Rattle.fc_spec.specs.documents.IntegerTexts.{is_long};
ghost use Rattle.fc_spec.specs.documents.Val as definition;
ghost use Rattle.fc_base.specs.View.{val_view};

use fc_base::{FieldId, Name, Stat, Val, WantMemory};
use fc_query::Query;
use std::alloc::Global;

/// What a node is: a facet that has buckets, or a statistic.
#[derive(Debug, Drop, PartialEq, Eq)]
pub enum Kind {
    Terms(Terms),
    Range(Range),
    /// One bucket, of the documents that match.
    Query(Query),
    DateRange(DateRange),
    Stat(Stat),
}

/// A bucket for each value of a field. (Guide: JSON Facet API, "Terms Facet")
#[derive(Debug, Drop, PartialEq, Eq)]
pub struct Terms {
    pub field: FieldId,
    /// How many buckets are passed over, at most 1,000,000.
    pub offset: u32,
    /// How many are printed at most, up to 1,000,000; all where there is none, and then both over-numbers are 0.
    pub limit: Option<u32>,
    pub sort: Sort,
    /// The least count of a printed bucket, from 1 to 1,000,000.
    pub mincount: u32,
    /// Whether there is a bucket of the documents without a value.
    pub missing: bool,
    /// What the values begin with, in a field of texts.
    pub prefix: Option<Name>,
    /// Whether each shard tells of the chosen buckets that it did not offer.
    pub refine: bool,
    /// Whether it is refined exactly; only where `refine` is true.
    pub exact: bool,
    /// How many values each shard offers beyond offset and limit, at most 1,000,000.
    pub overrequest: u32,
    /// How many values are chosen beyond offset and limit, at most 1,000,000.
    pub overrefine: u32,
    /// What is printed of it. No shard and no coordinator looks at it.
    pub show: Show,
}

/// What is printed of a terms facet: its buckets; the number of them alone; the number of them beside the buckets of the
/// facet before it.
#[derive(Clone, Copy, Debug, PartialEq, Eq)]
pub enum Show {
    Buckets,
    Number,
    Beside,
}

/// The order of buckets; those that are equal by it stand in index order.
#[derive(Clone, Copy, Debug, PartialEq, Eq)]
pub struct Sort {
    pub by: SortKey,
    pub descending: bool,
}

/// What buckets are sorted by.
#[derive(Clone, Copy, Debug, PartialEq, Eq)]
pub enum SortKey {
    Count,
    Index,
    /// A statistic, by its place among those nested directly in the facet.
    Stat(u32),
}

/// Buckets of equal width over a field of integers. (Guide: JSON Facet API, "Range Facet")
#[derive(Clone, Copy, Debug, PartialEq, Eq)]
pub struct Range {
    pub field: FieldId,
    pub start: i64,
    /// At least `start`.
    pub end: i64,
    /// At least 1.
    pub gap: i64,
    /// Whether the last bucket ends at `end`, though it may be narrower.
    pub hardend: bool,
    /// Which buckets stand beside those of the gaps.
    pub before: bool,
    pub after: bool,
    pub between: bool,
    /// Which ends the buckets hold.
    pub lower: bool,
    pub upper: bool,
    pub edge: bool,
    pub outer: bool,
}

impl Range {
    ghost use Rattle.fc_facet.specs.KindView.{range_view};
    ghost use Rattle.fc_facet.specs.RangeGaps.{HasFewGaps};

    /// How many gaps there are, and perhaps more than there may be.
    pub fn gap_count(&self) -> u64
        requires { pos 0 <ℤ self.now.gap }
        ensures count { result ≡ gap_count (range_view self.now) }
        ensures narrow { result * unsigned_abs self.now.gap < 2 ^ 64 + unsigned_abs self.now.gap }
    {
        self.end
            .abs_diff(self.start)
            .div_ceil(self.gap.unsigned_abs())
    }

    // How wide they are together.
    fn gaps_width(&self) -> u128
        requires { pos 0 <ℤ self.now.gap }
        ensures product { pos result ≡ pos (gap_count (range_view self.now)) *ℤ self.now.gap }
        ensures small { result < 2 ^ 65 }
    {
        u128::from(self.gap_count()) * u128::from(self.gap.unsigned_abs())
    }

    /// The high end of the last gap; that of the range where there is no gap.
    pub fn last_end(&self) -> i128
        requires { pos 0 <ℤ self.now.gap }
        ensures { result ≡ last_end (range_view self.now) }
    {
        if self.hardend || self.gap_count() == 0 {
            i128::from(self.end)
        } else {
            i128::from(self.start) + self.gaps_width() as i128
        }
    }

    /// Whether the last high end is within 64 bits.
    pub fn has_long_end(&self) -> bool
        requires { pos 0 <ℤ self.now.gap }
        ensures { result ≡ is_long (last_end (range_view self.now)) }
    {
        i64::try_from(self.last_end()).is_ok()
    }

    /// How many buckets of the gaps there are.
    pub fn gaps(&self) -> u32
        requires { HasFewGaps (range_view self.now) }
        ensures { result ≡ gap_count (range_view self.now) }
    {
        self.gap_count() as u32
    }

    // How far the low end of a gap is from the start.
    fn before_gap(&self, gap: u32) -> u128
        requires forward { HasFewGaps (range_view self.now) }
        requires there { gap < gap_count (range_view self.now) }
        ensures product { pos result ≡ pos gap *ℤ self.now.gap }
        ensures below { result < unsigned_abs (self.now.end -ℤ self.now.start) }
        ensures small { result < 2 ^ 96 }
    {
        u128::from(gap) * u128::from(self.gap.unsigned_abs())
    }

    /// The low end of a gap as a number.
    pub fn low_end(&self, gap: u32) -> i64
        requires forward { HasFewGaps (range_view self.now) }
        requires there { gap < gap_count (range_view self.now) }
        ensures { result ≡ low_end (range_view self.now) gap }
    {
        let low = i128::from(self.start) + self.before_gap(gap) as i128;
        prove!(low < i128::from(self.end));
        low as i64
    }

    /// The low end of a gap, from number 0. (Guide: JSON Facet API, "Range Facet")
    pub fn low(&self, _alloc: Global, gap: u32) -> Result<Val, WantMemory>
        requires forward { HasFewGaps (range_view self.now) }
        requires there { gap < gap_count (range_view self.now) }
        ensures { IfOk result (λ val. val_view val ≡ definition.long (low_end (range_view self.now) gap)) }
    {
        Ok(Val::Long(self.low_end(gap)))
    }
}

/// Buckets between dates over a field of dates. (Guide: JSON Facet API, "Range Facet")
#[derive(Debug, Drop, PartialEq, Eq)]
pub struct DateRange {
    pub field: FieldId,
    /// The canonical texts of the low ends of the buckets, ascending, and behind them that of the last high end; the start
    /// alone where there is no bucket. At most 10,001.
    pub edges: Vec<Name>,
    /// Which buckets stand beside those of the gaps.
    pub before: bool,
    pub after: bool,
    pub between: bool,
    /// Which ends the buckets hold.
    pub lower: bool,
    pub upper: bool,
    pub edge: bool,
    pub outer: bool,
}

impl DateRange {
    ghost use Rattle.fc_spec.specs.requests.DateGaps.{date_gap_count, low_date};
    ghost use Rattle.fc_facet.specs.RangeGaps.{HasFewEdges};
    ghost use Rattle.fc_facet.specs.KindView.{date_range_view};

    /// How many buckets of the gaps there are.
    pub fn gaps(&self) -> u32
        requires { HasFewEdges (date_range_view self.now) }
        ensures { result ≡ date_gap_count (date_range_view self.now) }
    {
        (self.edges.len() - 1) as u32
    }

    /// The low end of a gap, from number 0. (Guide: JSON Facet API, "Range Facet")
    pub fn low(&self, alloc: Global, gap: u32) -> Result<Val, WantMemory>
        requires { gap < date_gap_count (date_range_view self.now) }
        ensures { IfOk result (λ val. val_view val ≡ definition.text (low_date (date_range_view self.now) gap)) }
    {
        Ok(Val::Text(self.edges[gap as usize].copy(alloc)?))
    }
}

/// A range facet over integers, or over dates.
#[derive(Debug, Drop)]
pub enum AnyRange {
    Integers(Range),
    Dates(DateRange),
}
