// What range facets, over integers or over dates, tell of their buckets.
ghost use Rattle.std.specs.Prelude.{◌≡◌, ◌<◌, IfOk, Some};
ghost use Rattle.fc_spec.specs.replies.Reply.{val_of};
ghost use Rattle.fc_spec.specs.requests.Buckets.{gap as gap_key};
ghost use Rattle.fc_base.specs.View.{val_view};
ghost use Rattle.fc_request.specs.FacetNode.{kind_view};
ghost use Rattle.fc_request.specs.Ranged.{AreBucketsOf, IsRange, gaps_of};

use crate::RangeBuckets;
use fc_base::{Val, WantMemory};
use fc_facet::Kind;
use std::alloc::Global;

/// Which buckets a range facet has.
pub fn buckets_of_range(kind: &Kind) -> RangeBuckets
    requires { IsRange (kind_view kind.now) }
    ensures { AreBucketsOf (kind_view kind.now) result }
{
    match kind {
        Kind::Range(range) => RangeBuckets {
            gaps: range.gaps(),
            before: range.before,
            between: range.between,
            after: range.after,
        },
        Kind::DateRange(range) => RangeBuckets {
            gaps: range.gaps(),
            before: range.before,
            between: range.between,
            after: range.after,
        },
        Kind::Terms(_) | Kind::Query(_) | Kind::Stat(_) => unreachable!(),
    }
}

/// The low end of a gap of a range facet, from number 0: what its bucket prints as its value. (Guide: JSON Facet API, "Range
/// Facet")
pub fn low_of_range(alloc: Global, kind: &Kind, gap: u32) -> Result<Val, WantMemory>
    requires range { IsRange (kind_view kind.now) }
    requires there { gap < gaps_of (kind_view kind.now) }
    ensures { IfOk result (λ val. val_of (kind_view kind.now) (gap_key gap) ≡ Some (val_view val)) }
{
    match kind {
        Kind::Range(range) => {
            let low = range.low(alloc, gap)?;
            Ok(low)
        }
        Kind::DateRange(range) => {
            let low = range.low(alloc, gap)?;
            Ok(low)
        }
        Kind::Terms(_) | Kind::Query(_) | Kind::Stat(_) => unreachable!(),
    }
}
