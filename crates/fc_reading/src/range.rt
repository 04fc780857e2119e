// The printed buckets of a range facet, over integers or over dates.
ghost use Rattle.std.specs.Prelude.{◌≡◌, All, IfOk, map};
ghost use Rattle.fc_spec.specs.requests.Request as definition;
ghost use Rattle.fc_spec.specs.replies.Reply.{listed};
ghost use Rattle.fc_base.specs.StatisticView.{stat_view};
ghost use Rattle.fc_request.specs.FacetNode.{kind_view};
ghost use Rattle.fc_request.specs.Ranged.{IsRange, gap_keys_of};
ghost use Rattle.fc_reading.specs.Distinct.{AreDistinct};
ghost use Rattle.fc_reading.specs.Parts.{AreCounted, IsCounted, part_of, part_view, parts_of, parts_view};

use crate::BucketReading;
use crate::part::{Part, Parts, part_at, part_beside};
use fc_base::{Stat, WantMemory};
use fc_facet::Kind;
use fc_partial::Key;
use fc_request::{buckets_of_range, low_of_range};
use std::alloc::Global;

// The buckets of the gaps, in ascending order.
fn gap_parts<'s, R: BucketReading>(
    alloc: Global,
    reading: &R,
    kind: &Kind,
    stats: &[Stat],
    shards: &'s [u32],
    domain: &R::Domain,
) -> Result<Vec<Part<'s, R::Bucket>>, WantMemory>
    requires range { IsRange (kind_view kind.now) }
    requires made { R.is_for domain.now kind.now }
    requires distinct { AreDistinct shards.now }
    ensures parts { IfOk result (λ parts. (inner : definition.Nodes) → map (part_view R.held listed) parts.items
        ≡ map (part_of (R.reading reading.now) (kind_view kind.now) inner shards.now (R.over domain.now)) (gap_keys_of (kind_view kind.now))) }
    ensures counted { IfOk result (λ parts. All (IsCounted (R.reading reading.now) R.held (map stat_view stats.now)) parts.items) }
{
    let mut parts = Vec::new(alloc);
    let buckets = buckets_of_range(kind);
    for gap in 0..buckets.gaps {
        let low = low_of_range(alloc, kind, gap)?;
        let key = Key::Gap(gap);
        parts.push(part_at(alloc, reading, kind, stats, shards, domain, &key, Some(low))?)?;
    }
    Ok(parts)
}

/// The buckets of the gaps, and those beside them that are asked for.
pub(crate) fn range_parts<'s, R: BucketReading>(
    alloc: Global,
    reading: &R,
    kind: &Kind,
    stats: &[Stat],
    shards: &'s [u32],
    domain: &R::Domain,
) -> Result<Parts<'s, R::Bucket>, WantMemory>
    requires range { IsRange (kind_view kind.now) }
    requires made { R.is_for domain.now kind.now }
    requires distinct { AreDistinct shards.now }
    ensures parts { IfOk result (λ parts. (inner : definition.Nodes) → parts_view R.held parts
        ≡ parts_of (R.reading reading.now) (kind_view kind.now) inner shards.now (R.over domain.now)) }
    ensures counted { IfOk result (AreCounted (R.reading reading.now) R.held (map stat_view stats.now)) }
{
    let list = gap_parts(alloc, reading, kind, stats, shards, domain)?;
    let buckets = buckets_of_range(kind);
    let before = part_beside(
        alloc,
        reading,
        kind,
        stats,
        shards,
        domain,
        buckets.before,
        Key::Before,
    )?;
    let between = part_beside(
        alloc,
        reading,
        kind,
        stats,
        shards,
        domain,
        buckets.between,
        Key::Between,
    )?;
    let after = part_beside(
        alloc,
        reading,
        kind,
        stats,
        shards,
        domain,
        buckets.after,
        Key::After,
    )?;
    Ok(Parts {
        list,
        missing: None,
        before,
        between,
        after,
    })
}
