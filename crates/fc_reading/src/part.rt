// Printed buckets without the facets in them.
ghost use Rattle.std.specs.Prelude.{◌≡◌, None, IfOk, IfSome, IsTrue, map, option_map};
ghost use Rattle.fc_spec.specs.replies.Printed.{asked as asked_of};
ghost use Rattle.fc_spec.specs.replies.Reply.{listed, spot_of};
ghost use Rattle.fc_base.specs.StatisticView.{stat_view};
ghost use Rattle.fc_base.specs.View.{val_view};
ghost use Rattle.fc_partial.specs.View.{key_view};
ghost use Rattle.fc_request.specs.FacetNode.{has_buckets, kind_view};
ghost use Rattle.fc_refine.specs.CountableRanges.{IsCountable, IsThere};
ghost use Rattle.fc_reading.specs.Distinct.{AreDistinct};
ghost use Rattle.fc_reading.specs.Parts.{beside, IsCounted, part_view};

use crate::BucketReading;
use fc_base::{Stat, Val, WantMemory};
use fc_facet::Kind;
use fc_partial::{Key, Stats};
use std::alloc::Global;
use std::borrow::CowSlice;

/// A printed bucket: its value, where it has one, the shards that it carries, and its count and statistics
/// there.
#[derive(Drop)]
pub(crate) struct Part<'s, B> {
    pub(crate) val: Option<Val>,
    pub(crate) shards: CowSlice<'s, u32>,
    pub(crate) bucket: B,
    pub(crate) stats: Stats,
}

/// The buckets of a terms or range facet in their order, and those beside them.
#[derive(Drop)]
pub(crate) struct Parts<'s, B> {
    pub(crate) list: Vec<Part<'s, B>>,
    pub(crate) missing: Option<Part<'s, B>>,
    pub(crate) before: Option<Part<'s, B>>,
    pub(crate) between: Option<Part<'s, B>>,
    pub(crate) after: Option<Part<'s, B>>,
}

/// What a facet prints: a row of buckets, or the one bucket of a query facet.
#[derive(Drop)]
pub(crate) enum Printed<'s, B> {
    Many(Parts<'s, B>),
    One(Part<'s, B>),
}

/// The bucket of a key that is no value, on the shards of the bucket around it.
pub(crate) fn part_at<'s, R: BucketReading>(
    alloc: Global,
    reading: &R,
    kind: &Kind,
    stats: &[Stat],
    shards: &'s [u32],
    domain: &R::Domain,
    key: &Key,
    val: Option<Val>,
) -> Result<Part<'s, R::Bucket>, WantMemory>
    requires facet { IsTrue (has_buckets kind.now) }
    requires countable { IsCountable (kind_view kind.now) }
    requires made { R.is_for domain.now kind.now }
    requires there { IsThere (kind_view kind.now) (key_view key.now) }
    requires distinct { AreDistinct shards.now }
    ensures part { IfOk result (λ part. part_view R.held listed part ≡ record {
      spot = listed;
      val = option_map val_view val;
      shards = shards.now;
      bucket = (R.reading reading.now).bucket_at (kind_view kind.now) (R.over domain.now) (key_view key.now);
    }) }
    ensures counted { IfOk result (IsCounted (R.reading reading.now) R.held (map stat_view stats.now)) }
{
    let bucket = reading.bucket_at(alloc, kind, domain, key)?;
    let stats = reading.stats_on(alloc, stats, shards, &bucket)?;
    Ok(Part {
        val,
        shards: CowSlice::Borrowed(shards),
        bucket,
        stats,
    })
}

/// The bucket of a key that is no value, on the shards of the bucket around it, where it is asked for.
pub(crate) fn part_beside<'s, R: BucketReading>(
    alloc: Global,
    reading: &R,
    kind: &Kind,
    stats: &[Stat],
    shards: &'s [u32],
    domain: &R::Domain,
    asked: bool,
    key: Key,
) -> Result<Option<Part<'s, R::Bucket>>, WantMemory>
    requires facet { IsTrue (has_buckets kind.now) }
    requires countable { IsCountable (kind_view kind.now) }
    requires made { R.is_for domain.now kind.now }
    requires there { IsThere (kind_view kind.now) (key_view key) }
    requires distinct { AreDistinct shards.now }
    ensures part { IfOk result (λ part. beside R.held (spot_of (key_view key)) part ≡ map (λ k. record {
      spot = spot_of k;
      val = None;
      shards = shards.now;
      bucket = (R.reading reading.now).bucket_at (kind_view kind.now) (R.over domain.now) k;
    }) (asked_of asked (key_view key))) }
    ensures counted { IfOk result (λ part. IfSome part (IsCounted (R.reading reading.now) R.held (map stat_view stats.now))) }
{
    if !asked {
        return Ok(None);
    }
    let part = part_at(alloc, reading, kind, stats, shards, domain, &key, None)?;
    Ok(Some(part))
}
