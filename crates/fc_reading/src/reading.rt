// What is asked of buckets.
ghost use Rattle.std.specs.Prelude.{◌≡◌, ℕ, Bool, IfOk, IsTrue, List, All, map};
ghost use Rattle.std.specs.List.Sorted.{IsStrictlySortedBy};
ghost use Rattle.fc_spec.specs.documents.Val.{val_cmp};
ghost use Rattle.fc_spec.specs.requests.Request as definition;
ghost use Rattle.fc_spec.specs.replies.Reading.{Reading, stats_on as stats_of_bucket};
ghost use Rattle.fc_base.specs.StatisticView.{stat_view};
ghost use Rattle.fc_facet.specs.declared.kind.Kind as code;
ghost use Rattle.fc_facet.specs.declared.kind.Kind.TheVariants as variant;
ghost use Rattle.fc_facet.specs.KindView.{terms_view};
ghost use Rattle.fc_partial.specs.StatsView.{stats_view};
ghost use Rattle.fc_partial.specs.View.{key_view};
ghost use Rattle.fc_request.specs.FacetNode.{facet_view, has_buckets, kind_of, kind_view, vals_view};
ghost use Rattle.fc_refine.specs.CountableRanges.{IsCountable, IsThere};
ghost use Rattle.fc_reading.specs.Distinct.{AreDistinct};

use fc_base::{Stat, Val, WantMemory};
use fc_facet::{Kind, Terms};
use fc_partial::{Key, Stats};
use fc_request::Node;
use std::alloc::Global;

/// What the reply to a request asks of its buckets, however these are held.
pub trait BucketReading {
    /// A bucket.
    type Bucket: Drop;
    /// The domain of a facet, made for the kind of the facet.
    type Domain: Drop;

    // What they mean, and the definition's reading of these meanings.
    ghost Held: { Type 0 };

    ghost Over: { Type 0 };

    ghost held: { Self.Bucket → Self.Held };

    ghost over: { Self.Domain → Self.Over };

    ghost reading: { Self → Reading Self.Held Self.Over };
    // That a domain was made for a kind of facet.
    ghost is_for: { Self.Domain → code.Kind → Type 0 };
    // That a shard has told a bucket.
    ghost has: { Self.Held → ℕ → Bool };

    /// The domain of a facet, by its number among the nodes, in a bucket's part on the shards.
    fn domain_on(
        &self,
        alloc: Global,
        number: usize,
        node: &Node,
        shards: &[u32],
        bucket: &Self::Bucket,
    ) -> Result<Self::Domain, WantMemory>
        requires facet { IsTrue (has_buckets (kind_of node.now)) }
        requires countable { IsCountable (kind_view (kind_of node.now)) }
        ensures over { IfOk result (λ domain. over domain
            ≡ (reading self.now).domain_on number (facet_view node.now) shards.now (held bucket.now)) }
        ensures made { IfOk result (λ domain. is_for domain (kind_of node.now)) };

    /// The bucket of a key in a domain.
    fn bucket_at(
        &self,
        alloc: Global,
        kind: &Kind,
        domain: &Self::Domain,
        key: &Key,
    ) -> Result<Self::Bucket, WantMemory>
        requires facet { IsTrue (has_buckets kind.now) }
        requires countable { IsCountable (kind_view kind.now) }
        requires made { is_for domain.now kind.now }
        requires there { IsThere (kind_view kind.now) (key_view key.now) }
        ensures { IfOk result (λ bucket. held bucket
            ≡ (reading self.now).bucket_at (kind_view kind.now) (over domain.now) (key_view key.now)) };

    /// The count and the statistics of a bucket's part on the shards.
    fn stats_on(
        &self,
        alloc: Global,
        stats: &[Stat],
        shards: &[u32],
        bucket: &Self::Bucket,
    ) -> Result<Stats, WantMemory>
        requires distinct { AreDistinct shards.now }
        ensures { IfOk result (λ found. stats_view found
            ≡ stats_of_bucket (reading self.now) (map stat_view stats.now) shards.now (held bucket.now)) };

    /// Whether the shard has told the bucket.
    fn has_told(&self, shard: u32, bucket: &Self::Bucket) -> bool
        ensures { result ≡ has (held bucket.now) shard };

    /// The values that each of the shards offers of a terms facet in which these statistics are nested, shard by
    /// shard, each list in index order.
    fn offers<'d>(
        &self,
        alloc: Global,
        terms: &Terms,
        stats: &[Stat],
        domain: &'d Self::Domain,
        shards: &[u32],
    ) -> Result<Vec<Vec<&'d Val>>, WantMemory>
        requires made { is_for domain.now (variant.Terms terms.now) }
        ensures offered { IfOk result (λ lists. (inner : definition.Nodes) → definition.stats_of inner ≡ map stat_view stats.now
            → map (λ list. vals_view list.items) lists.items
            ≡ map (λ i. (reading self.now).offered_by (terms_view terms.now) inner (over domain.now) i) shards.now) }
        ensures ascend { IfOk result (λ lists. All (λ list. IsStrictlySortedBy val_cmp (vals_view list.items)) lists.items) };
}
