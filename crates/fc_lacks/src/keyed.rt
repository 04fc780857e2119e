// Printed buckets by their keys.
ghost use Rattle.std.specs.Prelude.{◌≡◌, ◌∷◌, ◌++◌, [], IfOk, IsTrue, OnOk, map};
ghost use Rattle.fc_spec.specs.requests.Request as definition;
ghost use Rattle.fc_spec.specs.replies.Distributed.{printed_keys};
ghost use Rattle.fc_spec.specs.replies.Printed.{asked as asked_of};
ghost use Rattle.fc_facet.specs.declared.kind.Kind.TheVariants as variant;
ghost use Rattle.fc_facet.specs.KindView.{terms_view};
ghost use Rattle.fc_partial.specs.View.{key_view};
ghost use Rattle.fc_refine.specs.CountableRanges.{IsCountable, IsThere};
ghost use Rattle.fc_request.specs.FacetNode.{has_buckets, kind_of, kind_view};
ghost use Rattle.fc_request.specs.NodeView.{inner_view};
ghost use Rattle.fc_request.specs.Ranged.{IsRange, gap_keys_of};
ghost use Rattle.fc_reading.specs.Distinct.{AreDistinct};
ghost use Rattle.fc_lacks.specs.Keys.{AreCountedKeys, keyed_from, keyed_of, keyed_on, keyed_view};

use fc_base::WantMemory;
use fc_facet::{Kind, Terms};
use fc_partial::Key;
use fc_reading::{BucketReading, Candidate, printed_values};
use fc_request::{Node, buckets_of_range};
use std::alloc::Global;
use std::borrow::CowSlice;

/// A printed bucket by its key, with the shards that it carries and its count there.
#[derive(Drop)]
pub(crate) struct Keyed<'s, B> {
    pub(crate) key: Key,
    pub(crate) shards: CowSlice<'s, u32>,
    pub(crate) bucket: B,
    pub(crate) count: u64,
}

// Puts the bucket of a key that is no value behind others, on the shards of the bucket around it.
fn push_key<'s, R: BucketReading>(
    alloc: Global,
    reading: &R,
    kind: &Kind,
    shards: &'s [u32],
    domain: &R::Domain,
    key: Key,
    list: &mut Vec<Keyed<'s, R::Bucket>>,
) -> Result<(), WantMemory>
    requires facet { IsTrue (has_buckets kind.now) }
    requires countable { IsCountable (kind_view kind.now) }
    requires made { R.is_for domain.now kind.now }
    requires there { IsThere (kind_view kind.now) (key_view key) }
    requires distinct { AreDistinct shards.now }
    ensures keyed { OnOk result (map (keyed_view R.held) list.new.items ≡ map (keyed_view R.held) list.old.items
        ++ keyed_on (R.reading reading.now) (kind_view kind.now) shards.now (R.over domain.now) (key_view key) ∷ []) }
    ensures counted { OnOk result (AreCountedKeys (R.reading reading.now) R.held list.old.items
        → AreCountedKeys (R.reading reading.now) R.held list.new.items) }
{
    let bucket = reading.bucket_at(alloc, kind, domain, &key)?;
    let stats = reading.stats_on(alloc, &[], shards, &bucket)?;
    list.push(Keyed {
        key,
        shards: CowSlice::Borrowed(shards),
        bucket,
        count: stats.count,
    })?;
    Ok(())
}

// The same where it is asked for.
fn push_asked<'s, R: BucketReading>(
    alloc: Global,
    reading: &R,
    kind: &Kind,
    shards: &'s [u32],
    domain: &R::Domain,
    asked: bool,
    key: Key,
    list: &mut Vec<Keyed<'s, R::Bucket>>,
) -> Result<(), WantMemory>
    requires facet { IsTrue (has_buckets kind.now) }
    requires countable { IsCountable (kind_view kind.now) }
    requires made { R.is_for domain.now kind.now }
    requires there { IsThere (kind_view kind.now) (key_view key) }
    requires distinct { AreDistinct shards.now }
    ensures keyed { OnOk result (map (keyed_view R.held) list.new.items ≡ map (keyed_view R.held) list.old.items
        ++ map (keyed_on (R.reading reading.now) (kind_view kind.now) shards.now (R.over domain.now)) (asked_of asked (key_view key))) }
    ensures counted { OnOk result (AreCountedKeys (R.reading reading.now) R.held list.old.items
        → AreCountedKeys (R.reading reading.now) R.held list.new.items) }
{
    if !asked {
        return Ok(());
    }
    push_key(alloc, reading, kind, shards, domain, key, list)?;
    Ok(())
}

// The buckets of values.
fn of_values<'s, B: Drop>(
    alloc: Global,
    candidates: Vec<Candidate<'s, B>>,
) -> Result<Vec<Keyed<'s, B>>, WantMemory>
    ensures { IfOk result (λ list. list.items ≡ map keyed_from candidates.entry.items) }
{
    let mut list = Vec::with_capacity(alloc, candidates.len())?;
    for candidate in candidates {
        list.push(Keyed {
            key: Key::Value(candidate.val),
            shards: candidate.shards,
            bucket: candidate.bucket,
            count: candidate.stats.count,
        })?;
    }
    Ok(list)
}

// The buckets of the gaps, in ascending order.
fn of_gaps<'s, R: BucketReading>(
    alloc: Global,
    reading: &R,
    kind: &Kind,
    shards: &'s [u32],
    domain: &R::Domain,
) -> Result<Vec<Keyed<'s, R::Bucket>>, WantMemory>
    requires range { IsRange (kind_view kind.now) }
    requires made { R.is_for domain.now kind.now }
    requires distinct { AreDistinct shards.now }
    ensures keyed { IfOk result (λ list. map (keyed_view R.held) list.items
        ≡ map (keyed_on (R.reading reading.now) (kind_view kind.now) shards.now (R.over domain.now)) (gap_keys_of (kind_view kind.now))) }
    ensures counted { IfOk result (λ list. AreCountedKeys (R.reading reading.now) R.held list.items) }
{
    let mut list = Vec::new(alloc);
    let buckets = buckets_of_range(kind);
    for gap in 0..buckets.gaps {
        push_key(
            alloc,
            reading,
            kind,
            shards,
            domain,
            Key::Gap(gap),
            &mut list,
        )?;
    }
    Ok(list)
}

// The printed buckets of a terms facet.
fn keyed_terms<'s, R: BucketReading>(
    alloc: Global,
    reading: &R,
    node: &Node,
    terms: &Terms,
    shards: &'s [u32],
    domain: &R::Domain,
) -> Result<Vec<Keyed<'s, R::Bucket>>, WantMemory>
    requires made { R.is_for domain.now (kind_of node.now) }
    requires terms { kind_of node.now ≡ variant.Terms terms.now }
    requires distinct { AreDistinct shards.now }
    ensures keyed { IfOk result (λ list. map (keyed_view R.held) list.items
        ≡ map (keyed_of (R.reading reading.now) (definition.terms (terms_view terms.now)) (inner_view node.now) shards.now (R.over domain.now))
        (printed_keys (R.reading reading.now) (definition.terms (terms_view terms.now)) (inner_view node.now) shards.now (R.over domain.now))) }
    ensures counted { IfOk result (λ list. AreCountedKeys (R.reading reading.now) R.held list.items) }
{
    let stats = node.stats(alloc)?;
    let printed = printed_values(alloc, reading, node, terms, &stats, shards, domain)?;
    let mut list = of_values(alloc, printed)?;
    push_asked(
        alloc,
        reading,
        &node.kind,
        shards,
        domain,
        terms.missing,
        Key::Missing,
        &mut list,
    )?;
    Ok(list)
}

// The printed buckets of a range facet, over integers or over dates.
fn keyed_range<'s, R: BucketReading>(
    alloc: Global,
    reading: &R,
    kind: &Kind,
    shards: &'s [u32],
    domain: &R::Domain,
) -> Result<Vec<Keyed<'s, R::Bucket>>, WantMemory>
    requires range { IsRange (kind_view kind.now) }
    requires made { R.is_for domain.now kind.now }
    requires distinct { AreDistinct shards.now }
    ensures keyed { IfOk result (λ list. (inner : definition.Nodes) → map (keyed_view R.held) list.items
        ≡ map (keyed_of (R.reading reading.now) (kind_view kind.now) inner shards.now (R.over domain.now))
        (printed_keys (R.reading reading.now) (kind_view kind.now) inner shards.now (R.over domain.now))) }
    ensures counted { IfOk result (λ list. AreCountedKeys (R.reading reading.now) R.held list.items) }
{
    let mut list = of_gaps(alloc, reading, kind, shards, domain)?;
    let buckets = buckets_of_range(kind);
    push_asked(
        alloc,
        reading,
        kind,
        shards,
        domain,
        buckets.before,
        Key::Before,
        &mut list,
    )?;
    push_asked(
        alloc,
        reading,
        kind,
        shards,
        domain,
        buckets.between,
        Key::Between,
        &mut list,
    )?;
    push_asked(
        alloc,
        reading,
        kind,
        shards,
        domain,
        buckets.after,
        Key::After,
        &mut list,
    )?;
    Ok(list)
}

/// The buckets that a facet prints over its domain on the shards.
pub(crate) fn printed_buckets<'s, R: BucketReading>(
    alloc: Global,
    reading: &R,
    node: &Node,
    shards: &'s [u32],
    domain: &R::Domain,
) -> Result<Vec<Keyed<'s, R::Bucket>>, WantMemory>
    requires facet { IsTrue (has_buckets (kind_of node.now)) }
    requires countable { IsCountable (kind_view (kind_of node.now)) }
    requires made { R.is_for domain.now (kind_of node.now) }
    requires distinct { AreDistinct shards.now }
    ensures keyed { IfOk result (λ list. map (keyed_view R.held) list.items
        ≡ map (keyed_of (R.reading reading.now) (kind_view (kind_of node.now)) (inner_view node.now) shards.now (R.over domain.now))
        (printed_keys (R.reading reading.now) (kind_view (kind_of node.now)) (inner_view node.now) shards.now (R.over domain.now))) }
    ensures counted { IfOk result (λ list. AreCountedKeys (R.reading reading.now) R.held list.items) }
{
    let kind = &node.kind;
    match kind {
        Kind::Terms(terms) => {
            let list = keyed_terms(alloc, reading, node, terms, shards, domain)?;
            Ok(list)
        }
        Kind::Range(_) | Kind::DateRange(_) => {
            let list = keyed_range(alloc, reading, kind, shards, domain)?;
            Ok(list)
        }
        Kind::Query(_) => {
            let mut list = Vec::new(alloc);
            push_key(alloc, reading, kind, shards, domain, Key::Whole, &mut list)?;
            Ok(list)
        }
        Kind::Stat(_) => unreachable!(),
    }
}
