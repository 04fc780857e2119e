// The printed buckets of a terms facet.
ghost use Rattle.std.specs.Prelude.{◌≡◌, ℕ, List, All, IfOk, IsTrue, map, nat_le, not, ◌&&◌, if◌then◌else◌};
ghost use Rattle.std.specs.Cow.{cow_slice_items};
ghost use Rattle.std.specs.List.{filter};
ghost use Rattle.fc_spec.specs.documents.Val as value;
ghost use Rattle.fc_spec.specs.requests.Request as definition;
ghost use Rattle.fc_spec.specs.requests.Ranks as ranks;
ghost use Rattle.fc_spec.specs.requests.Shape.{asks_again as asks_again_of};
ghost use Rattle.fc_spec.specs.replies.Chosen as chosen;
ghost use Rattle.fc_base.specs.StatisticView.{stat_view};
ghost use Rattle.fc_base.specs.View.{val_view};
ghost use Rattle.fc_facet.specs.declared.kind.Kind.TheVariants as variant;
ghost use Rattle.fc_facet.specs.KindView.{sort_view, terms_view};
ghost use Rattle.fc_request.specs.NodeView.{inner_view};
ghost use Rattle.fc_refine.specs.Entries.{HaveAscendingValues};
ghost use Rattle.fc_request.specs.FacetNode.{kind_of};
ghost use Rattle.fc_reading.specs.Distinct.{AreDistinct};
ghost use Rattle.fc_reading.specs.Parts.{AreCounted, parts_of, parts_view};
ghost use Rattle.fc_reading.specs.Terms.{AreOn, AreOnFirst, AreOnKnown, candidate_vals, candidates_view, IsOn, part_from};

use crate::BucketReading;
use crate::candidate::Candidate;
use crate::offered::{Offered, merged};
use crate::part::{Part, Parts, part_beside};
use fc_base::{Stat, Val, WantMemory};
use fc_facet::{Kind, Terms};
use fc_partial::Key;
use fc_refine::{below_rank, page, rank_bound};
use fc_request::Node;
use std::alloc::Global;
use std::borrow::CowSlice;

// The bucket of a value, counted over these shards.
fn candidate<'s, R: BucketReading>(
    alloc: Global,
    reading: &R,
    node: &Node,
    terms: &Terms,
    stats: &[Stat],
    domain: &R::Domain,
    val: &Val,
    shards: CowSlice<'s, u32>,
) -> Result<Candidate<'s, R::Bucket>, WantMemory>
    requires made { R.is_for domain.now (kind_of node.now) }
    requires stats { map stat_view stats.now ≡ definition.stats_of (inner_view node.now) }
    requires terms { kind_of node.now ≡ variant.Terms terms.now }
    requires distinct { AreDistinct (cow_slice_items shards) }
    ensures val { IfOk result (λ c. val_view c.val ≡ val_view val.now) }
    ensures on { IfOk result (λ c. (all : List ℕ) → IsOn (R.reading reading.now) (terms_view terms.now) (inner_view node.now) all
        (R.over domain.now) R.held (λ v. cow_slice_items shards.entry) c) }
{
    let key = Key::Value(val.copy(alloc)?);
    let bucket = reading.bucket_at(alloc, &node.kind, domain, &key)?;
    let stats = reading.stats_on(alloc, stats, &shards, &bucket)?;
    let Key::Value(val) = key else { unreachable!() };
    Ok(Candidate {
        val,
        shards,
        bucket,
        stats,
    })
}

// Over which shards an offered value is counted first, of a facet that asks again, or does not.
fn shards_first<'s>(
    terms: &Terms,
    again: bool,
    shards: &'s [u32],
    offering: Vec<u32>,
) -> CowSlice<'s, u32>
    ensures { cow_slice_items result
        ≡ (if terms.now.refine && not again then shards.now else offering.items) }
{
    if terms.refine && !again {
        CowSlice::Borrowed(shards)
    } else {
        CowSlice::Owned(offering)
    }
}

// The candidate of each offered value.
fn candidates_of<'s, R: BucketReading>(
    alloc: Global,
    reading: &R,
    node: &Node,
    terms: &Terms,
    stats: &[Stat],
    again: bool,
    shards: &'s [u32],
    domain: &R::Domain,
    offered: Vec<Offered>,
) -> Result<Vec<Candidate<'s, R::Bucket>>, WantMemory>
    requires made { R.is_for domain.now (kind_of node.now) }
    requires stats { map stat_view stats.now ≡ definition.stats_of (inner_view node.now) }
    requires terms { kind_of node.now ≡ variant.Terms terms.now }
    requires again { again ≡ asks_again_of (terms_view terms.now) (inner_view node.now) }
    requires offering { All (λ o. o.shards.items ≡ chosen.offering (R.reading reading.now) (terms_view terms.now)
        (inner_view node.now) shards.now (R.over domain.now) (val_view o.val.now)) offered.items }
    requires distinct { AreDistinct shards.now }
    ensures on { IfOk result (λ list. AreOnFirst (R.reading reading.now) (terms_view terms.now) (inner_view node.now) shards.now
        (R.over domain.now) R.held list.items) }
    ensures vals { IfOk result (λ list. candidate_vals list.items ≡ map (λ o. val_view o.val.now) offered.entry.items) }
{
    let mut list = Vec::with_capacity(alloc, offered.len())?;
    for one in offered {
        let counted = shards_first(terms, again, shards, one.shards);
        list.push(candidate(alloc, reading, node, terms, stats, domain, one.val, counted)?)?;
    }
    Ok(list)
}

// The candidates, in index order.
fn candidates<'s, R: BucketReading>(
    alloc: Global,
    reading: &R,
    node: &Node,
    terms: &Terms,
    stats: &[Stat],
    shards: &'s [u32],
    domain: &R::Domain,
) -> Result<Vec<Candidate<'s, R::Bucket>>, WantMemory>
    requires made { R.is_for domain.now (kind_of node.now) }
    requires stats { map stat_view stats.now ≡ definition.stats_of (inner_view node.now) }
    requires terms { kind_of node.now ≡ variant.Terms terms.now }
    requires distinct { AreDistinct shards.now }
    ensures on { IfOk result (λ list. AreOnFirst (R.reading reading.now) (terms_view terms.now) (inner_view node.now) shards.now
        (R.over domain.now) R.held list.items) }
    ensures vals { IfOk result (λ list. candidate_vals list.items ≡ chosen.candidates (R.reading reading.now)
        (terms_view terms.now) (inner_view node.now) shards.now (R.over domain.now)) }
{
    let offers = reading.offers(alloc, terms, stats, domain, shards)?;
    let offered = merged(alloc, shards, &offers)?;
    let again = asks_again(node, terms);
    let list = candidates_of(
        alloc, reading, node, terms, stats, again, shards, domain, offered,
    )?;
    Ok(list)
}

// A candidate, counted over these shards instead.
fn counted_on<'s, R: BucketReading>(
    alloc: Global,
    reading: &R,
    stats: &[Stat],
    shards: &'s [u32],
    candidate: Candidate<R::Bucket>,
) -> Result<Candidate<'s, R::Bucket>, WantMemory>
    requires distinct { AreDistinct shards.now }
    ensures val { IfOk result (λ c. c.val ≡ candidate.entry.val) }
    ensures on { IfOk result (λ c. (t : definition.Terms) (inner : definition.Nodes) (Y : R.Over) (counted : value.Val → List ℕ)
        → definition.stats_of inner ≡ map stat_view stats.now
        → IsOn (R.reading reading.now) t inner shards.now Y R.held counted candidate.entry
        → IsOn (R.reading reading.now) t inner shards.now Y R.held (λ v. shards.now) c) }
{
    let stats = reading.stats_on(alloc, stats, shards, &candidate.bucket)?;
    Ok(Candidate {
        val: candidate.val,
        shards: CowSlice::Borrowed(shards),
        bucket: candidate.bucket,
        stats,
    })
}

// Candidates, each counted over these shards instead.
fn all_counted_on<'s, R: BucketReading>(
    alloc: Global,
    reading: &R,
    stats: &[Stat],
    shards: &'s [u32],
    candidates: Vec<Candidate<R::Bucket>>,
) -> Result<Vec<Candidate<'s, R::Bucket>>, WantMemory>
    requires distinct { AreDistinct shards.now }
    ensures vals { IfOk result (λ list. candidate_vals list.items ≡ candidate_vals candidates.entry.items) }
    ensures on { IfOk result (λ list. (t : definition.Terms) (inner : definition.Nodes) (Y : R.Over) (counted : value.Val → List ℕ)
        → definition.stats_of inner ≡ map stat_view stats.now
        → AreOn (R.reading reading.now) t inner shards.now Y R.held counted candidates.entry.items
        → AreOn (R.reading reading.now) t inner shards.now Y R.held (λ v. shards.now) list.items) }
{
    let mut list = Vec::with_capacity(alloc, candidates.len())?;
    for candidate in candidates {
        list.push(counted_on(alloc, reading, stats, shards, candidate)?)?;
    }
    Ok(list)
}

/// Whether a terms facet with the nodes nested in this node asks again.
pub fn asks_again(node: &Node, terms: &Terms) -> bool
    ensures { result ≡ asks_again_of (terms_view terms.now) (inner_view node.now) }
{
    match terms.limit {
        Some(_) => terms.refine,
        None => node.holds_exclusion(),
    }
}

/// The chosen values of a facet that asks again, each counted over the shards that offer it.
pub fn chosen_again<'s, R: BucketReading>(
    alloc: Global,
    reading: &R,
    node: &Node,
    terms: &Terms,
    stats: &[Stat],
    shards: &'s [u32],
    domain: &R::Domain,
) -> Result<Vec<Candidate<'s, R::Bucket>>, WantMemory>
    requires made { R.is_for domain.now (kind_of node.now) }
    requires stats { map stat_view stats.now ≡ definition.stats_of (inner_view node.now) }
    requires terms { kind_of node.now ≡ variant.Terms terms.now }
    requires distinct { AreDistinct shards.now }
    requires again { IsTrue (asks_again_of (terms_view terms.now) (inner_view node.now)) }
    ensures on { IfOk result (λ list. AreOn (R.reading reading.now) (terms_view terms.now) (inner_view node.now) shards.now
        (R.over domain.now) R.held (chosen.offering (R.reading reading.now) (terms_view terms.now) (inner_view node.now) shards.now
        (R.over domain.now)) list.items) }
    ensures vals { IfOk result (λ list. candidate_vals list.items ≡ chosen.chosen (R.reading reading.now)
        (terms_view terms.now) (inner_view node.now) shards.now (R.over domain.now)) }
    ensures ascend { IfOk result (λ list. HaveAscendingValues (candidates_view list.items)) }
{
    let all = candidates(alloc, reading, node, terms, stats, shards, domain)?;
    let bound = rank_bound(terms.offset, terms.limit, terms.overrefine);
    let front = below_rank(terms.sort, bound, all)?;
    Ok(front)
}

// The chosen values, each counted over its known shards.
fn chosen<'s, R: BucketReading>(
    alloc: Global,
    reading: &R,
    node: &Node,
    terms: &Terms,
    stats: &[Stat],
    shards: &'s [u32],
    domain: &R::Domain,
) -> Result<Vec<Candidate<'s, R::Bucket>>, WantMemory>
    requires made { R.is_for domain.now (kind_of node.now) }
    requires stats { map stat_view stats.now ≡ definition.stats_of (inner_view node.now) }
    requires terms { kind_of node.now ≡ variant.Terms terms.now }
    requires distinct { AreDistinct shards.now }
    ensures on { IfOk result (λ list. AreOnKnown (R.reading reading.now) (terms_view terms.now) (inner_view node.now) shards.now
        (R.over domain.now) R.held list.items) }
    ensures entries { IfOk result (λ list. candidates_view list.items ≡ chosen.chosen_entries (R.reading reading.now)
        (terms_view terms.now) (inner_view node.now) shards.now (R.over domain.now)) }
    ensures ascend { IfOk result (λ list. HaveAscendingValues (candidates_view list.items)) }
{
    if asks_again(node, terms) {
        let front = chosen_again(alloc, reading, node, terms, stats, shards, domain)?;
        let refined = all_counted_on(alloc, reading, stats, shards, front)?;
        Ok(refined)
    } else {
        let all = candidates(alloc, reading, node, terms, stats, shards, domain)?;
        Ok(all)
    }
}

// The candidates whose count is at least so much.
fn with_count<'s, B: Drop>(
    alloc: Global,
    least: u32,
    candidates: Vec<Candidate<'s, B>>,
) -> Result<Vec<Candidate<'s, B>>, WantMemory>
    ensures { IfOk result (λ kept. kept.items ≡ filter (λ c. nat_le least c.stats.count) candidates.entry.items) }
{
    let mut kept = Vec::new(alloc);
    for candidate in candidates {
        if u64::from(least) <= candidate.stats.count {
            kept.push(candidate)?;
        }
    }
    Ok(kept)
}

/// The candidates that are printed, in the order of their ranks.
pub fn printed_values<'s, R: BucketReading>(
    alloc: Global,
    reading: &R,
    node: &Node,
    terms: &Terms,
    stats: &[Stat],
    shards: &'s [u32],
    domain: &R::Domain,
) -> Result<Vec<Candidate<'s, R::Bucket>>, WantMemory>
    requires made { R.is_for domain.now (kind_of node.now) }
    requires stats { map stat_view stats.now ≡ definition.stats_of (inner_view node.now) }
    requires terms { kind_of node.now ≡ variant.Terms terms.now }
    requires distinct { AreDistinct shards.now }
    ensures on { IfOk result (λ list. AreOnKnown (R.reading reading.now) (terms_view terms.now) (inner_view node.now) shards.now
        (R.over domain.now) R.held list.items) }
    ensures entries { IfOk result (λ list. candidates_view list.items ≡ ranks.page (sort_view terms.now.sort) terms.now.offset terms.now.limit
        (filter (λ e. nat_le terms.now.mincount e.stats.count) (chosen.chosen_entries (R.reading reading.now)
        (terms_view terms.now) (inner_view node.now) shards.now (R.over domain.now)))) }
{
    let chosen = chosen(alloc, reading, node, terms, stats, shards, domain)?;
    let kept = with_count(alloc, terms.mincount, chosen)?;
    let page = page(terms.sort, terms.offset, terms.limit, kept)?;
    Ok(page)
}

// The buckets of candidates.
fn value_parts<'s, B: Drop>(
    alloc: Global,
    candidates: Vec<Candidate<'s, B>>,
) -> Result<Vec<Part<'s, B>>, WantMemory>
    ensures { IfOk result (λ parts. parts.items ≡ map part_from candidates.entry.items) }
{
    let mut parts = Vec::with_capacity(alloc, candidates.len())?;
    for candidate in candidates {
        parts.push(Part {
            val: Some(candidate.val),
            shards: candidate.shards,
            bucket: candidate.bucket,
            stats: candidate.stats,
        })?;
    }
    Ok(parts)
}

/// The buckets of the values, and that of the documents without one where it is asked for.
pub(crate) fn terms_parts<'s, R: BucketReading>(
    alloc: Global,
    reading: &R,
    node: &Node,
    terms: &Terms,
    stats: &[Stat],
    shards: &'s [u32],
    domain: &R::Domain,
) -> Result<Parts<'s, R::Bucket>, WantMemory>
    requires made { R.is_for domain.now (kind_of node.now) }
    requires stats { map stat_view stats.now ≡ definition.stats_of (inner_view node.now) }
    requires terms { kind_of node.now ≡ variant.Terms terms.now }
    requires distinct { AreDistinct shards.now }
    ensures parts { IfOk result (λ parts. parts_view R.held parts
        ≡ parts_of (R.reading reading.now) (definition.terms (terms_view terms.now)) (inner_view node.now) shards.now (R.over domain.now)) }
    ensures counted { IfOk result (AreCounted (R.reading reading.now) R.held (map stat_view stats.now)) }
{
    let printed = printed_values(alloc, reading, node, terms, stats, shards, domain)?;
    let list = value_parts(alloc, printed)?;
    let missing = part_beside(
        alloc,
        reading,
        &node.kind,
        stats,
        shards,
        domain,
        terms.missing,
        Key::Missing,
    )?;
    Ok(Parts {
        list,
        missing,
        before: None,
        between: None,
        after: None,
    })
}
