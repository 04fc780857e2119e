// From which counts on shards are asked for values.
ghost use Rattle.std.specs.Prelude.{◌≡◌, ◌*◌, ◌-◌, ◌≤◌, ◌^◌, List, All, IfOk, map};
ghost use Rattle.fc_spec.specs.laws.SortingLaw.{IsSortOf};
ghost use Rattle.fc_spec.specs.requests.Least as definition;
ghost use Rattle.fc_spec.specs.requests.Ranks.{Entry};
ghost use Rattle.fc_spec.specs.replies.Tops.{top_bound as top_bound_of};
ghost use Rattle.fc_spec.specs.words.Lists.{numbers_below};
ghost use Rattle.fc_facet.specs.KindView.{terms_view};
ghost use Rattle.fc_refine.specs.Grouped.{Ascend};
ghost use Rattle.fc_exact.specs.ToldFacets.{least_of as least_of_facet};
ghost use Rattle.fc_exact.specs.ToldView.{facet_view, total_view};

use crate::facets::ToldFacet;
use crate::ranks::ordered;
use crate::totals::{Total, totals};
use fc_base::WantMemory;
use fc_facet::{Sort, SortKey, Terms};
use fc_request::Kind;
use std::alloc::Global;

// The greatest count first.
const COUNT_FIRST: Sort = Sort {
    by: SortKey::Count,
    descending: true,
};

// How many values are looked for.
fn top_bound(terms: &Terms) -> u64
    ensures { result ≡ top_bound_of (terms_view terms.now) }
{
    u64::from(terms.offset) + u64::from(terms.limit.unwrap_or(0))
}

// One of so many parts of a count, rounded up.
fn share(shards: u32, count: u128) -> u64
    requires some { 1 ≤ shards }
    requires bound { count ≤ shards * (2 ^ 64 - 1) }
    ensures { result ≡ definition.share count shards }
{
    let shards = u128::from(shards);
    ((count + (shards - 1)) / shards) as u64
}

// The share of the count of a rank; 1 where no total has it.
fn least_at(shards: u32, bound: u64, ordered: &[Total]) -> u64
    requires some { 1 ≤ shards }
    requires bound { All (λ total. total.count ≤ shards * (2 ^ 64 - 1)) ordered.now }
    ensures { (V : List Entry) → IsSortOf definition.count_first V (map total_view ordered.now) → result ≡ definition.least_count shards bound V }
{
    if bound == 0 {
        return u64::MAX;
    }
    let place = (bound - 1) as usize;
    if ordered.len() <= place {
        return share(shards, 1);
    }
    share(shards, ordered[place].count)
}

// The least count that shards are asked for of a facet.
fn least_of(alloc: Global, shards: u32, facet: &ToldFacet) -> Result<u64, WantMemory>
    requires some { 1 ≤ shards }
    requires ascend { Ascend (facet_view facet.now).1 }
    ensures { IfOk result (λ least. least ≡ least_of_facet (numbers_below shards) (facet_view facet.now)) }
{
    match facet.kind {
        Kind::Terms(terms) => {
            let totals = totals(alloc, shards, &facet.values)?;
            let ordered = ordered(COUNT_FIRST, totals)?;
            Ok(least_at(shards, top_bound(terms), &ordered))
        }
        _ => Ok(0),
    }
}

/// The least count of each facet.
pub(crate) fn leasts(
    alloc: Global,
    shards: u32,
    facets: &[ToldFacet],
) -> Result<Vec<u64>, WantMemory>
    requires some { 1 ≤ shards }
    requires ascend { All (λ facet. Ascend (facet_view facet).1) facets.now }
    ensures { IfOk result (λ leasts. leasts.items ≡ map (least_of_facet (numbers_below shards)) (map facet_view facets.now)) }
{
    let mut leasts = Vec::with_capacity(alloc, facets.len())?;
    for facet in facets {
        leasts.push(least_of(alloc, shards, facet)?)?;
    }
    Ok(leasts)
}
