// The order of totals.
ghost use Rattle.std.specs.Prelude.{◌≡◌, All, IfOk, IsPermutation, map};
ghost use Rattle.fc_spec.specs.laws.SortingLaw.{IsSortOf, up_to};
ghost use Rattle.fc_spec.specs.requests.Ranks as definition;
ghost use Rattle.fc_facet.specs.KindView.{sort_view};
ghost use Rattle.fc_refine.specs.Entries.{HaveAscendingValues};
ghost use Rattle.fc_exact.specs.ToldView.{total_view};

use crate::totals::Total;
use fc_base::WantMemory;
use fc_facet::{Sort, SortKey};
use std::cmp::Ordering;

// The other way round where descending.
fn directed(descending: bool, order: Ordering) -> Ordering
    ensures { result ≡ definition.directed descending order }
{
    if descending { order.reverse() } else { order }
}

// By the key of the sort; totals have no statistics.
fn compare_keys(sort: Sort, a: &Total, b: &Total) -> Ordering
    ensures { result ≡ definition.sort_key_cmp (sort_view sort).by sort.descending (total_view a.now) (total_view b.now) }
{
    match sort.by {
        SortKey::Count => directed(sort.descending, a.count.cmp(&b.count)),
        SortKey::Index => directed(sort.descending, a.val.cmp(b.val)),
        SortKey::Stat(_) => Ordering::Equal,
    }
}

// By the key, and where that ties in index order.
fn compare(sort: Sort, a: &Total, b: &Total) -> Ordering
    ensures { result ≡ definition.entry_cmp (sort_view sort) (total_view a.now) (total_view b.now) }
{
    compare_keys(sort, a, b).then_with(|| a.val.cmp(b.val))
}

/// The totals in their order.
pub(crate) fn ordered<'a>(
    sort: Sort,
    mut totals: Vec<Total<'a>>,
) -> Result<Vec<Total<'a>>, WantMemory>
    requires { HaveAscendingValues (map total_view totals.items) }
    ensures order { IfOk result (λ ordered. IsSortOf (sort_view sort) (map total_view totals.entry.items) (map total_view ordered.items)) }
    ensures members { IfOk result (λ ordered. IsPermutation totals.entry.items ordered.items) }
{
    totals.sort_by(|a, b| compare(sort, a, b))?;
    Ok(totals)
}

// The first of them, where there is a limit.
fn cut<'a>(limit: Option<u32>, mut totals: Vec<Total<'a>>) -> Vec<Total<'a>>
    ensures { map total_view result.items ≡ up_to limit (map total_view totals.entry.items) }
{
    if let Some(limit) = limit {
        totals.truncate(limit as usize);
    }
    totals
}

/// The totals of the ranks from the offset up to, but not including, offset and limit together, in their order; all from the
/// offset on where there is no limit.
pub(crate) fn page<'a>(
    sort: Sort,
    offset: u32,
    limit: Option<u32>,
    totals: Vec<Total<'a>>,
) -> Result<Vec<Total<'a>>, WantMemory>
    requires { HaveAscendingValues (map total_view totals.items) }
    ensures { IfOk result (λ page. map total_view page.items ≡ definition.page (sort_view sort) offset limit (map total_view totals.entry.items)) }
{
    let mut ordered = ordered(sort, totals)?;
    let from = ordered.len().min(offset as usize);
    let rest = ordered.split_off(from)?;
    Ok(cut(limit, rest))
}
