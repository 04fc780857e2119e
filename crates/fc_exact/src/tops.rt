// The values that facets print.
ghost use Rattle.std.specs.Prelude.{◌≡◌, All, IfOk, map};
ghost use Rattle.fc_spec.specs.words.Lists.{numbers_below};
ghost use Rattle.fc_base.specs.View.{val_view};
ghost use Rattle.fc_refine.specs.Grouped.{Ascend};
ghost use Rattle.fc_exact.specs.ToldFacets.{printed_of};
ghost use Rattle.fc_exact.specs.ToldView.{facet_view, total_view};

use crate::facets::ToldFacet;
use crate::ranks::page;
use crate::totals::{Total, totals, totals_from};
use fc_base::{Val, WantMemory};
use fc_request::Kind;
use std::alloc::Global;

// The values of totals, in their order.
fn vals_of(alloc: Global, totals: &[Total]) -> Result<Vec<Val>, WantMemory>
    ensures { IfOk result (λ vals. map val_view vals.items ≡ map (λ e. e.val) (map total_view totals.now)) }
{
    let mut vals = Vec::with_capacity(alloc, totals.len())?;
    for one in totals {
        vals.push(one.val.copy(alloc)?)?;
    }
    Ok(vals)
}

// The values that a facet prints, in the order of their ranks.
fn printed(alloc: Global, shards: u32, facet: &ToldFacet) -> Result<Vec<Val>, WantMemory>
    requires { Ascend (facet_view facet.now).1 }
    ensures { IfOk result (λ vals. map val_view vals.items ≡ printed_of (numbers_below shards) (facet_view facet.now)) }
{
    match facet.kind {
        Kind::Terms(terms) => {
            let all = totals(alloc, shards, &facet.values)?;
            let enough = totals_from(alloc, terms.mincount, all)?;
            let page = page(terms.sort, terms.offset, terms.limit, enough)?;
            let vals = vals_of(alloc, &page)?;
            Ok(vals)
        }
        _ => Ok(Vec::new(alloc)),
    }
}

/// The values that each facet prints.
pub(crate) fn tops(
    alloc: Global,
    shards: u32,
    facets: &[ToldFacet],
) -> Result<Vec<Vec<Val>>, WantMemory>
    requires { All (λ facet. Ascend (facet_view facet).1) facets.now }
    ensures { IfOk result (λ lists. map (λ vals. map val_view vals.items) lists.items
        ≡ map (printed_of (numbers_below shards)) (map facet_view facets.now)) }
{
    let mut lists = Vec::with_capacity(alloc, facets.len())?;
    for facet in facets {
        lists.push(printed(alloc, shards, facet)?)?;
    }
    Ok(lists)
}
