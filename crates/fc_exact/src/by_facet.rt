// What was told, facet by facet.
ghost use Rattle.std.specs.Prelude.{◌≡◌, IfOk, OnOk, [], map};
ghost use Rattle.fc_spec.specs.words.Lists.{numbers_below};
ghost use Rattle.fc_exact.specs.ToldFacets.{told_of_facet, with_told};
ghost use Rattle.fc_exact.specs.ToldView.{lists_view};
ghost use Rattle.fc_exact.specs.View.{told_view};

use crate::told::ToldCount;
use fc_base::WantMemory;
use std::alloc::Global;

// Nothing of any facet.
fn no_lists<'a>(alloc: Global, facets: usize) -> Result<Vec<Vec<&'a ToldCount>>, WantMemory>
    ensures { IfOk result (λ lists. lists_view lists.items ≡ map (told_of_facet []) (numbers_below facets)) }
{
    let mut lists = Vec::new(alloc);
    for _facet in 0..facets {
        lists.push(Vec::new(alloc))?;
    }
    Ok(lists)
}

// One more, where there is its facet.
fn add<'a>(lists: &mut Vec<Vec<&'a ToldCount>>, told: &'a ToldCount) -> Result<(), WantMemory>
    ensures { OnOk result (lists_view lists.new.items ≡ with_told told.now.node (told_view told.now) (lists_view lists.old.items)) }
{
    let node = told.node;
    if lists.len() <= node {
        return Ok(());
    }
    lists[node].push(told)?;
    Ok(())
}

/// What was told of each of so many facets, in its order.
pub(crate) fn told_by_facet<'a>(
    alloc: Global,
    told: &'a [ToldCount],
    facets: usize,
) -> Result<Vec<Vec<&'a ToldCount>>, WantMemory>
    ensures { IfOk result (λ lists. lists_view lists.items
        ≡ map (told_of_facet (map told_view told.now)) (numbers_below facets)) }
{
    let mut lists = no_lists(alloc, facets)?;
    for one in told {
        add(&mut lists, one)?;
    }
    Ok(lists)
}
