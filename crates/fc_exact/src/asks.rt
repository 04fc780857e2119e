// What shards are asked.
ghost use Rattle.std.specs.Prelude.{◌≡◌, IfOk, IsTrue, None, Some, is_some, map, option_map, slice_set};
ghost use Rattle.std.specs.List.{list_any};
ghost use Rattle.fc_spec.specs.messages.TopRounds.{exact_first, exact_least};
ghost use Rattle.fc_spec.specs.words.Lists.{numbers_below};
ghost use Rattle.fc_refine.specs.AskView.{wants_view};
ghost use Rattle.fc_exact.specs.State as state;
ghost use Rattle.fc_exact.specs.ToldFacets.{wants_among};
ghost use Rattle.fc_exact.specs.ToldView.{facet_view};
ghost use Rattle.fc_exact.specs.View.{ask_view, asks_view};

use crate::ExactAsk;
use crate::facets::ToldFacet;
use crate::wants::wants_of;
use fc_base::WantMemory;
use fc_refine::Want;
use std::alloc::Global;
use std::sync::Arc;

/// Whether some shard is asked something.
pub(crate) fn are_awaited(asks: &[Option<ExactAsk>]) -> bool
    ensures { result ≡ list_any is_some (asks_view asks.now) }
{
    for ask in asks {
        if ask.is_some() {
            return true;
        }
    }
    false
}

/// At the start every shard is asked what it offers.
pub(crate) fn first_asks(alloc: Global, shards: u32) -> Result<Vec<Option<ExactAsk>>, WantMemory>
    ensures { IfOk result (λ asks. asks_view asks.items ≡ map (λ _. Some exact_first) (numbers_below shards)) }
{
    let mut asks = Vec::new(alloc);
    for _shard in 0..shards {
        asks.push(Some(ExactAsk::First))?;
    }
    Ok(asks)
}

/// The ask of an awaited shard, which is awaited no longer.
pub(crate) fn heard(asks: &mut Vec<Option<ExactAsk>>, shard: u32) -> ExactAsk
    requires { IsTrue (is_some (state.ask_at (asks_view asks.old.items) shard)) }
    ensures ask { state.ask_at (asks_view asks.old.items) shard ≡ Some (ask_view result) }
    ensures asks { asks_view asks.new.items ≡ slice_set (asks_view asks.old.items) shard None }
{
    match asks[shard as usize].take() {
        Some(ask) => ask,
        None => unreachable!(),
    }
}

/// Every shard is asked for the values from the counts on.
pub(crate) fn least_asks(
    alloc: Global,
    shards: u32,
    leasts: &[u64],
) -> Result<Vec<Option<ExactAsk>>, WantMemory>
    ensures { IfOk result (λ asks. asks_view asks.items ≡ map (λ _. Some (exact_least leasts.now)) (numbers_below shards)) }
{
    let mut asks = Vec::new(alloc);
    for _shard in 0..shards {
        let own = Vec::from_slice(alloc, leasts)?;
        asks.push(Some(ExactAsk::Least(own)))?;
    }
    Ok(asks)
}

// An ask for wants, where there are any.
fn ask_for(alloc: Global, mut wants: Vec<Want>) -> Result<Option<ExactAsk>, WantMemory>
    ensures { IfOk result (λ ask. option_map ask_view ask ≡ state.ask_for (wants_view wants.items)) }
{
    if wants.is_empty() {
        return Ok(None);
    }
    wants.shrink_to_fit();
    let wants = Arc::new(alloc, wants)?;
    Ok(Some(ExactAsk::More(wants)))
}

/// Each shard is asked for the values of which it has not told; one that lacks none is not awaited.
pub(crate) fn lacking_asks(
    alloc: Global,
    shards: u32,
    facets: &[ToldFacet],
) -> Result<Vec<Option<ExactAsk>>, WantMemory>
    ensures { IfOk result (λ asks. asks_view asks.items
        ≡ map (λ i. state.ask_for (wants_among i 0 (map facet_view facets.now))) (numbers_below shards)) }
{
    let root = Arc::new(alloc, Vec::new(alloc))?;
    let mut asks = Vec::new(alloc);
    for shard in 0..shards {
        let wants = wants_of(alloc, shard, &root, facets)?;
        asks.push(ask_for(alloc, wants)?)?;
    }
    Ok(asks)
}
