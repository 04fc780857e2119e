// What shards are asked.
ghost use Rattle.std.specs.Prelude.{◌≡◌, ◌<◌, All, IfOk, IsTrue, None, OnOk, Some, [], is_some, map, option_map, slice_set, vec_len};
ghost use Rattle.std.specs.List.{list_any};
ghost use Rattle.fc_spec.specs.messages.Message.{first};
ghost use Rattle.fc_spec.specs.messages.Rounds.{wants_of};
ghost use Rattle.fc_spec.specs.words.Lists.{numbers_below};
ghost use Rattle.fc_refine.specs.AskView.{ask_view, want_view, wants_view};
ghost use Rattle.fc_lacks.specs.LackView.{lack_view};
ghost use Rattle.fc_coord.specs.State as state;
ghost use Rattle.fc_coord.specs.View.{all_wants_view, asks_view};
ghost use Rattle.fc_coord.specs.Wants.{with_want};

use fc_base::WantMemory;
use fc_lacks::Lack;
use fc_refine::{Ask, Want};
use std::alloc::Global;
use std::sync::Arc;

/// Whether some shard is asked something.
pub(crate) fn are_awaited(asks: &[Option<Ask>]) -> bool
    ensures { result ≡ list_any is_some (asks_view asks.now) }
{
    for ask in asks {
        if ask.is_some() {
            return true;
        }
    }
    false
}

/// At the start every shard is asked first.
pub(crate) fn first_asks(alloc: Global, shards: u32) -> Result<Vec<Option<Ask>>, WantMemory>
    ensures { IfOk result (λ asks. asks_view asks.items ≡ map (λ _. Some first) (numbers_below shards)) }
{
    let mut asks = Vec::new(alloc);
    for _shard in 0..shards {
        asks.push(Some(Ask::First))?;
    }
    Ok(asks)
}

/// The ask of an awaited shard, which is awaited no longer.
pub(crate) fn heard(asks: &mut Vec<Option<Ask>>, shard: u32) -> Ask
    requires { IsTrue (is_some (state.ask_at (asks_view asks.old.items) shard)) }
    ensures ask { state.ask_at (asks_view asks.old.items) shard ≡ Some (ask_view result) }
    ensures asks { asks_view asks.new.items ≡ slice_set (asks_view asks.old.items) shard None }
{
    match asks[shard as usize].take() {
        Some(ask) => ask,
        None => unreachable!(),
    }
}

// No wants of any shard.
fn no_wants(alloc: Global, shards: u32) -> Result<Vec<Vec<Want>>, WantMemory>
    ensures { IfOk result (λ wants. all_wants_view wants.items ≡ map (λ i. wants_of i []) (numbers_below shards)) }
{
    let mut wants = Vec::new(alloc);
    for _shard in 0..shards {
        wants.push(Vec::new(alloc))?;
    }
    Ok(wants)
}

// One want more, of a shard.
fn add_want(wants: &mut Vec<Vec<Want>>, lack: Lack) -> Result<(), WantMemory>
    requires { lack.shard < vec_len wants.old }
    ensures { OnOk result (all_wants_view wants.new.items ≡ with_want lack.shard (want_view lack.want) (all_wants_view wants.old.items)) }
{
    wants[lack.shard as usize].push(lack.want)?;
    Ok(())
}

// The wants of each shard.
fn wants_by_shard(
    alloc: Global,
    shards: u32,
    lacks: Vec<Lack>,
) -> Result<Vec<Vec<Want>>, WantMemory>
    requires { All (λ lack. lack.shard < shards) lacks.items }
    ensures { IfOk result (λ wants. all_wants_view wants.items
        ≡ map (λ i. wants_of i (map lack_view lacks.items)) (numbers_below shards)) }
{
    let mut wants = no_wants(alloc, shards)?;
    for lack in lacks {
        add_want(&mut wants, lack)?;
    }
    Ok(wants)
}

// An ask for wants, where there are any.
fn ask_for(alloc: Global, mut wants: Vec<Want>) -> Result<Option<Ask>, WantMemory>
    ensures { IfOk result (λ ask. option_map ask_view ask ≡ state.ask_for (wants_view wants.items)) }
{
    if wants.is_empty() {
        return Ok(None);
    }
    wants.shrink_to_fit();
    let wants = Arc::new(alloc, wants)?;
    Ok(Some(Ask::More(wants)))
}

// The asks for the wants of each shard.
fn asks_of(alloc: Global, wants: Vec<Vec<Want>>) -> Result<Vec<Option<Ask>>, WantMemory>
    ensures { IfOk result (λ asks. asks_view asks.items ≡ map state.ask_for (all_wants_view wants.items)) }
{
    let mut asks = Vec::with_capacity(alloc, wants.len())?;
    for list in wants {
        asks.push(ask_for(alloc, list)?)?;
    }
    Ok(asks)
}

/// Each shard is asked for all that it lacks; one that lacks nothing is not awaited.
pub(crate) fn asks_for(
    alloc: Global,
    shards: u32,
    lacks: Vec<Lack>,
) -> Result<Vec<Option<Ask>>, WantMemory>
    requires { All (λ lack. lack.shard < shards) lacks.items }
    ensures { IfOk result (λ asks. asks_view asks.items ≡ state.asks_for shards (map lack_view lacks.items)) }
{
    let wants = wants_by_shard(alloc, shards, lacks)?;
    let asks = asks_of(alloc, wants)?;
    Ok(asks)
}
