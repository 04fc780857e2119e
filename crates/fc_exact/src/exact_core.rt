// The core of a search for the values that exact facets print.
ghost use Rattle.std.specs.Prelude.{◌≡◌, ◌<◌, ◌≤◌, false, is_some, length, true};
ghost use Rattle.std.specs.List.{list_any};
ghost use Rattle.fc_exact.specs.View.{asks_view, is_ready};

use crate::ExactAsk;
use crate::standing::Standing;
use crate::told::ToldCount;
use fc_request::Request;
use std::alloc::Global;

/// What shards told so far of exact facets, and what they are asked in this round.
#[derive(Debug, Drop)]
pub struct ExactCore<'a> {
    pub(crate) alloc: Global,
    pub(crate) request: &'a Request,
    pub(crate) told: Vec<ToldCount>,
    // By the numbers of the shards; none where a shard is not awaited.
    pub(crate) asks: Vec<Option<ExactAsk>>,
    pub(crate) round: u32,
    pub(crate) standing: Standing,
    ghost some: { 0 < length asks.items },
    ghost few: { length asks.items ≤ 64 },
    ghost done: { is_ready standing ≡ true → list_any is_some (asks_view asks.items) ≡ false },
}
