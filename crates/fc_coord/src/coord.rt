// The coordinator.
ghost use Rattle.std.specs.Prelude.{◌≡◌, ◌+◌, ◌<◌, ◌≤◌, ◌^◌, false, true, is_some, length};
ghost use Rattle.std.specs.List.{list_any};
ghost use Rattle.fc_spec.specs.messages.Lacks.{terms_depth};
ghost use Rattle.fc_request.specs.RequestView.{request_view};
ghost use Rattle.fc_refine.specs.CountableRanges.{AreCountable};
ghost use Rattle.fc_coord.specs.Countable.{AreCountable-prop};
ghost use Rattle.fc_coord.specs.View.{asks_view, state_of, is_ready, is_spent, IsKeptAt};

use crate::standing::Standing;
use fc_refine::Ask;
use fc_request::Request;
use fc_told::ToldBucket;
use std::alloc::Global;

/// What shards told so far, and what they are asked in this round.
#[derive(Debug, Drop)]
pub struct Coord<'a> {
    pub(crate) alloc: Global,
    pub(crate) request: &'a Request,
    pub(crate) told: ToldBucket,
    // By the numbers of the shards; none where a shard is not awaited.
    pub(crate) asks: Vec<Option<Ask>>,
    pub(crate) round: u32,
    // With fewer terms facets around nothing lacks, once the round has ended.
    pub(crate) next_depth: u32,
    pub(crate) standing: Standing,
    ghost countable: { AreCountable (request_view request.now).nodes } by { AreCountable-prop (request_view request.now).nodes },
    ghost depth: { terms_depth (request_view request.now).nodes + 1 < 2 ^ 32 },
    ghost shards: { length asks.items ≤ 64 },
    ghost done: { is_ready standing ≡ true → list_any is_some (asks_view asks.items) ≡ false },
    ghost kept: { is_spent standing ≡ false → ∥ IsKeptAt (state_of request.now told asks.items round standing) next_depth ∥₁ },
}
