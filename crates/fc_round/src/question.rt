// What shards are asked in a round.
ghost use Rattle.std.specs.Prelude.{◌≡◌};
ghost use Rattle.fc_refine.specs.AskView.{ask_view};
ghost use Rattle.fc_exact.specs.View.{ask_view as exact_view};
ghost use Rattle.fc_round.specs.Questions.{exact_of};
ghost use Rattle.fc_round.specs.QuestionView.{lent_view};

use fc_exact::ExactAsk;
use fc_refine::{Ask, Want};
use std::sync::Arc;

/// What the shard of this number is asked; shards count from 0.
#[derive(Clone, Copy, Debug)]
pub struct Question<'a> {
    pub shard: u32,
    pub ask: LentAsk<'a>,
}

/// What a shard is asked, lent by the core of the search that asks it.
#[derive(Clone, Copy, Debug)]
pub enum LentAsk<'a> {
    /// What it offers.
    First,
    /// The values from a count on, and those without a value: one count for each facet. Nothing may be nested in a facet.
    Least(&'a [u64]),
    /// Some buckets, of which there is one at least.
    More(&'a Arc<Vec<Want>>),
}

impl<'a> LentAsk<'a> {
    /// What the coordinator asks.
    pub fn of(ask: &'a Ask) -> LentAsk<'a>
        ensures { lent_view result ≡ exact_of (ask_view ask.now) }
    {
        match ask {
            Ask::First => LentAsk::First,
            Ask::More(wants) => LentAsk::More(wants),
        }
    }

    /// What the core of exact facets asks.
    pub fn of_exact(ask: &'a ExactAsk) -> LentAsk<'a>
        ensures { lent_view result ≡ exact_view ask.now }
    {
        match ask {
            ExactAsk::First => LentAsk::First,
            ExactAsk::Least(counts) => LentAsk::Least(counts),
            ExactAsk::More(wants) => LentAsk::More(wants),
        }
    }
}
