// What the core answers at any time.
ghost use Rattle.std.specs.Prelude.{◌≡◌, IsTrue, Some};
ghost use Rattle.fc_exact.specs.CoreView.{state_view};
ghost use Rattle.fc_exact.specs.State.{ask_at, is_awaited};
ghost use Rattle.fc_exact.specs.View.{ask_view};

use crate::standing::Standing;
use crate::{ExactAsk, ExactCore};

impl ExactCore<'_> {
    /// Whether the message of a shard is awaited.
    pub fn awaits(&self, shard: u32) -> bool
        ensures { result ≡ is_awaited (state_view self.now) shard }
    {
        matches!(self.asks.get(shard as usize), Some(Some(_)))
    }

    /// What an awaited shard is asked.
    pub fn ask(&self, shard: u32) -> &ExactAsk
        requires { IsTrue (is_awaited (state_view self.now) shard) }
        ensures { Some (ask_view result.now) ≡ ask_at (state_view self.now).asks shard }
    {
        match self.asks.get(shard as usize) {
            Some(Some(ask)) => ask,
            _ => unreachable!(),
        }
    }

    /// The number of the round, from 1 on.
    pub fn round(&self) -> u32
        ensures { result ≡ (state_view self.now).round }
    {
        self.round
    }

    /// Whether the values can be given: exactly once a message was taken behind which no shard lacks a value.
    pub fn ready(&self) -> bool
        ensures { result ≡ (state_view self.now).ready }
    {
        matches!(self.standing, Standing::Ready)
    }

    /// Whether memory ran out as a message was taken. Then no more can be taken.
    pub fn spent(&self) -> bool
        ensures { result ≡ (state_view self.now).spent }
    {
        matches!(self.standing, Standing::Spent)
    }
}
