// What a coordinator answers at any time.
ghost use Rattle.std.specs.Prelude.{◌≡◌, IsTrue, Some};
ghost use Rattle.fc_refine.specs.AskView.{ask_view};
ghost use Rattle.fc_coord.specs.State.{ask_at, is_awaited};
ghost use Rattle.fc_coord.specs.CoordView.{state_view};

use crate::Coord;
use crate::standing::Standing;
use fc_refine::Ask;

impl Coord<'_> {
    /// Whether the message of a shard is awaited.
    pub fn awaits(&self, shard: u32) -> bool
        ensures { result ≡ is_awaited (state_view self.now) shard }
    {
        matches!(self.asks.get(shard as usize), Some(Some(_)))
    }

    /// What an awaited shard is asked.
    pub fn ask(&self, shard: u32) -> &Ask
        requires { IsTrue (is_awaited (state_view self.now) shard) }
        ensures { Some (ask_view result.now) ≡ ask_at (state_view self.now).asks shard }
    {
        match self.asks.get(shard as usize) {
            Some(Some(ask)) => ask,
            _ => unreachable!(),
        }
    }

    /// The number of the round, from 1 on.
    pub fn round(&self) -> u32
        ensures { result ≡ (state_view self.now).round }
    {
        self.round
    }

    /// Whether the reply can be made: exactly once a message was taken behind which nothing lacks.
    pub fn ready(&self) -> bool
        ensures { result ≡ (state_view self.now).ready }
    {
        matches!(self.standing, Standing::Ready)
    }

    /// Whether memory ran out as a message was taken. Then no more can be taken.
    pub fn spent(&self) -> bool
        ensures { result ≡ (state_view self.now).spent }
    {
        matches!(self.standing, Standing::Spent)
    }
}
