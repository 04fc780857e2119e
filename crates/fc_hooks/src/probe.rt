// Who is told of the messages of a search.
ghost use Rattle.std.specs.Prelude.{◌≡◌, ◌<◌, ◌≤◌, None, Option, option_map};
ghost use Rattle.fc_spec.specs.messages.Lengths.{Lengths, put};

/// Is told of each message of a search.
pub trait Probe {
    // What it was told by round and shard, where it tells that.
    ghost lengths: { Self → Option Lengths };

    /// In this round, which has a number from 1 to 16, the shard sent a message of so many bytes. What was told of the same round
    /// and shard before is told no longer.
    fn message(&mut self, round: u32, shard: u32, length: u64)
        requires first { 1 ≤ round }
        requires few { round ≤ 16 }
        requires shards { shard < 64 }
        ensures { lengths self.new ≡ option_map (put (record { round = round; shard = shard; length = length })) (lengths self.old) };
}

/// Is told, and tells nothing.
#[derive(Clone, Copy, Debug, PartialEq, Eq)]
pub struct NoProbe;

impl Probe for NoProbe {
    ghost lengths = { λ _. None };

    fn message(&mut self, _round: u32, _shard: u32, _length: u64) {}
}
