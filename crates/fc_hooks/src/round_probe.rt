// A probe that tells what it was told.
ghost use Rattle.std.specs.Prelude.{◌≡◌, ◌+◌, ◌++◌, ◌-◌, ◌*◌, ◌<◌, ◌≤◌, IfOk, OnOk, Some, count_by, is_some, map};
ghost use Rattle.fc_spec.specs.words.Lists.{numbers_below};
ghost use Rattle.fc_spec.specs.messages.Lengths.{entries_up_to, no_lengths};

use crate::Probe;
use fc_base::WantMemory;
use std::alloc::Global;

/// How many bytes the message of a shard had in a round.
#[derive(Clone, Copy, Debug, PartialEq, Eq)]
pub struct Sent {
    pub round: u32,
    pub shard: u32,
    pub length: u64,
}

/// A table of the lengths of messages, for the rounds from 1 to 16 and 64 shards. It takes no memory but its own.
#[derive(Drop)]
pub struct RoundProbe {
    // Round by round from 1 on, 64 shards each.
    table: [Option<u64>; 1024],
}

// The place of a round and a shard in the table.
fn place_of(round: u32, shard: u32) -> usize
    requires first { 1 ≤ round }
    requires few { round ≤ 16 }
    requires shards { shard < 64 }
    ensures place { result ≡ 64 * (round - 1) + shard }
    ensures there { result < 1024 }
{
    64 * (round as usize - 1) + shard as usize
}

impl RoundProbe {
    ghost use Rattle.fc_hooks.specs.ProbeTable.{lengths_in};
    ghost use Rattle.fc_hooks.specs.SentLists.{round_entries, sent_view};

    /// It was told of no message.
    pub fn new() -> RoundProbe
        ensures { lengths_in result ≡ no_lengths }
    {
        RoundProbe {
            table: [None; 1024],
        }
    }

    /// The number of the shards of whose messages it was told in this round.
    pub fn messages(&self, round: u32) -> u64
        requires first { 1 ≤ round }
        requires few { round ≤ 16 }
        ensures { result ≡ count_by is_some (map (lengths_in self.now round) (numbers_below 64)) }
    {
        let mut count = 0;
        for shard in 0..64 {
            if self.length(round, shard).is_some() {
                count += 1;
            }
        }
        count
    }

    /// How many bytes the shard's message of this round had; none where it was told of none.
    pub fn length(&self, round: u32, shard: u32) -> Option<u64>
        requires first { 1 ≤ round }
        requires few { round ≤ 16 }
        requires shards { shard < 64 }
        ensures { result ≡ lengths_in self.now round shard }
    {
        self.table[place_of(round, shard)]
    }

    // Those of one round too, ascending by shard.
    fn push_round(&self, round: u32, sent: &mut Vec<Sent>) -> Result<(), WantMemory>
        requires first { 1 ≤ round }
        requires few { round ≤ 16 }
        ensures { OnOk result (map sent_view sent.new.items ≡ map sent_view sent.old.items ++ round_entries 64 (lengths_in self.now) round) }
    {
        for shard in 0..64 {
            match self.length(round, shard) {
                Some(length) => sent.push(Sent {
                    round,
                    shard,
                    length,
                })?,
                None => {}
            }
        }
        Ok(())
    }

    /// All the messages that it was told of, ascending by round, then shard.
    pub fn sent(&self, alloc: Global) -> Result<Vec<Sent>, WantMemory>
        ensures { IfOk result (λ sent. map sent_view sent.items ≡ entries_up_to 16 64 (lengths_in self.now)) }
    {
        let mut sent = Vec::new(alloc);
        for round in 1..17 {
            self.push_round(round, &mut sent)?;
        }
        Ok(sent)
    }
}

impl Probe for RoundProbe {
    ghost use Rattle.fc_hooks.specs.ProbeTable.{lengths_in};

    ghost lengths = { λ probe. Some (lengths_in probe) };

    fn message(&mut self, round: u32, shard: u32, length: u64) {
        self.table[place_of(round, shard)] = Some(length);
    }
}
