// The future of a shard in a round, and its message.
ghost use Rattle.std.specs.Prelude.{◌≡◌, ◌≤◌, IfOk, OnErr, OnOk, false, is_some, map};
ghost use Rattle.fc_spec.specs.messages.Nesting.{Spells, nesting};
ghost use Rattle.fc_kind.specs.Names.{Covers};
ghost use Rattle.fc_phase.specs.Phases.{answer_of};
ghost use Rattle.fc_round.specs.Finished.{IsFinished};
ghost use Rattle.fc_round.specs.Seats.{HasTold, IsSat, IsTurned, Waits, phase_in};

use fc_base::WantMemory;
use fc_phase::{PhaseFuture, Turn};
use fc_wire::encode;
use std::alloc::Global;

/// A shard that is asked something in a round: its future, and the bytes of its message once that is there.
#[derive(Drop)]
pub(crate) struct Seat<'a> {
    pub(crate) shard: u32,
    pub(crate) future: PhaseFuture<'a>,
    pub(crate) bytes: Option<Vec<u8>>,
}

impl Seat<'_> {
    /// Its future does a turn, and a message that is done is encoded. Whether its message is there then.
    pub(crate) fn turn(&mut self, alloc: Global) -> Result<bool, WantMemory>
        requires covers { Covers (map (λ b. name (b.vtable, b.value)) self.old.future.kinds.now) }
        requires waits { Waits self.old }
        requires fresh { (phase_in self.old).spent ≡ false }
        requires nests { nesting (answer_of (phase_in self.old)) ≤ 9 }
        ensures turned { OnOk result (IsTurned self.old self.new) }
        ensures told { IfOk result (λ told. told ≡ is_some self.new.bytes) }
        ensures kinds { OnOk result (self.new.future.kinds.now ≡ self.old.future.kinds.now) }
        ensures over { OnErr result (IsFinished self.old self.new) }
    {
        let turn = self.future.turn()?;
        match turn {
            Turn::Pending => Ok(false),
            Turn::Done(message) => {
                let bytes = encode(alloc, &message)?;
                self.bytes = Some(bytes);
                Ok(true)
            }
        }
    }

    /// Its future does turns until its message is there or memory is wanting.
    pub(crate) fn finish(&mut self, alloc: Global)
        requires covers { Covers (map (λ b. name (b.vtable, b.value)) self.old.future.kinds.now) }
        requires sat { IsSat self.old }
        ensures { IsFinished self.old self.new }
    {
        while self.bytes.is_none() {
            if self.turn(alloc).is_err() {
                return;
            }
        }
    }

    /// The bytes of its message, once it is there.
    pub(crate) fn into_bytes(self) -> Vec<u8>
        requires { HasTold self }
        ensures { Spells result.items (answer_of (phase_in self.entry)) }
    {
        let Seat {
            shard: _,
            future: _,
            bytes,
        } = self;
        match bytes {
            Some(bytes) => bytes,
            None => unreachable!(),
        }
    }
}
