// The message that bytes of a shard spell.
ghost use Rattle.std.specs.Prelude.{IfOk};
ghost use Rattle.fc_spec.specs.messages.Nesting.{Spells};
ghost use Rattle.fc_partial.specs.BucketView.{message_view};
ghost use Rattle.fc_round.specs.Spelled.{SpellSome};

use fc_base::{Refusal, WantMemory};
use fc_partial::Message;
use fc_wire::decode;
use std::alloc::Global;

/// The message that these bytes spell: they have to be those of a message.
pub fn message_of(alloc: Global, bytes: &[u8]) -> Result<Message, WantMemory>
    requires { SpellSome bytes.now }
    ensures { IfOk result (λ message. Spells bytes.now (message_view message)) }
{
    match decode(alloc, bytes) {
        Ok(message) => Ok(message),
        Err(Refusal::Memory) => Err(WantMemory),
        Err(Refusal::Fault(_)) => unreachable!(),
    }
}
