// What a worker answers of a shard in a round.
ghost use Rattle.std.specs.Prelude.{◌≡◌, ◌∷◌, [], IfOk, Some, map};
ghost use Rattle.std.specs.Arc.{arc_value};
ghost use Rattle.fc_spec.specs.messages.Nesting.{Spells};
ghost use Rattle.fc_spec.specs.messages.TopRounds.{exact_answer};
ghost use Rattle.fc_kind.specs.Names.{Covers};
ghost use Rattle.fc_request.specs.RequestView.{request_view};
ghost use Rattle.fc_round.specs.Askable.{IsAskable};
ghost use Rattle.fc_round.specs.Questions.{CanAsk};
ghost use Rattle.fc_round.specs.QuestionView.{lent_view};
ghost use Rattle.fc_round.specs.Slots.{CanAnswer, IsAnswered};

use crate::laws::round_laws;
use crate::seat::Seat;
use crate::seats::future_of;
use crate::{LentAsk, Response};
use fc_base::WantMemory;
use fc_kind::FacetKind;
use fc_request::Request;
use fc_store::Generation;
use std::alloc::Global;
use std::sync::Arc;

/// A shard that is asked something in a round, and the bytes of its message once that is there. It may go to another thread, where
/// the future is made.
#[derive(Drop)]
pub(crate) struct Slot<'a> {
    pub(crate) shard: u32,
    pub(crate) generation: &'a Arc<Generation>,
    pub(crate) ask: LentAsk<'a>,
    pub(crate) bytes: Option<Vec<u8>>,
}

// The bytes of the answer of a shard to what it is asked, unless memory is wanting.
fn bytes_of(
    alloc: Global,
    generation: &Arc<Generation>,
    request: &Request,
    kinds: &[Box<dyn FacetKind>],
    ask: LentAsk<'_>,
) -> Result<Vec<u8>, WantMemory>
    requires covers { Covers (map name kinds.now) }
    requires askable { IsAskable request.now (arc_value generation.now) }
    requires can { CanAsk (request_view request.now) (lent_view ask) }
    ensures { IfOk result (λ bytes. Spells bytes.items
        (exact_answer (request_view request.now) ((arc_value generation.now).blocks ∷ []) 0 (lent_view ask.entry))) }
{
    round_laws();
    let mut seat = Seat {
        shard: 0,
        future: future_of(alloc, generation, request, kinds, ask)?,
        bytes: None,
    };
    seat.finish(alloc);
    if seat.bytes.is_none() {
        return Err(WantMemory);
    }
    Ok(seat.into_bytes())
}

impl Slot<'_> {
    /// Answers, unless memory is wanting.
    pub(crate) fn finish(&mut self, alloc: Global, request: &Request, kinds: &[Box<dyn FacetKind>])
        requires covers { Covers (map name kinds.now) }
        requires can { CanAnswer request.now self.old }
        ensures { IsAnswered (request_view request.now) self.old self.new }
    {
        let answer = bytes_of(alloc, self.generation, request, kinds, self.ask);
        match answer {
            Ok(bytes) => self.bytes = Some(bytes),
            Err(WantMemory) => self.bytes = None,
        }
    }

    /// What it sends, unless memory was wanting.
    pub(crate) fn into_response(self) -> Result<Response, WantMemory>
        ensures shard { IfOk result (λ response. response.shard ≡ self.entry.shard) }
        ensures bytes { IfOk result (λ response. self.entry.bytes ≡ Some response.bytes) }
    {
        let Slot {
            shard,
            generation: _,
            ask: _,
            bytes,
        } = self;
        match bytes {
            Some(bytes) => Ok(Response { shard, bytes }),
            None => Err(WantMemory),
        }
    }
}
