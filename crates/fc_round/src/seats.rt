// The seats of a round.
ghost use Rattle.std.specs.Prelude.{◌≡◌, All, IfOk, length, map};
ghost use Rattle.std.specs.Arc.{arc_value};
ghost use Rattle.fc_request.specs.RequestView.{request_view};
ghost use Rattle.fc_kind.specs.Names.{Covers};
ghost use Rattle.fc_phase.specs.Futures.{phase_of};
ghost use Rattle.fc_round.specs.Askable.{AreAskable, IsAskable, world_of};
ghost use Rattle.fc_round.specs.Begun.{IsBegunFor};
ghost use Rattle.fc_round.specs.Questions.{CanAsk, CanBeAsked, answered};
ghost use Rattle.fc_round.specs.QuestionView.{lent_view, question_view};
ghost use Rattle.fc_round.specs.Seats.{IsSat, seat_answer};

use crate::laws::round_laws;
use crate::seat::Seat;
use crate::{LentAsk, Question};
use fc_base::WantMemory;
use fc_kind::FacetKind;
use fc_phase::PhaseFuture;
use fc_refine::Ask;
use fc_request::Request;
use fc_store::Generation;
use std::alloc::Global;
use std::sync::Arc;

/// The future of a shard for what it is asked.
pub(crate) fn future_of<'a>(
    alloc: Global,
    generation: &Arc<Generation>,
    request: &'a Request,
    kinds: &'a [Box<dyn FacetKind>],
    ask: LentAsk<'_>,
) -> Result<PhaseFuture<'a>, WantMemory>
    requires covers { Covers (map name kinds.now) }
    requires askable { IsAskable request.now (arc_value generation.now) }
    requires can { CanAsk (request_view request.now) (lent_view ask) }
    ensures begun { IfOk result (λ future.
        IsBegunFor request.now (arc_value generation.now).blocks (lent_view ask.entry) (phase_of future)) }
    ensures kinds { IfOk result (λ future. future.kinds.now ≡ kinds.now) }
{
    let shared = Arc::try_clone(generation)?;
    match ask {
        LentAsk::First => PhaseFuture::first(alloc, shared, request, kinds),
        LentAsk::Least(counts) => PhaseFuture::least(alloc, shared, request, kinds, counts),
        LentAsk::More(wants) => {
            let more = Ask::More(Arc::try_clone(wants)?);
            PhaseFuture::more(alloc, shared, request, kinds, &more)
        }
    }
}

/// A seat for each question, in their order.
pub(crate) fn seats_of<'a>(
    alloc: Global,
    generations: &[Arc<Generation>],
    request: &'a Request,
    kinds: &'a [Box<dyn FacetKind>],
    questions: &[Question<'_>],
) -> Result<Vec<Seat<'a>>, WantMemory>
    requires covers { Covers (map name kinds.now) }
    requires askable { AreAskable request.now (map arc_value generations.now) }
    requires questions { All (λ question. CanBeAsked (request_view request.now) (length generations.now) (question_view question)) questions.now }
    ensures kinds { IfOk result (λ seats. All (λ seat. seat.future.kinds.now ≡ kinds.now) seats.items) }
    ensures sat { IfOk result (λ seats. All IsSat seats.items) }
    ensures answers { IfOk result (λ seats. map seat_answer seats.items
        ≡ map (answered (request_view request.now) (world_of (map arc_value generations.now))) (map question_view questions.now)) }
{
    round_laws();
    let mut seats = Vec::with_capacity(alloc, questions.len())?;
    for question in questions {
        let shard = question.shard;
        let generation = &generations[shard as usize];
        let future = future_of(alloc, generation, request, kinds, question.ask)?;
        seats.push(Seat {
            shard,
            future,
            bytes: None,
        })?;
    }
    Ok(seats)
}
