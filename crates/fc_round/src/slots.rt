// What workers answer in a round.
ghost use Rattle.std.specs.Prelude.{◌≡◌, All, IfOk, length, map};
ghost use Rattle.std.specs.Arc.{arc_value};
ghost use Rattle.fc_request.specs.RequestView.{request_view};
ghost use Rattle.fc_round.specs.Askable.{AreAskable, world_of};
ghost use Rattle.fc_round.specs.Questions.{CanBeAsked, answered};
ghost use Rattle.fc_round.specs.QuestionView.{question_view};
ghost use Rattle.fc_round.specs.Slots.{CanAnswer, slot_answer};

use crate::Question;
use crate::laws::round_laws;
use crate::slot::Slot;
use fc_base::WantMemory;
use fc_request::Request;
use fc_store::Generation;
use std::alloc::Global;
use std::sync::Arc;

/// One for each question, in their order.
pub(crate) fn slots_of<'a>(
    alloc: Global,
    generations: &'a [Arc<Generation>],
    request: &Request,
    questions: &[Question<'a>],
) -> Result<Vec<Slot<'a>>, WantMemory>
    requires askable { AreAskable request.now (map arc_value generations.now) }
    requires questions { All (λ question. CanBeAsked (request_view request.now) (length generations.now) (question_view question)) questions.now }
    ensures can { IfOk result (λ slots. All (CanAnswer request.now) slots.items) }
    ensures answers { IfOk result (λ slots. map (slot_answer (request_view request.now)) slots.items
        ≡ map (answered (request_view request.now) (world_of (map arc_value generations.now))) (map question_view questions.now)) }
{
    round_laws();
    let mut slots = Vec::with_capacity(alloc, questions.len())?;
    for question in questions {
        let shard = question.shard;
        slots.push(Slot {
            shard,
            generation: &generations[shard as usize],
            ask: question.ask,
            bytes: None,
        })?;
    }
    Ok(slots)
}
