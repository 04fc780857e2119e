// A round whose shards are answered by workers.
ghost use Rattle.std.specs.Prelude.{◌≤◌, All, IfOk, length, map};
ghost use Rattle.std.specs.Arc.{arc_value};
ghost use Rattle.fc_kind.specs.Names.{Covers};
ghost use Rattle.fc_request.specs.RequestView.{request_view};
ghost use Rattle.fc_round.specs.Askable.{AreAskable, world_of};
ghost use Rattle.fc_round.specs.Questions.{CanBeAsked, answered};
ghost use Rattle.fc_round.specs.QuestionView.{question_view};
ghost use Rattle.fc_round.specs.Responses.{SpellAnswers};
ghost use Rattle.fc_round.specs.Slots.{AllAnswered, CanAnswer, IsAnswered};

use crate::slot::Slot;
use crate::slots::slots_of;
use crate::{Question, Response};
use fc_base::WantMemory;
use fc_kind::FacetKind;
use fc_request::Request;
use fc_store::Generation;
use std::alloc::Global;
use std::sync::Arc;
use std::thread;
use std::thread::Threads;

// Each is answered, in at most so many runs of neighbours, each run in its order and in a thread of its own
// where one can be made; one alone in the thread that calls.
fn answer_each<R: Threads + Sync>(
    rt: &R,
    alloc: Global,
    slots: &mut [Slot<'_>],
    request: &Request,
    kinds: &[Box<dyn FacetKind>],
    workers: u32,
)
    requires workers { 1 ≤ workers }
    requires covers { Covers (map name kinds.now) }
    requires can { All (CanAnswer request.now) slots.old }
    ensures { AllAnswered (request_view request.now) slots.old slots.new }
{
    thread::for_each_mut(
        rt,
        slots,
        workers as usize,
        &|_, slot: &mut Slot<'_>|
            requires { Covers (map name kinds.now) × CanAnswer request.now slot.old }
            ensures { IsAnswered (request_view request.entry.now) slot.old slot.new }
        { slot.finish(alloc, request, kinds) },
    );
}

/// What each shard that is asked something sends, in the order of the questions, by at most so many workers.
pub(crate) fn responses_by_workers<R: Threads + Sync>(
    rt: &R,
    alloc: Global,
    generations: &[Arc<Generation>],
    request: &Request,
    kinds: &[Box<dyn FacetKind>],
    workers: u32,
    questions: &[Question<'_>],
) -> Result<Vec<Response>, WantMemory>
    requires workers { 1 ≤ workers }
    requires covers { Covers (map name kinds.now) }
    requires askable { AreAskable request.now (map arc_value generations.now) }
    requires questions { All (λ question. CanBeAsked (request_view request.now) (length generations.now) (question_view question)) questions.now }
    ensures { IfOk result (λ responses. SpellAnswers responses.items
        (map (answered (request_view request.now) (world_of (map arc_value generations.now))) (map question_view questions.now))) }
{
    let mut slots = slots_of(alloc, generations, request, questions)?;
    answer_each(rt, alloc, &mut slots, request, kinds, workers);
    let mut responses = Vec::with_capacity(alloc, slots.len())?;
    for slot in slots {
        let response = slot.into_response()?;
        responses.push(response)?;
    }
    Ok(responses)
}
