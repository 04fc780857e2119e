// What shards send in a round.
ghost use Rattle.std.specs.Prelude.{◌≤◌, All, IfOk, length, map};
ghost use Rattle.std.specs.Arc.{arc_value};
ghost use Rattle.fc_request.specs.RequestView.{request_view};
ghost use Rattle.fc_kind.specs.Names.{Covers};
ghost use Rattle.fc_round.specs.Askable.{AreAskable, world_of};
ghost use Rattle.fc_round.specs.Questions.{CanBeAsked, answered};
ghost use Rattle.fc_round.specs.QuestionView.{question_view};
ghost use Rattle.fc_round.specs.Responses.{SpellAnswers};

use crate::driving::responses_by_turns;
use crate::workers::responses_by_workers;
use crate::{Question, Response};
use fc_base::WantMemory;
use fc_hooks::Turns;
use fc_kind::FacetKind;
use fc_request::Request;
use fc_store::Generation;
use std::alloc::Global;
use std::sync::Arc;
use std::thread::Threads;

/// What each shard that is asked something sends, in the order of the questions, over the generations in the order of the shards.
/// With one worker `turns` says before each turn of a future whose it is; with more it is never asked, and the questions are cut
/// into at most so many runs of neighbours, each answered in a thread of its own where one can be made.
pub fn responses_of<R: Threads + Sync, T: Turns>(
    rt: &R,
    alloc: Global,
    generations: &[Arc<Generation>],
    request: &Request,
    kinds: &[Box<dyn FacetKind>],
    turns: &mut T,
    workers: u32,
    questions: &[Question<'_>],
) -> Result<Vec<Response>, WantMemory>
    requires workers { 1 ≤ workers }
    requires covers { Covers (map name kinds.now) }
    requires askable { AreAskable request.now (map arc_value generations.now) }
    requires questions { All (λ question. CanBeAsked (request_view request.now) (length generations.now) (question_view question)) questions.now }
    ensures { IfOk result (λ responses. SpellAnswers responses.items
        (map (answered (request_view request.now) (world_of (map arc_value generations.now))) (map question_view questions.now))) }
{
    if workers == 1 {
        responses_by_turns(alloc, generations, request, kinds, turns, questions)
    } else {
        responses_by_workers(rt, alloc, generations, request, kinds, workers, questions)
    }
}
