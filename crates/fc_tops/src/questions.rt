// What the shards are asked in a round for top values.
ghost use Rattle.std.specs.Prelude.{◌≡◌, IfOk, length, map};
ghost use Rattle.fc_exact.specs.CoreView.{state_view};
ghost use Rattle.fc_round.specs.QuestionView.{question_view};
ghost use Rattle.fc_tops.specs.Asked.{questions_from};

use fc_base::WantMemory;
use fc_exact::ExactCore;
use fc_round::{LentAsk, Question};
use std::alloc::Global;

/// One question for each shard that is awaited, of so many shards, in their order.
pub(crate) fn questions_of<'c>(
    alloc: Global,
    core: &'c ExactCore<'_>,
    shards: u32,
) -> Result<Vec<Question<'c>>, WantMemory>
    requires { length (state_view core.now).asks ≡ shards }
    ensures { IfOk result (λ questions. map question_view questions.items ≡ questions_from 0 (state_view core.now).asks) }
{
    let mut questions = Vec::new(alloc);
    for shard in 0..shards {
        if !core.awaits(shard) {
            continue;
        }
        let ask = LentAsk::of_exact(core.ask(shard));
        questions.push(Question { shard, ask })?;
    }
    Ok(questions)
}
