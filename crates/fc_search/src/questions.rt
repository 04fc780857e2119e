// What the shards are asked in a round of the coordinator.
ghost use Rattle.std.specs.Prelude.{◌≡◌, IfOk, length, map};
ghost use Rattle.fc_coord.specs.CoordView.{state_view};
ghost use Rattle.fc_round.specs.QuestionView.{question_view};
ghost use Rattle.fc_tops.specs.Asked.{questions_from};
ghost use Rattle.fc_search.specs.Asked.{exact_asks};

use fc_base::WantMemory;
use fc_coord::Coord;
use fc_round::{LentAsk, Question};
use std::alloc::Global;

/// One question for each shard that is awaited, of so many shards, in their order.
pub(crate) fn questions_of<'c>(
    alloc: Global,
    coord: &'c Coord<'_>,
    shards: u32,
) -> Result<Vec<Question<'c>>, WantMemory>
    requires { length (state_view coord.now).asks ≡ shards }
    ensures { IfOk result (λ questions. map question_view questions.items ≡ questions_from 0 (exact_asks (state_view coord.now).asks)) }
{
    let mut questions = Vec::new(alloc);
    for shard in 0..shards {
        if !coord.awaits(shard) {
            continue;
        }
        let ask = LentAsk::of(coord.ask(shard));
        questions.push(Question { shard, ask })?;
    }
    Ok(questions)
}
