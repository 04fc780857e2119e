// The laws that the answers of a round stand on.
ghost use Rattle.fc_round.specs.RoundLaws.{AreRoundLaws};

use fc_spec::{shards_answer_alone, valid_answers_nest_little};

/// Of what shards answer to what they are asked.
pub(crate) fn round_laws()
    ensures { AreRoundLaws }
{
    shards_answer_alone();
    valid_answers_nest_little();
}
