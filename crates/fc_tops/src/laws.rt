// The laws that the finding of top values stands on.
ghost use Rattle.fc_tops.specs.FindingLaws.{AreFindingLaws};

use fc_exact::rounds_in_order;
use fc_spec::messages_have_one_spelling;

/// Of the rounds, and of the bytes of their messages.
pub(crate) fn finding_laws()
    ensures { AreFindingLaws }
{
    rounds_in_order();
    messages_have_one_spelling();
}
