// The laws that the promises of a search stand on.
ghost use Rattle.fc_search.specs.SearchLaws.{AreMergingLaws, AreReplacingLaws, AreReplyLaws, AreTellingLaws};

use fc_reading::valid_requests_are_countable;
use fc_spec::{
    answers_are_shaped, answers_fit, answers_merge, exact_facets_are_replaced, folds_into_numbers,
    messages_have_one_spelling, rounds_tell_tops, tops_are_exact, valid_requests_have_few_rounds,
    valid_requests_sort_exact_by_count,
};
use fc_told::trees_tell;

/// Of answers that are told.
pub(crate) fn telling_laws()
    ensures { AreTellingLaws }
{
    answers_are_shaped();
    answers_fit();
    trees_tell();
    messages_have_one_spelling();
    valid_requests_have_few_rounds();
}

/// Of requests of which a search can be made, and of what answers merge into.
pub(crate) fn merging_laws()
    ensures { AreMergingLaws }
{
    valid_requests_are_countable();
    valid_requests_have_few_rounds();
    answers_merge();
}

/// Of requests with exact facets, and of those with query facets in their place.
pub(crate) fn replacing_laws()
    ensures { AreReplacingLaws }
{
    valid_requests_sort_exact_by_count();
    rounds_tell_tops();
    exact_facets_are_replaced();
}

/// Of replies with top buckets, and of folded ones.
pub(crate) fn reply_laws()
    ensures { AreReplyLaws }
{
    tops_are_exact();
    folds_into_numbers();
}
