// Laws of what shards answer.
ghost use Rattle.fc_answers.specs.LeastListed.{LeastTalliesList};
ghost use Rattle.fc_answers.specs.LeastSets.{ExactFromSets};
ghost use Rattle.fc_answers.specs.Listed.{TalliesList};
ghost use Rattle.fc_answers.specs.SetAnswer.{AnswersFromSets};

/// A shard's answer is made from a set of positions for each of the segments that its blocks are cut into.
pub fn answers_from_sets()
    ensures { AnswersFromSets }
{}

/// What is listed of the tally of a facet is what the answer lists.
pub fn tallies_list()
    ensures { TalliesList }
{}

/// So is a shard's answer where it is asked for exact facets.
pub fn exact_answers_from_sets()
    ensures { ExactFromSets }
{}

/// What is listed of the tally of a facet from a count on is what the answer lists from that count on.
pub fn least_tallies_list()
    ensures { LeastTalliesList }
{}
