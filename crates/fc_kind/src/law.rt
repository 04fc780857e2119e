// A law of what kinds collect.
ghost use Rattle.fc_kind.specs.Tallies.{CollectingJoins};

/// What is collected segment by segment is what is collected over all places.
pub fn collecting_joins()
    ensures { CollectingJoins }
{}
