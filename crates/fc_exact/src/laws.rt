// What the core of exact facets was told, in the end, gives what they print.
ghost use Rattle.fc_exact.specs.Hearing.{EndsWithTops, GoesOnHearing, StartsHearing};
ghost use Rattle.fc_exact.specs.Rounds.{AreAskable, HasFewerLeft, IsToldAtStart, IsToldFurther, TellsTops};

/// Whatever the order in which the answers of shards are taken, each to what it was asked.
pub fn hearing_gives_tops()
    ensures start { StartsHearing }
    ensures taken { GoesOnHearing }
    ensures tops { EndsWithTops }
{}

/// Where the answers of each round are taken in the order of the shards, they are the messages of the defined rounds, one
/// after another; and with each round fewer are left.
pub fn rounds_in_order()
    ensures start { IsToldAtStart }
    ensures taken { IsToldFurther }
    ensures fewer { HasFewerLeft }
    ensures tops { TellsTops }
    ensures askable { AreAskable }
{}
