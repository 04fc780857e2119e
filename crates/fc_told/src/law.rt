// Laws about trees of what was told.
ghost use Rattle.std.specs.Prelude.{[]};
ghost use Rattle.fc_told.specs.Telling.{FitsExactly, SumsOfTellers, Tells, TellsMore};
ghost use Rattle.fc_told.specs.Trees.{nothing};

/// A tree that is told message by message tells of what the messages told, and its test of sums is exact.
pub fn trees_tell()
    ensures nothing { Tells nothing [] }
    ensures more { TellsMore }
    ensures fits { FitsExactly }
    ensures tellers { SumsOfTellers }
{}
