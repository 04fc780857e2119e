// What generations say of their blocks.
ghost use Rattle.std.specs.Prelude.{All, map};
ghost use Rattle.std.specs.Arc.{arc_value};
ghost use Rattle.fc_search.specs.Schemas.{HasOwnBlocks};

use fc_store::Generation;
use std::sync::Arc;

// The blocks of a generation are blocks of its schema.
fn own_blocks(generation: &Generation)
    ensures { HasOwnBlocks generation.now }
{
    let _segments = generation.segments();
}

/// So are those of each generation.
pub(crate) fn all_own_blocks(generations: &[Arc<Generation>])
    ensures { All HasOwnBlocks (map arc_value generations.now) }
{
    for number in 0..generations.len() {
        own_blocks(&generations[number]);
    }
}
