// What shards are asked.
ghost use Rattle.std.specs.Prelude.{◌≡◌};
ghost use Rattle.std.specs.Arc.{arc_value};

use fc_partial::Key;
use std::sync::Arc;

/// What a shard is asked.
#[derive(Debug, Drop)]
pub enum Ask {
    /// The root's bucket, and what the shard offers below it.
    First,
    /// Buckets by their ways, and what the shard offers below each. They are shared by whoever asks and whoever answers.
    More(Arc<Vec<Want>>),
}

/// A bucket that is asked for.
#[derive(Debug, Drop)]
pub struct Want {
    /// From the outermost bucket to the one around the wanted one; wanted buckets of the same facet share it.
    pub path: Arc<Vec<Step>>,
    /// The number of the wanted bucket's node, as in a step.
    pub node: u32,
    pub key: Key,
}

impl Want {
    /// The steps of its path.
    pub fn way(&self) -> &[Step]
        ensures { result.now ≡ (arc_value self.now.path).items }
    {
        &self.path
    }
}

/// One step further in.
#[derive(Debug, Drop)]
pub struct Step {
    /// The place among the nodes of the node around it, statistics counted too.
    pub node: u32,
    /// Which of its buckets.
    pub key: Key,
}

/// What follows a message that was taken.
#[derive(Clone, Copy, Debug, PartialEq, Eq)]
pub enum Taken {
    /// Further messages are awaited.
    More,
    /// None are.
    Ready,
}
