// What a turn comes to.
use fc_partial::Message;

/// What a turn of a shard's future comes to.
#[derive(Debug, Drop)]
pub enum Turn {
    /// The shard's answer.
    Done(Message),
    /// There is more to do.
    Pending,
}
