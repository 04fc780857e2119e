// How a coordinator stands.

/// Whether it still waits for messages.
#[derive(Clone, Copy, Debug, PartialEq, Eq)]
pub(crate) enum Standing {
    /// Some shard is awaited.
    Open,
    /// The reply can be made.
    Ready,
    /// Memory ran out.
    Spent,
}
