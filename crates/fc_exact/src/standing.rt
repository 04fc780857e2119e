// How the core stands.

/// Whether it still waits for messages.
#[derive(Clone, Copy, Debug, PartialEq, Eq)]
pub(crate) enum Standing {
    /// Some shard is awaited.
    Open,
    /// The values can be given.
    Ready,
    /// Memory ran out.
    Spent,
}
