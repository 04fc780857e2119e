// That bytes spell no message.

/// The bytes spell no message.
#[derive(Clone, Copy, Debug, PartialEq, Eq)]
pub struct WireFault;
