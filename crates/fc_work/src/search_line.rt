// The line of a search.
use fc_search::Sent;

/// The line of a search, and the messages that were sent for it, ascending by round, then shard; none where its request has a
/// fault.
#[derive(Drop)]
pub(crate) struct SearchLine {
    pub(crate) text: Vec<u8>,
    pub(crate) sent: Option<Vec<Sent>>,
}
