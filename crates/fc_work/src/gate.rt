// Who is told how workers go on.

/// Is told of each commit and each reply of the phases with searches, in the thread of its worker, so of several at once. Shards are
/// numbered from 0, sessions in the order of their first searches. By waiting it chooses among the legal numbers that searches
/// show, and nothing else of what is written.
pub trait Gate: Sync {
    /// Just before the generation of this number of a shard is published; for want of memory that may not come.
    fn before_commit(&self, shard: u32, number: u64);

    /// Just after it.
    fn after_commit(&self, shard: u32, number: u64);

    /// After a session's reply of this number, from 1 on in the whole run, is made.
    fn after_reply(&self, session: u32, number: u64);
}

/// Does nothing.
#[derive(Debug, Drop)]
pub struct NoGate;

impl Gate for NoGate {
    fn before_commit(&self, _shard: u32, _number: u64) {}

    fn after_commit(&self, _shard: u32, _number: u64) {}

    fn after_reply(&self, _session: u32, _number: u64) {}
}
