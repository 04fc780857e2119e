// What a shard sends in a round.

/// The message of a shard, as bytes.
#[derive(Debug, Drop)]
pub struct Response {
    pub shard: u32,
    pub bytes: Vec<u8>,
}
