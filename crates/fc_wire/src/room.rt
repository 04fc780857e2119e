// How much memory is reserved at once.
ghost use Rattle.std.specs.Prelude.{◌≤◌, ◌<◌, ◌*◌, length};

use fc_base::Val;
use fc_partial::{Key, Message, PartialBucket, PartialNode, StatValue};

// For a list of so many, each of this size in memory: that many places, or as many as take no more
// memory than the bytes that are left.
pub(crate) fn places_for(count: u64, size: usize, bytes: &[u8]) -> usize
    requires { 0 < size }
    ensures number { result ≤ count }
    ensures memory { result * size ≤ length bytes.now }
{
    (bytes.len() / size).min(count as usize)
}

// The bytes that a message takes, or somewhat more. What is written does not rest on it.
pub(crate) fn room_of(message: &Message) -> usize {
    buckets_room(&message.buckets).saturating_add(9)
}

#[cycle(room)]
fn buckets_room(buckets: &[PartialBucket]) -> usize {
    let mut room = 0usize;
    for bucket in buckets {
        let own = key_room(&bucket.key).saturating_add(values_room(&bucket.stats.values));
        room = room.saturating_add(own).saturating_add(24);
        room = room.saturating_add(nodes_room(&bucket.nodes));
    }
    room
}

#[cycle(room)]
fn nodes_room(nodes: &[PartialNode]) -> usize {
    let mut room = 0usize;
    for node in nodes {
        room = room
            .saturating_add(8)
            .saturating_add(buckets_room(&node.buckets));
    }
    room
}

fn key_room(key: &Key) -> usize {
    match key {
        Key::Value(Val::Text(text)) => text.bytes().len().saturating_add(9),
        Key::Value(Val::Long(_)) => 9,
        Key::Gap(_) => 5,
        Key::Missing | Key::Before | Key::Between | Key::After | Key::Whole => 1,
    }
}

fn values_room(values: &[StatValue]) -> usize {
    values.len().saturating_mul(9)
}
