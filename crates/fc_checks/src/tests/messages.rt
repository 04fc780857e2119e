// Small messages, and what asks for one bucket.
use fc_base::{Name, Val};
use fc_partial::{Key, Message, PartialBucket, PartialNode, Stats};
use fc_refine::{Ask, Want};
use std::alloc::Global;
use std::test::Fail;

// The key of a text; without a text that of all documents.
fn key_of(alloc: Global, text: &str) -> Result<Key, Fail> {
    if text.is_empty() {
        return Ok(Key::Whole);
    }
    Ok(Key::Value(Val::Text(Name::new(alloc, text)?)))
}

// A bucket, which is the only one in the list of the one before it, and so on: each with its text and its count.
pub(super) fn message_of(alloc: Global, buckets: &[(&str, u64)]) -> Result<Message, Fail> {
    let mut inner = Vec::new(alloc);
    for &(text, count) in buckets.iter().rev() {
        let mut nodes = Vec::new(alloc);
        if !inner.is_empty() {
            nodes.push(PartialNode { buckets: inner })?;
        }
        let values = Vec::new(alloc);
        let bucket = PartialBucket {
            key: key_of(alloc, text)?,
            stats: Stats { count, values },
            nodes,
        };
        inner = vec![in alloc; bucket]?;
    }
    Ok(Message { buckets: inner })
}

fn has_text(key: &Key, text: &str) -> bool {
    matches!(key, Key::Value(Val::Text(name)) if name.text() == text)
}

// Whether it is a bucket along these texts, each of the first node.
pub(super) fn is_want(want: &Want, way: &[&str]) -> bool {
    let Some((last, path)) = way.split_last() else {
        return false;
    };
    if want.path.len() != path.len() {
        return false;
    }
    for (step, text) in want.path.iter().zip(path) {
        if step.node != 0 || !has_text(&step.key, text) {
            return false;
        }
    }
    want.node == 0 && has_text(&want.key, last)
}

// Whether one such bucket is asked for; without a text whether a shard is asked first.
pub(super) fn is_ask(ask: &Ask, way: &[&str]) -> bool {
    match ask {
        Ask::First => way.is_empty(),
        Ask::More(wants) => wants.len() == 1 && is_want(&wants[0], way),
    }
}
