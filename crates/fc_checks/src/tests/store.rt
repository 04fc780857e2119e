// A store of one shard: its readers see what is published, and its segments are merged.
ghost use Rattle.std.specs.Prelude.{◌≡◌, All, IfOk};
ghost use Rattle.fc_store.specs.Charters.{IsBatchOf, KeepsLimits};

use super::demand;
use super::scripts::script_of;
use fc_base::WantMemory;
use fc_script::Script;
use fc_store::{Charter, Generation, ShardReader, ShardWriter, open_shard};
use std::alloc::Global;
use std::process::Abort;
use std::sync::{Arc, Wait};
use std::test::Fail;

// A charter of the batches of a script's last shard, from no commit on.
fn charter_of(alloc: Global, text: &str) -> Result<Charter, Fail>
    ensures batches { IfOk result (λ charter. All (IsBatchOf charter.start.schema) charter.later) }
    ensures limits { IfOk result (λ charter. KeepsLimits charter) }
{
    let script = script_of(alloc, text)?;
    let Script {
        schema,
        mut batches,
        ..
    } = script;
    let start = Generation::first(alloc, schema)?;
    match batches.pop() {
        Some(batches) => Ok(Charter::new(start, Arc::new(alloc, batches)?)),
        None => Err("no shard".into()),
    }
}

// Such a store with two readers.
struct Opened {
    writer: ShardWriter,
    one: ShardReader,
    other: ShardReader,
    ghost alike: { (other.schema ≡ writer.schema) × (other.charter ≡ writer.charter) },
}

fn open(rt: &(impl Abort + Wait), alloc: Global, text: &str) -> Result<Opened, Fail> {
    let charter = charter_of(alloc, text)?;
    let (writer, mut readers) = open_shard(rt, alloc, charter, 2)?;
    match (readers.pop(), readers.pop()) {
        (Some(other), Some(one)) => Ok(Opened { writer, one, other }),
        _ => {
            let _ = writer.finish(rt);
            Err(WantMemory.into())
        }
    }
}

fn number_of(pinned: Result<Arc<Generation>, WantMemory>) -> Option<u64> {
    Some(pinned.ok()?.number())
}

impl Opened {
    // The number that is published; 0 where no commit is left.
    fn commit<R: Wait>(&mut self, rt: &R) -> Option<u64> {
        if self.writer.commits_left() == 0 {
            return Some(0);
        }
        self.writer.commit_next(rt).ok()
    }

    // What the other reader pins once it has learnt what the writer tells.
    fn learnt(&mut self) -> Option<u64> {
        let told = self.writer.tell().ok()?;
        self.other.learn(told).ok()?;
        number_of(self.other.pin())
    }

    // What is published, pinned and learnt in turn, and at last a generation that was pinned first.
    fn seen<R: Wait>(&mut self, rt: &R) -> [Option<u64>; 9] {
        let held = self.one.pin();
        [
            self.commit(rt),
            number_of(self.one.pin()),
            self.commit(rt),
            number_of(self.other.pin()),
            self.commit(rt),
            self.learnt(),
            number_of(self.one.pin()),
            self.commit(rt),
            number_of(held),
        ]
    }

    // Behind each commit, of each segment how many documents it has, and how many of them are live.
    fn sizes<R: Wait>(&mut self, rt: &R, alloc: Global) -> Result<String, Fail> {
        let mut text = String::new(alloc);
        for _ in 0..10 {
            self.commit(rt).ok_or("no commit")?;
            let generation = self.one.pin()?;
            for segment in generation.segments() {
                let (count, live) = (segment.doc_count(), segment.live().count());
                text = format!(in alloc; "{text} {count}/{live}")?;
            }
            text = format!(in alloc; "{text};")?;
        }
        Ok(text)
    }
}

#[test]
fn readers_see_what_is_published(rt: HostRuntime) -> Result<(), Fail> {
    let mut store = open(&rt, rt.alloc(), COMMITS)?;
    let seen = store.seen(&rt);
    let Opened {
        writer,
        mut one,
        other: _,
    } = store;
    let last = writer.finish(&rt)?;
    for (found, wanted) in seen.iter().zip([1, 1, 2, 2, 3, 3, 3, 4, 0]) {
        assert_eq!(rt; *found, Some(wanted));
    }
    assert_eq!(rt; (last.number(), last.segments().len()), (4, 1));
    assert!(rt; one.pin().is_err());
    Ok(())
}

// Adds, at last none; a delete, and one of a child's id; an overwrite; deletes of a parent and of the rest; an id twice.
const COMMITS: &str = r#"{"schema":{"shards":1,"fields":{}}}
{"add":{"doc":{"id":"1"}}}
{"commit":{}}
{"add":{"doc":{"id":"2"}}}
{"commit":{}}
{"add":{"doc":{"id":"3"}}}
{"commit":{}}
{"add":{"doc":{"id":"4"}}}
{"add":{"doc":{"id":"5","_childDocuments_":[{"id":"6"}]}}}
{"add":{"doc":{"id":"7"}}}
{"commit":{}}
{"commit":{}}
{"delete":{"id":"2"}}
{"delete":{"id":"6"}}
{"commit":{}}
{"add":{"doc":{"id":"3"}}}
{"commit":{}}
{"delete":{"id":"5"}}
{"commit":{}}
{"delete":{"id":"1"}}
{"delete":{"id":"3"}}
{"delete":{"id":"4"}}
{"delete":{"id":"7"}}
{"commit":{}}
{"add":{"doc":{"id":"8"}}}
{"add":{"doc":{"id":"8"}}}
{"commit":{}}
"#;

const SIZES: &str = " 1/1; 2/2; 2/2 1/1; 7/7; 7/7; 7/6; 7/5 1/1; 4/4;; 2/1;";

#[test]
fn segments_are_merged(rt: HostRuntime) -> Result<(), Fail> {
    let mut store = open(&rt, rt.alloc(), COMMITS)?;
    let sizes = store.sizes(&rt, rt.alloc());
    let Opened {
        writer,
        one: _,
        other: _,
    } = store;
    let finished = writer.finish(&rt);
    let sizes = sizes?;
    finished?;
    demand(&sizes, SIZES)
}
