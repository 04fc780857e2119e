// Opening a store.
ghost use Rattle.std.specs.Prelude.{◌≡◌, ◌≤◌, All, IfOk, length};
ghost use Rattle.fc_store.specs.Charters.{IsBatchOf, KeepsLimits};

use crate::{Charter, ShardReader, ShardWriter};
use fc_base::WantMemory;
use std::alloc::Global;
use std::sync::Wait;

/// A store that has published the start of its charter, for the generations behind it: its writer, and from 1
/// to 16 readers.
pub fn open_shard<R: Wait>(
    rt: &R,
    alloc: Global,
    charter: Charter,
    readers: u32,
) -> Result<(ShardWriter, Vec<ShardReader>), WantMemory>
    requires readers { (1 ≤ readers) × (readers ≤ 16) }
    requires batches { All (IsBatchOf charter.start.schema) charter.later }
    requires limits { KeepsLimits charter }
    ensures writer { IfOk result (λ store. store.0 ≡ record {
      schema = charter.start.schema;
      charter = charter;
      number = charter.start.number;
    }) }
    ensures count { IfOk result (λ store. length store.1.items ≡ readers) }
    ensures readers { IfOk result (λ store. All (λ reader. reader ≡ record {
      schema = charter.start.schema;
      charter = charter;
      least = charter.start.number;
    }) store.1.items) }
{
    // a place for each reader, and one for a note to each
    let places = 2 * readers as usize;
    let mut writer = ShardWriter::open(rt, alloc, charter, places)?;
    match make_readers(&mut writer, alloc, readers) {
        Ok(made) => Ok((writer, made)),
        Err(want) => {
            let _ = writer.finish(rt);
            Err(want)
        }
    }
}

// So many readers of what the writer publishes.
fn make_readers(
    writer: &mut ShardWriter,
    alloc: Global,
    readers: u32,
) -> Result<Vec<ShardReader>, WantMemory>
    ensures same { writer.new ≡ writer.old }
    ensures count { IfOk result (λ made. length made.items ≡ readers) }
    ensures know { IfOk result (λ made. All (λ reader. reader ≡ record {
      schema = writer.old.schema;
      charter = writer.old.charter;
      least = writer.old.number;
    }) made.items) }
{
    let mut made: Vec<ShardReader> = Vec::new(alloc);
    for _ in 0..readers {
        let reader = writer.reader()?;
        made.push(reader)?;
    }
    Ok(made)
}
