// All the bytes of a source.
ghost use Rattle.std.specs.Prelude.{◌≡◌, ◌<◌, ◌≤◌, IfSome, OnErr, vec_len};
ghost use Rattle.std.specs.Io.KnownBytes.{Consumes, IsAtEnd};
ghost use Rattle.fc_io.specs.Faults.{Rose};
ghost use Rattle.fc_io.specs.AllRead.{IfBytes, OnBytes, OnTooLong, OnReadFault, TakesSome};

use crate::{Got, Source};
use fc_base::WantMemory;
use std::alloc::Global;

/// All the bytes that a source had, or why they were not read: there were more than the limit, or the
/// source failed.
#[derive(Debug, Drop)]
pub enum AllRead {
    Bytes(Vec<u8>),
    TooLong,
    ReadFault,
}

const PIECE: usize = 8192;

/// Reads up to the end: all the bytes that the source had left; or says that it failed, or that more than
/// `limit` bytes were taken. The memory that it takes grows with the bytes that come.
pub fn read_all<S: Source>(
    alloc: Global,
    source: &mut S,
    limit: usize,
) -> Result<AllRead, WantMemory>
    ensures whole { IfBytes result (λ all. IfSome (S.left source.old) (λ left. all.items ≡ left)) }
    ensures taken { IfBytes result (λ all.
        Consumes (S.left source.old) (S.left source.new) all.items) }
    ensures end { OnBytes result (IsAtEnd (S.left source.new)) }
    ensures within { IfBytes result (λ all. vec_len all ≤ limit) }

    ensures too_long { OnTooLong result
        (TakesSome (S.left source.old) (S.left source.new) (λ n. limit < n)) }

    ensures rose { OnReadFault result (Rose (S.faults source.old) (S.faults source.new)) }
    ensures fault_within { OnReadFault result
        (TakesSome (S.left source.old) (S.left source.new) (λ n. n ≤ limit)) }

    ensures memory_within { OnErr result
        (TakesSome (S.left source.old) (S.left source.new) (λ n. n ≤ limit)) }

    ensures never_falls { S.faults source.old ≤ S.faults source.new }
{
    let mut all = Vec::new(alloc);
    let mut piece = [0; PIECE];
    loop {
        match source.read(&mut piece) {
            Got::Bytes(n) if n > limit - all.len() => return Ok(AllRead::TooLong),
            Got::Bytes(n) => all.extend_from_slice(&piece[..n])?,
            Got::End => return Ok(AllRead::Bytes(all)),
            Got::Failed => return Ok(AllRead::ReadFault),
        }
    }
}
