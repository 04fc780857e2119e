// All of some bytes into a sink.
ghost use Rattle.std.specs.Prelude.{◌≤◌};
ghost use Rattle.std.specs.Io.KnownBytes.{Appends};
ghost use Rattle.fc_io.specs.Faults.{Rose};
ghost use Rattle.fc_io.specs.WriteEnd.{OnWhole, OnWriteFault, AppendsFront};

use crate::{Put, Sink};

/// How a write ended: all was written, or the sink failed first.
#[derive(Clone, Copy, Debug, PartialEq, Eq)]
pub enum WriteEnd {
    Whole,
    WriteFault,
}

/// Writes all of `bytes`, or a front of them where the sink failed.
pub fn write_all<K: Sink>(sink: &mut K, bytes: &[u8]) -> WriteEnd
    ensures whole { OnWhole result (Appends (K.written sink.old) (K.written sink.new) bytes.now) }
    ensures front { OnWriteFault result
        (AppendsFront (K.written sink.old) (K.written sink.new) bytes.now) }
    ensures rose { OnWriteFault result (Rose (K.faults sink.old) (K.faults sink.new)) }
    ensures never_falls { K.faults sink.old ≤ K.faults sink.new }
{
    let mut rest = bytes;
    while !rest.is_empty() {
        match sink.put(rest) {
            Put::Took(n) => rest = &rest[n..],
            Put::Failed => return WriteEnd::WriteFault,
        }
    }
    WriteEnd::Whole
}
