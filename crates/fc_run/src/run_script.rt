// The run of a script's bytes.
ghost use Rattle.std.specs.Prelude.{◌≡◌, ◌≤◌, Err, Option, map};
ghost use Rattle.fc_spec.specs.scripts.AskedScripts.{asked_script};
ghost use Rattle.fc_spec.specs.scripts.Booked.{Books};
ghost use Rattle.fc_io.specs.Faults.{Rose};
ghost use Rattle.fc_kind.specs.Names.{Covers};
ghost use Rattle.fc_run.specs.Ending.{IsEnded, IsLeft, IsRefused};
ghost use Rattle.fc_run.specs.Outcome.{too_many, OnUnasked, OnWrite, Wrote};

use crate::laws::run_laws;
use crate::lines::write_fault;
use crate::phases::write_script;
use crate::stop::status_of;
use crate::{Book, Status};
use fc_base::Refusal;
use fc_io::Sink;
use fc_kind::FacetKind;
use fc_script::{LineFault, Script, ScriptFault};
use fc_work::Gate;
use std::alloc::Global;
use std::sync::Wait;
use std::thread::Threads;

/// Writes the line of a script of more bytes than it may have.
pub(crate) fn refuse_long<K: Sink>(alloc: Global, sink: &mut K) -> Status
    ensures left { (before after : Option Books) → Wrote (K.written sink.old) (K.written sink.new) (IsLeft result before after (Err too_many)) }
    ensures ended { IsEnded result }
    ensures write { OnWrite result (Rose (K.faults sink.old) (K.faults sink.new)) }
    ensures never_falls { K.faults sink.old ≤ K.faults sink.new }
{
    let fault = ScriptFault {
        line: 0,
        fault: LineFault::TooLong,
    };
    status_of(write_fault(alloc, sink, &fault), Status::Script)
}

// Writes the line of the fault of a script, if that is why it was not read.
fn refuse<K: Sink>(alloc: Global, sink: &mut K, refusal: Refusal<ScriptFault>) -> Status
    ensures left { IsRefused refusal result (K.written sink.old) (K.written sink.new) }
    ensures ended { IsEnded result }
    ensures write { OnWrite result (Rose (K.faults sink.old) (K.faults sink.new)) }
    ensures never_falls { K.faults sink.old ≤ K.faults sink.new }
{
    match refusal {
        Refusal::Memory => Status::Memory,
        Refusal::Fault(fault) => {
            let written = write_fault(alloc, sink, &fault);
            status_of(written, Status::Script)
        }
    }
}

/// Writes the lines of the searches of the script that the bytes spell, phase after phase, or the line of its fault. The bytes are let
/// go before its searches run.
pub(crate) fn run_script<R: Threads + Wait + Sync, K: Sink, G: Gate, B: Book>(
    rt: &R,
    alloc: Global,
    bytes: Vec<u8>,
    sink: &mut K,
    kinds: &[Box<dyn FacetKind>],
    workers: u32,
    gate: &G,
    book: &mut B,
) -> Status
    requires covers { Covers (map name kinds.now) }
    requires workers { (1 ≤ workers) × (workers ≤ 64) }
    ensures left { Wrote (K.written sink.old) (K.written sink.new) (IsLeft result (B.books book.old) (B.books book.new) (asked_script bytes.items)) }
    ensures ended { IsEnded result }
    ensures unbooked { OnUnasked result (B.books book.new ≡ B.books book.old) }
    ensures write { OnWrite result (Rose (K.faults sink.old) (K.faults sink.new)) }
    ensures never_falls { K.faults sink.old ≤ K.faults sink.new }
{
    run_laws();
    let read = Script::read_by(rt, alloc, workers, &bytes);
    drop(bytes);
    match read {
        Ok(script) => {
            let written = write_script(rt, alloc, script, sink, kinds, workers, gate, book);
            status_of(written, Status::Done)
        }
        Err(refusal) => refuse(alloc, sink, refusal),
    }
}
