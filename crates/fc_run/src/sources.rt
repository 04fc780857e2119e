// Where the bytes of a script come from.
ghost use Rattle.std.specs.Prelude.{◌≡◌, ◌≤◌, IfSome, IsTrue, Some, false, is_some, map};
ghost use Rattle.std.specs.Io.KnownBytes.{IsAtEnd};
ghost use Rattle.fc_demo.specs.Demo.{demo_script};
ghost use Rattle.fc_io.specs.Faults.{Rose};
ghost use Rattle.fc_kind.specs.Names.{Covers};
ghost use Rattle.fc_run.specs.Ending.{IsEnded, IsLeftOf, IsRun};
ghost use Rattle.fc_run.specs.Outcome.{IfDone, OnRead, OnUnasked, OnWrite};
ghost use Rattle.fc_run.specs.Words.{demo_or};

use crate::run_script::{refuse_long, run_script};
use crate::{Book, Status};
use fc_base::WantMemory;
use fc_demo::demo;
use fc_io::{AllRead, Sink, Source, read_all};
use fc_kind::FacetKind;
use fc_script::SCRIPT_BYTES;
use fc_words::Options;
use fc_work::Gate;
use std::alloc::Global;
use std::sync::Wait;
use std::thread::Threads;

/// Runs the script that the source has left.
pub(crate) fn run_source<R: Threads + Wait + Sync, S: Source, K: Sink, G: Gate, B: Book>(
    rt: &R,
    alloc: Global,
    source: &mut S,
    sink: &mut K,
    kinds: &[Box<dyn FacetKind>],
    workers: u32,
    gate: &G,
    book: &mut B,
) -> Status
    requires covers { Covers (map name kinds.now) }
    requires workers { (1 ≤ workers) × (workers ≤ 64) }
    ensures left { IsLeftOf result (S.left source.old) (K.written sink.old) (K.written sink.new) (B.books book.old) (B.books book.new) }
    ensures run { IsRun result }
    ensures read { OnRead result (Rose (S.faults source.old) (S.faults source.new)) }
    ensures read_unwritten { OnRead result (K.written sink.new ≡ K.written sink.old) }
    ensures end { IfDone result (IsAtEnd (S.left source.new)) }
    ensures unbooked { OnUnasked result (B.books book.new ≡ B.books book.old) }
    ensures write { OnWrite result (Rose (K.faults sink.old) (K.faults sink.new)) }
    ensures source_never_falls { S.faults source.old ≤ S.faults source.new }
    ensures sink_never_falls { K.faults sink.old ≤ K.faults sink.new }
{
    match read_all(alloc, source, SCRIPT_BYTES) {
        Ok(AllRead::Bytes(bytes)) => run_script(rt, alloc, bytes, sink, kinds, workers, gate, book),
        Ok(AllRead::TooLong) => refuse_long(alloc, sink),
        Ok(AllRead::ReadFault) => Status::Read,
        Err(WantMemory) => Status::Memory,
    }
}

/// Runs the demo with so many documents.
pub(crate) fn run_demo<R: Threads + Wait + Sync, K: Sink, G: Gate, B: Book>(
    rt: &R,
    alloc: Global,
    documents: u32,
    sink: &mut K,
    kinds: &[Box<dyn FacetKind>],
    workers: u32,
    gate: &G,
    book: &mut B,
) -> Status
    requires covers { Covers (map name kinds.now) }
    requires workers { (1 ≤ workers) × (workers ≤ 64) }
    requires documents { documents ≤ 200_000 }
    ensures left { IsLeftOf result (Some (demo_script documents)) (K.written sink.old) (K.written sink.new) (B.books book.old) (B.books book.new) }
    ensures ended { IsEnded result }
    ensures unbooked { OnUnasked result (B.books book.new ≡ B.books book.old) }
    ensures write { OnWrite result (Rose (K.faults sink.old) (K.faults sink.new)) }
    ensures never_falls { K.faults sink.old ≤ K.faults sink.new }
{
    match demo(alloc, documents) {
        Ok(bytes) => run_script(rt, alloc, bytes, sink, kinds, workers, gate, book),
        Err(WantMemory) => Status::Memory,
    }
}

/// Runs what the words ask for.
pub(crate) fn run_asked<R: Threads + Wait + Sync, S: Source, K: Sink, G: Gate, B: Book>(
    rt: &R,
    alloc: Global,
    options: Options,
    source: &mut S,
    sink: &mut K,
    kinds: &[Box<dyn FacetKind>],
    gate: &G,
    book: &mut B,
) -> Status
    requires covers { Covers (map name kinds.now) }
    requires workers { (1 ≤ options.workers) × (options.workers ≤ 64) }
    requires documents { IfSome options.demo (λ documents. documents ≤ 200_000) }
    ensures left { IsLeftOf result (demo_or options.demo (S.left source.old)) (K.written sink.old) (K.written sink.new) (B.books book.old) (B.books book.new) }
    ensures run { IsRun result }
    ensures demo_unread { IsTrue (is_some options.demo) → S.left source.new ≡ S.left source.old }
    ensures demo_uncounted { IsTrue (is_some options.demo) → S.faults source.new ≡ S.faults source.old }
    ensures read { OnRead result (Rose (S.faults source.old) (S.faults source.new)) }
    ensures read_source { OnRead result (is_some options.demo ≡ false) }
    ensures read_unwritten { OnRead result (K.written sink.new ≡ K.written sink.old) }
    ensures end { IfDone result (is_some options.demo ≡ false → IsAtEnd (S.left source.new)) }
    ensures unbooked { OnUnasked result (B.books book.new ≡ B.books book.old) }
    ensures write { OnWrite result (Rose (K.faults sink.old) (K.faults sink.new)) }
    ensures source_never_falls { S.faults source.old ≤ S.faults source.new }
    ensures sink_never_falls { K.faults sink.old ≤ K.faults sink.new }
{
    match options.demo {
        Some(documents) => run_demo(
            rt,
            alloc,
            documents,
            sink,
            kinds,
            options.workers,
            gate,
            book,
        ),
        None => run_source(rt, alloc, source, sink, kinds, options.workers, gate, book),
    }
}
