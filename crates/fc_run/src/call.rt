// From the bytes of a script to the bytes of its answer.
ghost use Rattle.std.specs.Prelude.{◌≡◌, ◌≤◌, ◌⊎◌, IsTrue, None, false, map};
ghost use Rattle.std.specs.Io.KnownBytes.{IsAtEnd};
ghost use Rattle.fc_spec.specs.scripts.AskedScripts.{asked_script};
ghost use Rattle.fc_spec.specs.scripts.Outputs.{IsOutputBy};
ghost use Rattle.fc_io.specs.Faults.{Rose};
ghost use Rattle.fc_kind.specs.Names.{Covers};
ghost use Rattle.fc_run.specs.Booking.{AreBookedIn};
ghost use Rattle.fc_run.specs.Outcome.{single_without_limits, IfDone, IsOneOutput, IsRefinedOutput, Leaves, OnDone, OnRead, OnUnasked, OnWrite, WroteFor};
ghost use Rattle.fc_run.specs.Words.{asked_in, asks_demo, bytes_for};
ghost use Rattle.fc_run.specs.declared.status.Status.TheVariants.{Memory, Usage};

use crate::sources::run_asked;
use crate::{Book, Status};
use fc_base::WantMemory;
use fc_io::{Sink, Source};
use fc_kind::FacetKind;
use fc_words::read_words;
use fc_work::Gate;
use std::alloc::Global;
use std::sync::Wait;
use std::thread::Threads;

/// Reads a script from `source` and writes its answer to `sink`: one line for each search, in script order, its reply
/// or the error of its request; or the one line of the script's first fault, and then nothing else. `words` are those of
/// the command: the program's name, and then `--workers N` and `--demo N`, each at most once. `--workers` tells how many may read
/// lines, and drive the shards of a search, at once, 1 to 64, and changes no reply; with `--demo` nothing is read, and the script is
/// that of the demo with so many documents, 0 to 200,000. `kinds` holds a kind of facet of each name.
///
/// Every script is taken. In a phase with searches each shard's commits and each session's searches go on beside each other, in threads
/// of their own; the clauses promise legal generations, and which of them a search uses only where `one_output` leaves no choice. The lines
/// of a phase are written when its threads have ended. `gate` is told of each commit and each reply of such a phase. `book` is told what
/// was sent for each search that has a reply, before the lines of its phase are written; searches are numbered from 0 over the whole
/// script, those whose requests have faults too.
///
/// A reply is the defined distributed reply over the generations that its line shows, with the numbers of values and of buckets
/// that are asked for, each counted from the documents that the bucket around it counts. In it an outermost facet that is refined
/// exactly prints what a single index with all their blocks prints of its domain: the same values in the same order, with their
/// counts, statistics and numbers; facets nested in its buckets are refined as elsewhere. So does an outermost facet without a
/// limit.
///
/// The clauses on bytes hold where the source tells the bytes that it has left, and the sink those that were
/// written; `booked` where, beside both, the book tells what it was told.
pub fn run<R: Threads + Wait + Sync, S: Source, K: Sink, G: Gate, B: Book>(
    rt: &R,
    alloc: Global,
    words: &[String],
    source: &mut S,
    sink: &mut K,
    kinds: &[Box<dyn FacetKind>],
    gate: &G,
    book: &mut B,
) -> Status
    requires covers { Covers (map name kinds.now) }
    ensures usage { result ≡ Usage → asked_in words.now ≡ None }
    ensures not_taken { asked_in words.now ≡ None → (result ≡ Usage) ⊎ (result ≡ Memory) }
    ensures unread { asked_in words.now ≡ None → S.left source.new ≡ S.left source.old }
    ensures uncounted { asked_in words.now ≡ None → S.faults source.new ≡ S.faults source.old }
    ensures unwritten { asked_in words.now ≡ None → K.written sink.new ≡ K.written sink.old }
    ensures demo_unread { IsTrue (asks_demo (asked_in words.now)) → S.left source.new ≡ S.left source.old }
    ensures demo_uncounted { IsTrue (asks_demo (asked_in words.now)) → S.faults source.new ≡ S.faults source.old }
    ensures read { OnRead result (Rose (S.faults source.old) (S.faults source.new)) }
    ensures read_source { OnRead result (asks_demo (asked_in words.now) ≡ false) }
    ensures read_unwritten { OnRead result (K.written sink.new ≡ K.written sink.old) }
    ensures end { IfDone result (asks_demo (asked_in words.now) ≡ false → IsAtEnd (S.left source.new)) }
    ensures untold { asked_in words.now ≡ None → B.books book.new ≡ B.books book.old }
    ensures unbooked { OnUnasked result (B.books book.new ≡ B.books book.old) }
    ensures write { OnWrite result (Rose (K.faults sink.old) (K.faults sink.new)) }
    ensures source_never_falls { S.faults source.old ≤ S.faults source.new }
    ensures sink_never_falls { K.faults sink.old ≤ K.faults sink.new }

    ensures leaves { WroteFor (bytes_for (asked_in words.now) (S.left source.old)) (K.written sink.old) (K.written sink.new)
        (λ bytes. Leaves result (asked_script bytes)) }
    ensures single_index { WroteFor (bytes_for (asked_in words.now) (S.left source.old)) (K.written sink.old) (K.written sink.new)
        (λ bytes. OnDone result (asked_script bytes) (IsOutputBy single_without_limits)) }
    ensures refined { WroteFor (bytes_for (asked_in words.now) (S.left source.old)) (K.written sink.old) (K.written sink.new)
        (λ bytes. OnDone result (asked_script bytes) IsRefinedOutput) }
    ensures one_output { WroteFor (bytes_for (asked_in words.now) (S.left source.old)) (K.written sink.old) (K.written sink.new)
        (λ bytes. OnDone result (asked_script bytes) IsOneOutput) }
    ensures booked { WroteFor (bytes_for (asked_in words.now) (S.left source.old)) (K.written sink.old) (K.written sink.new)
        (λ bytes. OnDone result (asked_script bytes) (AreBookedIn (B.books book.old) (B.books book.new))) }
{
    match read_words(alloc, words) {
        Ok(Some(options)) => run_asked(rt, alloc, options, source, sink, kinds, gate, book),
        Ok(None) => Status::Usage,
        Err(WantMemory) => Status::Memory,
    }
}
