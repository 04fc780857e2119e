// The phases of a script, one after another.
ghost use Rattle.std.specs.Prelude.{◌≡◌, ◌+◌, ◌≤◌, ℕ, AllPairs, Err, IfOk, false, length, map};
ghost use Rattle.fc_spec.specs.documents.Val.{same_text};
ghost use Rattle.fc_spec.specs.replies.Replied.{replied};
ghost use Rattle.fc_spec.specs.scripts.SearchLines.{AreLinesOfParts, ArePhaseLines};
ghost use Rattle.fc_io.specs.Faults.{Rose};
ghost use Rattle.fc_kind.specs.Names.{Covers};
ghost use Rattle.fc_script.specs.PartsView.{parts_view, search_view};
ghost use Rattle.fc_work.specs.Phased.{Adds, sent_in};
ghost use Rattle.fc_run.specs.Booking.{AreBookedLines};
ghost use Rattle.fc_run.specs.Ending.{WritesAll, WritesNext};
ghost use Rattle.fc_run.specs.Phased.{CanRun, chartered_batches, numbers_before};
ghost use Rattle.fc_run.specs.Progress.{all_carried, progress_of};
ghost use Rattle.fc_run.specs.Runnable.{IsRunnable};
ghost use Rattle.fc_run.specs.declared.stop.Stop.TheVariants.{SinkFailed};

use crate::Book;
use crate::booking::book_all;
use crate::commits::Committed;
use crate::lines::write_text;
use crate::openings::{Openings, again, openings_of};
use crate::shards::{first_shards, later_shards};
use crate::stop::Stop;
use fc_base::{Name, WantMemory};
use fc_hooks::Sent;
use fc_io::Sink;
use fc_kind::FacetKind;
use fc_script::{Phase, Script};
use fc_spec::phases_write_outputs;
use fc_work::{Gate, PhaseEnd, run_searches};
use std::alloc::Global;
use std::sync::Wait;
use std::thread::Threads;

// The shards once a phase has ended, and what was sent for each of its searches in order; none for one whose request has a fault.
#[derive(Drop)]
struct PhaseRun {
    shards: Vec<Committed>,
    sent: Vec<Option<Vec<Sent>>>,
}

// No reply yet, of so many sessions.
fn no_replies(alloc: Global, sessions: usize) -> Result<Vec<u64>, WantMemory> {
    let mut replies = Vec::with_capacity(alloc, sessions)?;
    for _session in 0..sessions {
        replies.push(0)?;
    }
    Ok(replies)
}

// Runs a phase: its commits alone, which make one generation of each shard, or beside its searches, whose lines are appended.
fn run_phase<R: Threads + Wait + Sync, G: Gate>(
    rt: &R,
    alloc: Global,
    shards: Vec<Committed>,
    names: &[Name],
    phase: Phase,
    kinds: &[Box<dyn FacetKind>],
    workers: u32,
    gate: &G,
    replies: &mut [u64],
    text: &mut Vec<u8>,
) -> Result<PhaseRun, WantMemory>
    requires covers { Covers (map name kinds.now) }
    requires workers { (1 ≤ workers) × (workers ≤ 64) }
    requires few { length names.now ≤ 16 }
    requires different { AllPairs (λ a b. same_text a b ≡ false) names.now }
    requires can { CanRun (map progress_of shards.items) (length names.now) phase }
    ensures shards { IfOk result (λ ran. map progress_of ran.shards.items ≡ all_carried (map progress_of shards.items) phase.commits.items) }
    ensures text { (number : ℕ) → IfOk result (λ ran. Adds text.old.items text.new.items (sent_in ran.sent.items) (ArePhaseLines replied
        (chartered_batches (map progress_of shards.items) phase.commits.items) phase.commits.items
        (λ session. numbers_before (map progress_of shards.items)) (map (search_view names.now number) phase.searches.items))) }
{
    let Phase { commits, searches } = phase;
    if searches.is_empty() {
        let later = later_shards(alloc, shards, &commits)?;
        return Ok(PhaseRun {
            shards: later,
            sent: Vec::new(alloc),
        });
    }
    let cut = openings_of(alloc, shards, &commits)?;
    let Openings { stores, left } = cut;
    let ended = run_searches(
        rt, alloc, stores, names, searches, kinds, workers, gate, replies, text,
    )?;
    let PhaseEnd { generations, sent } = ended;
    let later = again(alloc, &generations, left)?;
    Ok(PhaseRun {
        shards: later,
        sent,
    })
}

// Runs a phase. Once its workers are joined, what was sent for its searches is booked, the first of them under this number, and then
// their lines are written.
fn write_phase<R: Threads + Wait + Sync, K: Sink, G: Gate, B: Book>(
    rt: &R,
    alloc: Global,
    shards: Vec<Committed>,
    names: &[Name],
    phase: Phase,
    first: u32,
    sink: &mut K,
    kinds: &[Box<dyn FacetKind>],
    workers: u32,
    gate: &G,
    replies: &mut [u64],
    book: &mut B,
) -> Result<Vec<Committed>, Stop>
    requires covers { Covers (map name kinds.now) }
    requires workers { (1 ≤ workers) × (workers ≤ 64) }
    requires few { length names.now ≤ 16 }
    requires different { AllPairs (λ a b. same_text a b ≡ false) names.now }
    requires can { CanRun (map progress_of shards.items) (length names.now) phase }
    requires numbers { first + length phase.searches.items ≤ 67_108_864 }
    ensures shards { IfOk result (λ later. map progress_of later.items ≡ all_carried (map progress_of shards.items) phase.commits.items) }
    ensures written { (number : ℕ) → WritesNext result (K.written sink.old) (K.written sink.new) (AreBookedLines result first
        (B.books book.old) (B.books book.new) (ArePhaseLines replied
        (chartered_batches (map progress_of shards.items) phase.commits.items) phase.commits.items
        (λ session. numbers_before (map progress_of shards.items)) (map (search_view names.now number) phase.searches.items))) }
    ensures rose { result ≡ Err SinkFailed → Rose (K.faults sink.old) (K.faults sink.new) }
    ensures never_falls { K.faults sink.old ≤ K.faults sink.new }
{
    phases_write_outputs();
    let mut text = Vec::new(alloc);
    let ran = run_phase(
        rt, alloc, shards, names, phase, kinds, workers, gate, replies, &mut text,
    )?;
    let PhaseRun {
        shards: later,
        sent,
    } = ran;
    book_all(alloc, book, first, &sent)?;
    match write_text(sink, &text) {
        Ok(()) => Ok(later),
        Err(stop) => Err(stop),
    }
}

/// Writes the lines of all searches of a script, one phase after another: those of a phase are written before the next one begins. What
/// was sent for them is booked, under numbers from 0 over the whole script.
pub(crate) fn write_script<R: Threads + Wait + Sync, K: Sink, G: Gate, B: Book>(
    rt: &R,
    alloc: Global,
    script: Script,
    sink: &mut K,
    kinds: &[Box<dyn FacetKind>],
    workers: u32,
    gate: &G,
    book: &mut B,
) -> Result<(), Stop>
    requires covers { Covers (map name kinds.now) }
    requires workers { (1 ≤ workers) × (workers ≤ 64) }
    requires runnable { IsRunnable script }
    ensures written { WritesAll result (K.written sink.old) (K.written sink.new) (AreBookedLines result 0
        (B.books book.old) (B.books book.new) (AreLinesOfParts replied (parts_view script))) }
    ensures rose { result ≡ Err SinkFailed → Rose (K.faults sink.old) (K.faults sink.new) }
    ensures never_falls { K.faults sink.old ≤ K.faults sink.new }
{
    let Script {
        schema,
        sessions,
        batches,
        phases,
    } = script;
    let mut shards = first_shards(alloc, &schema, batches)?;
    let mut replies = no_replies(alloc, sessions.len())?;
    let mut first = 0;
    for phase in phases {
        let many = phase.searches.len() as u32;
        shards = write_phase(
            rt,
            alloc,
            shards,
            &sessions,
            phase,
            first,
            sink,
            kinds,
            workers,
            gate,
            &mut replies,
            book,
        )?;
        first += many;
    }
    Ok(())
}
