// What no clause says and no script shows.
ghost use Rattle.std.specs.Prelude.{map};
ghost use Rattle.fc_kind.specs.Names.{Covers};

mod calls;
mod candidates;
mod documents;
mod exact;
mod faults;
mod gates;
mod kinds;
mod messages;
mod noting;
mod polls;
mod rounds;
mod scripts;
mod searches;
mod store;
mod streams;
mod turns;

use fc_io::{MemSink, MemSource};
use fc_kind::FacetKind;
use fc_run::{Book, Gate, Status, run};
use std::alloc::Global;
use std::sync::Wait;
use std::test::Fail;
use std::thread::Threads;

// Fails where the texts differ, and shows both.
fn demand(found: &str, wanted: &str) -> Result<(), Fail> {
    if found == wanted {
        Ok(())
    } else {
        Err(Fail::new(format_args!("{found} in place of {wanted}")))
    }
}

// What is written of a script without a fault, where this gate is told how it goes on, and this book what is sent.
fn written<R: Threads + Wait + Sync, G: Gate, B: Book>(
    rt: &R,
    alloc: Global,
    script: &str,
    kinds: &[Box<dyn FacetKind>],
    gate: &G,
    book: &mut B,
) -> Result<String, Fail>
    requires { Covers (map name kinds.now) }
{
    let words = vec![in alloc; String::from_str(alloc, "facets")?]?;
    let mut source = MemSource::new(alloc, script.as_bytes(), 4096, &[])?;
    let mut sink = MemSink::new(alloc, 65_536, 4096, &[])?;
    let status = run(rt, alloc, &words, &mut source, &mut sink, kinds, gate, book);
    match status {
        Status::Done => Ok(String::from_utf8_lossy(alloc, sink.written())?),
        status => Err(Fail::new(format_args!("{status:?}"))),
    }
}
