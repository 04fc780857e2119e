//! The program: a script on standard input, its replies on standard output.
#![tactic(auto)]

mod complaint;

use complaint::complaint;
use fc_date_range::DateRangeKind;
use fc_io::{StdSink, StdSource};
use fc_kind::kinds_of;
use fc_range::{QueryKind, RangeKind};
use fc_run::{NoBook, NoGate, Status, run};
use fc_terms::TermsKind;
use std::alloc::Global;
use std::io;
use std::process::ExitCode;
use std::rt::Env;
use std::sync::Wait;
use std::thread::Threads;

fn words_of<R: Env + AllocGlobal>(rt: &R) -> io::Result<Vec<String>> {
    let mut words = Vec::new(rt.alloc());
    for word in std::env::args(rt)? {
        words.push(word)?;
    }
    Ok(words)
}

/// Words and kinds that can't be had end as want of memory does.
fn run_program<R: Threads + Wait + Sync + Env + Input + Print + AllocGlobal>(rt: &R) -> Status {
    let alloc = rt.alloc();
    let Ok(words) = words_of(rt) else {
        return Status::Memory;
    };
    let Ok(terms) = Box::new(alloc, TermsKind) else {
        return Status::Memory;
    };
    let Ok(range) = Box::new(alloc, RangeKind) else {
        return Status::Memory;
    };
    let Ok(query) = Box::new(alloc, QueryKind) else {
        return Status::Memory;
    };
    let Ok(date_range) = Box::new(alloc, DateRangeKind) else {
        return Status::Memory;
    };
    let Ok(kinds) = kinds_of(alloc, terms, range, query, date_range) else {
        return Status::Memory;
    };
    let mut source = StdSource::new(rt.reader());
    let mut sink = StdSink::new(io::writer(rt));
    run(
        rt,
        alloc,
        &words,
        &mut source,
        &mut sink,
        &kinds,
        &NoGate,
        &mut NoBook,
    )
}

fn main(rt: HostRuntime) -> ExitCode {
    let status = run_program(&rt);
    if let Some(line) = complaint(status) {
        // Where even this can't be written, the exit status still tells.
        let _ = eprintln!(rt; "{line}");
    }
    ExitCode::from(status.code())
}
