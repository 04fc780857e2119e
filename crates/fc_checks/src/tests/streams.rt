// Sources and sinks that falter: what fails is told, and not tried again.
use super::kinds::kinds_in;
use fc_io::{AllRead, MemSink, MemSource, StdSink, StdSource, WriteEnd, read_all, write_all};
use fc_run::{ListBook, NoGate, Status, run};
use std::alloc::Global;
use std::io;
use std::io::{Read, Write};
use std::test::Fail;

// Reads and writes a byte in a call. Its second call fails, and its fourth gives or takes nothing.
#[derive(Drop)]
struct Faltering {
    calls: u8,
}

impl Faltering {
    fn step(&mut self) -> io::Result<usize> {
        self.calls = self.calls.saturating_add(1);
        match self.calls {
            2 => Err(io::Error::from(io::ErrorKind::Interrupted)),
            4 => Ok(0),
            _ => Ok(1),
        }
    }
}

impl Read for Faltering {
    fn read(&mut self, buf: &mut [u8]) -> io::Result<usize> {
        Ok(self.step()?.min(buf.len()))
    }
}

impl Write for Faltering {
    fn write(&mut self, buf: &[u8]) -> io::Result<usize> {
        Ok(self.step()?.min(buf.len()))
    }

    fn flush(&mut self) -> io::Result<()> {
        Ok(())
    }
}

fn outcome_of(all: &AllRead) -> &[u8] {
    match all {
        AllRead::Bytes(bytes) => bytes,
        AllRead::TooLong => b"too long",
        AllRead::ReadFault => b"fault",
    }
}

#[test]
fn a_faltering_reader_is_a_source(rt: HostRuntime) -> Result<(), Fail> {
    let alloc = rt.alloc();
    let mut source = StdSource::new(Faltering { calls: 0 });
    for outcome in ["fault", "\0"] {
        let all = read_all(alloc, &mut source, 3)?;
        assert!(rt; outcome_of(&all) == outcome.as_bytes(), "no {outcome}");
    }
    Ok(())
}

#[test]
fn a_faltering_writer_is_a_sink(rt: HostRuntime) {
    let mut sink = StdSink::new(Faltering { calls: 0 });
    for (number, text, end) in [
        (1, "abc", WriteEnd::WriteFault),
        (2, "a", WriteEnd::Whole),
        (3, "a", WriteEnd::WriteFault),
    ] {
        assert!(rt; write_all(&mut sink, text.as_bytes()) == end, "at {number}");
    }
}

const SCRIPT: &str = r#"{"schema":{"shards":1,"fields":{"cat":"string"}}}
{"add":{"doc":{"id":"1","cat":"b"}}}
{"add":{"doc":{"id":"2","cat":"a"}}}
{"commit":{}}
{"sync":{}}
{"search":{"session":"a","request":{"query":"*:*","facet":{"cats":{"type":"terms","field":"cat","limit":-1,"sort":"index"}}}}}
"#;

const ANSWER: &str =
    r#"{"facets":{"cats":{"buckets":[{"count":1,"val":"a"},{"count":1,"val":"b"}]},"count":2},"generations":[1],"session":"a"}
"#;

// A run over streams: the calls of the source that fail, the room of the sink and its calls that fail; the status, the faults
// of both and what is written. What fails is not tried again, though the next call would fail too; what is sent is booked first.
const STREAMS: &[(&[u32], usize, &[u32], Status, (u64, u64), &str)] = &[
    (&[], 1000, &[], Status::Done, (0, 0), ANSWER),
    (&[1], 1000, &[], Status::Read, (1, 0), ""),
    (&[2], 1000, &[], Status::Read, (1, 0), ""),
    (&[2, 3, 4], 1000, &[], Status::Read, (1, 0), ""),
    (&[], 1000, &[1], Status::Write, (0, 1), ""),
    (&[], 1000, &[1, 2, 3], Status::Write, (0, 1), ""),
    (&[], 1000, &[2, 3], Status::Write, (0, 1), r#"{"facet"#),
    (&[], 10, &[], Status::Write, (0, 1), r#"{"facets":"#),
];

#[test]
fn runs_over_streams(rt: HostRuntime) -> Result<(), Fail> {
    let alloc = rt.alloc();
    let kinds = kinds_in(alloc)?;
    let words = vec![in alloc; String::from_str(alloc, "facets")?]?;
    for (failing_reads, room, failing_writes, status, counted, written) in STREAMS {
        let mut input = MemSource::new(alloc, SCRIPT.as_bytes(), 16, failing_reads)?;
        let mut sink = MemSink::new(alloc, *room, 7, failing_writes)?;
        let mut book = ListBook::new(alloc)?;
        let found = run(
            &rt, alloc, &words, &mut input, &mut sink, &kinds, &NoGate, &mut book,
        );
        let faults = (input.faults(), sink.faults());
        assert!(rt;
            found == *status && sink.written() == written.as_bytes() && faults == *counted,
            "{failing_reads:?}, {room}, {failing_writes:?}: {found:?}"
        );
        assert!(rt; book.get(0).is_some() != (*status == Status::Read));
    }
    Ok(())
}
