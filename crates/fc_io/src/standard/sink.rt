// A writer of std as a sink.
ghost use Rattle.std.specs.Prelude.{◌≡◌, ◌<◌, ◌≤◌, None, length, take};
ghost use Rattle.std.specs.Io.KnownBytes.{Appends, Keeps};
ghost use Rattle.fc_io.specs.Put.{IfTook, OnFailed, faults_after};
ghost use Rattle.fc_io.specs.StdSink.{writer_of, fault_count};

use crate::{Put, Sink};
use std::io::Write;

/// A writer as a sink, which doesn't tell its bytes. Each error of the writer, of any kind, is a
/// fault, and so is a write that takes nothing.
#[derive(Drop)]
pub struct StdSink<O> {
    output: O,
    faults: u64,
}

impl<O: Write> StdSink<O> {
    /// A sink over the writer, with no fault yet.
    pub fn new(output: O) -> StdSink<O>
        ensures writer { writer_of result ≡ output }
        ensures faults { fault_count result ≡ 0 }
    {
        StdSink { output, faults: 0 }
    }
}

impl<O: Write> Sink for StdSink<O> {
    ghost written = { λ _. None };

    ghost faults = { fault_count };

    fn put(&mut self, bytes: &[u8]) -> Put
        requires { 0 < length bytes.now }

        // What it took is what the writer took.
        ensures count { IfTook result (λ n. (0 < n) × (n ≤ length bytes.now)) }
        ensures appended { IfTook result (λ n. Appends (O.contents (writer_of self.old))
            (O.contents (writer_of self.new)) (take n bytes.now)) }
        ensures fault_keeps { OnFailed result
            (Keeps (O.contents (writer_of self.old)) (O.contents (writer_of self.new))) }

        ensures counted { fault_count self.new ≡ faults_after result (fault_count self.old) }
        ensures never_falls { fault_count self.old ≤ fault_count self.new }
    {
        match self.output.write(bytes) {
            Ok(0) | Err(_) => {
                self.faults = self.faults.saturating_add(1);
                Put::Failed
            }
            Ok(n) => Put::Took(n),
        }
    }
}
