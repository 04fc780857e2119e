// A reader of std as a source.
ghost use Rattle.std.specs.Prelude.{◌≡◌, ◌<◌, ◌≤◌, None, length, take};
ghost use Rattle.std.specs.Io.KnownBytes.{Consumes, IsAtEnd, Keeps};
ghost use Rattle.fc_io.specs.Got.{IfBytes, OnEnd, OnFailed, faults_after};
ghost use Rattle.fc_io.specs.StdSource.{reader_of, fault_count};

use crate::{Got, Source};
use std::io::Read;

/// A reader as a source, which doesn't tell its bytes. Each error of the reader, of any kind, is a
/// fault. Where the reader gives nothing, that is the end.
#[derive(Drop)]
pub struct StdSource<I> {
    input: I,
    faults: u64,
}

impl<I: Read> StdSource<I> {
    /// A source over the reader, with no fault yet.
    pub fn new(input: I) -> StdSource<I>
        ensures reader { reader_of result ≡ input }
        ensures faults { fault_count result ≡ 0 }
    {
        StdSource { input, faults: 0 }
    }
}

impl<I: Read> Source for StdSource<I> {
    ghost left = { λ _. None };

    ghost faults = { fault_count };

    fn read(&mut self, buf: &mut [u8]) -> Got
        requires { 0 < length buf.old }

        // What it gives is what the reader gave.
        ensures count { IfBytes result (λ n. (0 < n) × (n ≤ length buf.new)) }
        ensures bytes { IfBytes result (λ n. Consumes (I.remaining (reader_of self.old))
            (I.remaining (reader_of self.new)) (take n buf.new)) }
        ensures end { OnEnd result (IsAtEnd (I.remaining (reader_of self.old))) }
        ensures fault_keeps { OnFailed result
            (Keeps (I.remaining (reader_of self.old)) (I.remaining (reader_of self.new))) }

        ensures counted { fault_count self.new ≡ faults_after result (fault_count self.old) }
        ensures never_falls { fault_count self.old ≤ fault_count self.new }
    {
        match self.input.read(buf) {
            Ok(0) => Got::End,
            Ok(n) => Got::Bytes(n),
            Err(_) => {
                self.faults = self.faults.saturating_add(1);
                Got::Failed
            }
        }
    }
}
