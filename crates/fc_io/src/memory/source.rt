// Bytes in memory as a source.
ghost use Rattle.std.specs.Prelude.{◌≡◌, ◌<◌, ◌≤◌, ◌↔◌, [], ◌++◌, Some, IfOk, length, take, min};
ghost use Rattle.fc_io.specs.Calls.{no_calls, NextFails, called, failed};
ghost use Rattle.fc_io.specs.Got.{IfBytes, OnEnd, OnFailed};

use super::calls::Calls;
use crate::{Got, Source};
use fc_base::WantMemory;
use std::alloc::Global;
use std::marker::Model;

/// Bytes in memory, given in pieces. The calls with the numbers that it was made with fail.
#[derive(Debug, Drop)]
pub struct MemSource {
    bytes: Vec<u8>,
    at: usize,
    piece: usize,
    calls: Calls,
}

impl Model for MemSource {
    ghost use Rattle.std.specs.Prelude.{◌<◌, ◌≤◌, drop, vec_len};
    ghost use Rattle.fc_io.specs.MemSource.{Supply};

    ghost Value = { Supply };

    ghost view = { λ source. record
        { left = drop source.at source.bytes.items; piece = source.piece; calls = source.calls } };

    ghost invariant = { λ source. (source.at ≤ vec_len source.bytes) × (0 < source.piece) };
}

impl MemSource {
    /// A call gives at most `piece` bytes. The calls whose numbers are in `failing` fail: the first
    /// call has the number 1.
    pub fn new(
        alloc: Global,
        bytes: &[u8],
        piece: usize,
        failing: &[u32],
    ) -> Result<MemSource, WantMemory>
        requires { 0 < piece }
        ensures { IfOk result (λ source. source
            ≡ record { left = bytes.now; piece = piece; calls = no_calls failing.now }) }
    {
        Ok(MemSource {
            bytes: bytes.to_vec(alloc)?,
            at: 0,
            piece,
            calls: Calls::new(alloc, failing)?,
        })
    }

    /// How many calls have failed. It stands still at the last value of a `u64`.
    pub fn faults(&self) -> u64
        ensures { result ≡ self.now.calls.faults }
    {
        self.calls.faults()
    }
}

impl Source for MemSource {
    ghost left = { λ source. Some source.left };

    ghost faults = { λ source. source.calls.faults };

    fn read(&mut self, buf: &mut [u8]) -> Got
        requires { 0 < length buf.old }

        ensures fails { (result ≡ Got.Failed) ↔ NextFails self.old.calls }
        ensures fault_counted { OnFailed result
            (self.new ≡ record self.old { calls = failed self.old.calls }) }

        ensures end { OnEnd result (self.old.left ≡ []) }
        ensures end_counted { OnEnd result
            (self.new ≡ record self.old { calls = called self.old.calls }) }

        ensures size { IfBytes result (λ n. n ≡ min self.old.piece
            (min (length buf.new) (length self.old.left))) }
        ensures some { IfBytes result (λ n. 0 < n) }
        ensures bytes { IfBytes result (λ n. self.old.left ≡ take n buf.new ++ self.new.left) }
        ensures gave { IfBytes result (λ n. self.new ≡ record self.old
            { left = self.new.left; calls = called self.old.calls }) }

        ensures never_falls { self.old.calls.faults ≤ self.new.calls.faults }
    {
        if self.calls.next_fails() {
            self.calls.count_fault();
            return Got::Failed;
        }
        self.calls.count();
        let n = copy_front(&self.bytes[self.at..], buf, self.piece);
        if n == 0 {
            return Got::End;
        }
        self.at += n;
        Got::Bytes(n)
    }
}

// Copies the front of `from` into the front of `to`: as many bytes as fit, at most `most`.
fn copy_front(from: &[u8], to: &mut [u8], most: usize) -> usize
    ensures count { result ≡ min most (min (length to.new) (length from.now)) }
    ensures copied { take result to.new ≡ take result from.now }
{
    let n = most.min(to.len()).min(from.len());
    to[..n].copy_from_slice(&from[..n]);
    n
}
