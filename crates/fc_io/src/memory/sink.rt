// Memory as a sink.
ghost use Rattle.std.specs.Prelude.{◌≡◌, ◌⊎◌, ◌<◌, ◌≤◌, ◌-◌, ◌↔◌, [], ◌++◌, Some, IfOk, length, take, min};
ghost use Rattle.fc_io.specs.Calls.{no_calls, NextFails, called, failed};
ghost use Rattle.fc_io.specs.Put.{IfTook, OnFailed};
ghost use Rattle.fc_io.specs.MemSink.{IsFull};

use super::calls::Calls;
use crate::{Put, Sink};
use fc_base::WantMemory;
use std::alloc::Global;
use std::marker::Model;

/// Memory with room for a number of bytes, which takes them in pieces. The calls with the numbers
/// that it was made with fail, and so does each call for which no room is left.
#[derive(Debug, Drop)]
pub struct MemSink {
    written: Vec<u8>,
    room: usize,
    piece: usize,
    calls: Calls,
}

impl Model for MemSink {
    ghost use Rattle.std.specs.Prelude.{◌<◌, ◌≤◌, vec_len, vec_capacity};
    ghost use Rattle.fc_io.specs.MemSink.{Store};

    ghost Value = { Store };

    ghost view = { λ sink. record
        { written = sink.written.items; room = sink.room; piece = sink.piece; calls = sink.calls } };

    ghost invariant = { λ sink. (vec_len sink.written ≤ sink.room)
        × (sink.room ≤ vec_capacity sink.written) × (0 < sink.piece) };
}

impl MemSink {
    /// A call takes at most `piece` bytes. The calls whose numbers are in `failing` fail: the first
    /// call has the number 1. All of `room`, in bytes, is allocated here.
    pub fn new(
        alloc: Global,
        room: usize,
        piece: usize,
        failing: &[u32],
    ) -> Result<MemSink, WantMemory>
        requires { 0 < piece }
        ensures { IfOk result (λ sink. sink
            ≡ record { written = []; room = room; piece = piece; calls = no_calls failing.now }) }
    {
        Ok(MemSink {
            written: Vec::with_capacity(alloc, room)?,
            room,
            piece,
            calls: Calls::new(alloc, failing)?,
        })
    }

    /// The bytes that were written, in their order.
    pub fn written(&self) -> &[u8]
        ensures { result.now ≡ self.now.written }
    {
        &self.written
    }

    /// How many calls have failed. It stands still at the last value of a `u64`.
    pub fn faults(&self) -> u64
        ensures { result ≡ self.now.calls.faults }
    {
        self.calls.faults()
    }
}

impl Sink for MemSink {
    ghost written = { λ sink. Some sink.written };

    ghost faults = { λ sink. sink.calls.faults };

    fn put(&mut self, bytes: &[u8]) -> Put
        requires { 0 < length bytes.now }

        ensures fails { (result ≡ Put.Failed) ↔ (NextFails self.old.calls ⊎ IsFull self.old) }
        ensures fault_counted { OnFailed result
            (self.new ≡ record self.old { calls = failed self.old.calls }) }

        ensures size { IfTook result (λ n. n ≡ min self.old.piece
            (min (length bytes.now) (self.old.room - length self.old.written))) }
        ensures some { IfTook result (λ n. 0 < n) }
        ensures took { IfTook result (λ n. self.new ≡ record self.old
            { written = self.old.written ++ take n bytes.now; calls = called self.old.calls }) }

        ensures never_falls { self.old.calls.faults ≤ self.new.calls.faults }
    {
        let room = self.room - self.written.len();
        if self.calls.next_fails() || room == 0 {
            self.calls.count_fault();
            return Put::Failed;
        }
        self.calls.count();
        let n = self.piece.min(bytes.len()).min(room);
        self.written.extend_from_slice(&bytes[..n]).unwrap();
        Put::Took(n)
    }
}
