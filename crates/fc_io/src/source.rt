// What gives bytes, piece by piece.
ghost use Rattle.std.specs.Prelude.{◌≡◌, ◌<◌, ◌≤◌, ℕ, List, Option, length, take};
ghost use Rattle.std.specs.Io.KnownBytes.{Consumes, IsAtEnd};
ghost use Rattle.fc_io.specs.Faults.{Rose};
ghost use Rattle.fc_io.specs.Got.{IfBytes, OnEnd, OnFailed};

/// The answer of a read: the number of bytes that were given, the end, or a fault.
#[derive(Clone, Copy, Debug, PartialEq, Eq)]
pub enum Got {
    Bytes(usize),
    End,
    Failed,
}

/// What gives bytes, piece by piece.
pub trait Source {
    /// The bytes that are left, where the source tells them.
    ghost left: { Self → Option (List ℕ) };

    /// The count of its faults, which stands still at the last value of a `u64`.
    ghost faults: { Self → ℕ };

    /// Gives the next bytes, at least one of them, in the front of `buf`. What stands behind them in
    /// `buf` is left open.
    fn read(&mut self, buf: &mut [u8]) -> Got
        requires { 0 < length buf.old }
        ensures count { IfBytes result (λ n. (0 < n) × (n ≤ length buf.new)) }
        ensures bytes { IfBytes result (λ n.
            Consumes (left self.old) (left self.new) (take n buf.new)) }
        ensures end { OnEnd result (IsAtEnd (left self.old)) }
        ensures end_keeps { OnEnd result (left self.new ≡ left self.old) }
        ensures fault_keeps { OnFailed result (left self.new ≡ left self.old) }
        ensures rose { OnFailed result (Rose (faults self.old) (faults self.new)) }
        ensures never_falls { faults self.old ≤ faults self.new };
}
