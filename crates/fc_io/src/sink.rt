// What takes bytes, piece by piece.
ghost use Rattle.std.specs.Prelude.{◌≡◌, ◌<◌, ◌≤◌, ℕ, List, Option, length, take};
ghost use Rattle.std.specs.Io.KnownBytes.{Appends};
ghost use Rattle.fc_io.specs.Faults.{Rose};
ghost use Rattle.fc_io.specs.Put.{IfTook, OnFailed};

/// The answer of a write: the number of bytes that were taken, or a fault.
#[derive(Clone, Copy, Debug, PartialEq, Eq)]
pub enum Put {
    Took(usize),
    Failed,
}

/// What takes bytes, piece by piece.
pub trait Sink {
    /// The bytes that were written, where the sink tells them.
    ghost written: { Self → Option (List ℕ) };

    /// The count of its faults, which stands still at the last value of a `u64`.
    ghost faults: { Self → ℕ };

    /// Takes bytes from the front of `bytes`, at least one of them.
    fn put(&mut self, bytes: &[u8]) -> Put
        requires { 0 < length bytes.now }
        ensures count { IfTook result (λ n. (0 < n) × (n ≤ length bytes.now)) }
        ensures appended { IfTook result (λ n.
            Appends (written self.old) (written self.new) (take n bytes.now)) }
        ensures fault_keeps { OnFailed result (written self.new ≡ written self.old) }
        ensures rose { OnFailed result (Rose (faults self.old) (faults self.new)) }
        ensures never_falls { faults self.old ≤ faults self.new };
}
