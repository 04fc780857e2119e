// Want of memory, and a refusal that is want of memory or a fault.
ghost use Rattle.std.specs.Prelude.{◌≡◌};
ghost use Rattle.fc_base.specs.declared.error.Refusal.TheVariants.{Memory};

use std::alloc::{AllocError, AllocFailed};

/// Memory ran out.
#[derive(Debug, Drop)]
pub struct WantMemory;

impl From<AllocError> for WantMemory {
    fn from(_: AllocError) -> Self {
        WantMemory
    }
}

impl<T: Drop> From<AllocFailed<T>> for WantMemory {
    fn from(_: AllocFailed<T>) -> Self {
        WantMemory
    }
}

/// Why a reader gave no value: memory ran out, or the input has a fault.
#[derive(Debug, Drop)]
pub enum Refusal<F> {
    Memory,
    Fault(F),
}

impl<F> From<WantMemory> for Refusal<F> {
    ghost from_gives = { λ _ refusal. refusal ≡ Memory };

    fn from(_: WantMemory) -> Self {
        Refusal::Memory
    }
}

impl<F> From<AllocError> for Refusal<F> {
    ghost from_gives = { λ _ refusal. refusal ≡ Memory };

    fn from(_: AllocError) -> Self {
        Refusal::Memory
    }
}

impl<T: Drop, F> From<AllocFailed<T>> for Refusal<F> {
    ghost from_gives = { λ _ refusal. refusal ≡ Memory };

    fn from(_: AllocFailed<T>) -> Self {
        Refusal::Memory
    }
}
