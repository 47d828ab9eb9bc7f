ghost use Rattle.std.specs.Prelude.{◌≡◌};
ghost use Rattle.ifc_base.specs.declared.memory.Refusal.TheVariants as refusal;

use std::alloc::{AllocError, AllocFailed};

/// Want of memory: the one answer that no clause ties to a cause.
#[derive(Clone, Copy, Debug, PartialEq, Eq)]
pub struct Memory;

impl From<AllocError> for Memory {
    fn from(_refused: AllocError) -> Memory {
        Memory
    }
}

impl<T: Drop> From<AllocFailed<T>> for Memory {
    fn from(_refused: AllocFailed<T>) -> Memory {
        Memory
    }
}

/// Why a call gave no answer: a fault, whose cause its contract names, or want of memory.
///
/// Want of memory becomes a refusal by `?`, and a contract then knows that it is no fault.
#[derive(Clone, Copy, Debug, PartialEq, Eq)]
pub enum Refusal<F> {
    /// What was wrong.
    Fault(F),
    /// Want of memory.
    Memory,
}

impl<F> From<Memory> for Refusal<F> {
    ghost from_gives = { λ _ refused. refused ≡ refusal.Memory };

    fn from(_refused: Memory) -> Refusal<F> {
        Refusal::Memory
    }
}

impl<F> From<AllocError> for Refusal<F> {
    ghost from_gives = { λ _ refused. refused ≡ refusal.Memory };

    fn from(_refused: AllocError) -> Refusal<F> {
        Refusal::Memory
    }
}

impl<T: Drop, F> From<AllocFailed<T>> for Refusal<F> {
    ghost from_gives = { λ _ refused. refused ≡ refusal.Memory };

    fn from(_refused: AllocFailed<T>) -> Refusal<F> {
        Refusal::Memory
    }
}
