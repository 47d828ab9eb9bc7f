//! Why reading stopped.

ghost use Rattle.std.specs.Prelude.{◌≡◌};
ghost use Rattle.reading.specs.declared.stop.Stop.TheVariants as stop;

use std::alloc::{AllocError, AllocFailed};

/// Why reading stopped: want of memory, or the first refusal, with its cause and the bytes from where the refused token begins.
#[derive(Drop)]
pub enum Stop<'a, C> {
    Memory,
    Refused(C, &'a [u8]),
}

impl<'a, C> From<ifc_base::Memory> for Stop<'a, C> {
    ghost from_gives = { λ _ stopped. stopped ≡ stop.Memory };

    fn from(_refused: ifc_base::Memory) -> Stop<'a, C> {
        Stop::Memory
    }
}

impl<'a, C> From<AllocError> for Stop<'a, C> {
    ghost from_gives = { λ _ stopped. stopped ≡ stop.Memory };

    fn from(_refused: AllocError) -> Stop<'a, C> {
        Stop::Memory
    }
}

impl<'a, T: Drop, C> From<AllocFailed<T>> for Stop<'a, C> {
    ghost from_gives = { λ _ stopped. stopped ≡ stop.Memory };

    fn from(_refused: AllocFailed<T>) -> Stop<'a, C> {
        Stop::Memory
    }
}
