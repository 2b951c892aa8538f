//! Why reading stopped.

ghost use Rattle.std.specs.Prelude.{◌≡◌};
ghost use Rattle.byte_formats.specs.declared.stop.Stopped.TheVariants.{Memory as no_memory};

use news_types::Memory;
use std::alloc::{AllocError, AllocFailed};

/// Why reading stopped.
#[derive(Clone, Copy, Debug, PartialEq, Eq)]
pub enum Stopped {
    /// Want of memory.
    Memory,
    /// At a fault, with so many bytes left from the faulty byte on: none where the bytes end too soon.
    Left(usize),
}

impl From<Memory> for Stopped {
    ghost from_gives = { λ _ e. e ≡ no_memory };

    fn from(_: Memory) -> Stopped {
        Stopped::Memory
    }
}

impl From<AllocError> for Stopped {
    ghost from_gives = { λ _ e. e ≡ no_memory };

    fn from(_: AllocError) -> Stopped {
        Stopped::Memory
    }
}

impl<T: Drop> From<AllocFailed<T>> for Stopped {
    ghost from_gives = { λ _ e. e ≡ no_memory };

    fn from(_: AllocFailed<T>) -> Stopped {
        Stopped::Memory
    }
}
