//! Why a pair is not packed.
ghost use Rattle.std.specs.Prelude.{◌≡◌};
ghost use Rattle.news_pair.specs.declared.pack_fault.PackFault.TheVariants.{Memory};

use std::alloc::{AllocError, AllocFailed};

/// Why a pair was not packed.
#[derive(Clone, Copy, Debug, PartialEq, Eq)]
pub enum PackFault {
    /// A disk has failed.
    DiskFault,
    /// The side would pass 1073741824 bytes.
    Full {
        /// The bytes of the side that are in use.
        size: u64,
        /// The segment's length, in bytes.
        length: u64,
    },
    /// The log, as it was read, has a record that is no entry or that is out of order, or is none.
    Damaged {
        /// The place in the log that shows it, in bytes from its start.
        at: u64,
        /// The byte there, or nothing where the log or a payload ends.
        found: Option<u8>,
    },
    /// Want of memory.
    Memory,
}

impl From<AllocError> for PackFault {
    ghost from_gives = { λ _ e. e ≡ Memory };

    fn from(_: AllocError) -> Self {
        PackFault::Memory
    }
}

impl<T: Drop> From<AllocFailed<T>> for PackFault {
    ghost from_gives = { λ _ e. e ≡ Memory };

    fn from(_: AllocFailed<T>) -> Self {
        PackFault::Memory
    }
}
