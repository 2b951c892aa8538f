//! Why two disks are no pair.
ghost use Rattle.std.specs.Prelude.{◌≡◌};
ghost use Rattle.news_pair.specs.Faults.{fault_of};
ghost use Rattle.news_pair.specs.declared.fault.PairFault.TheVariants.{DiskFault, Memory};

use news_io::Failed;
use news_journal::OpenFault;
use std::alloc::{AllocError, AllocFailed};

/// Why two disks were not made a pair, or gave none.
#[derive(Clone, Copy, Debug, PartialEq, Eq)]
pub enum PairFault {
    /// A disk has failed.
    DiskFault,
    /// The log is none, or it does not go on where its side ends.
    Damaged {
        /// The place in the log that shows it, in bytes from its start.
        at: u64,
        /// The byte there, or nothing where the log or a payload ends.
        found: Option<u8>,
    },
    /// The side is none.
    DamagedSide {
        /// The place in the side that shows it, in bytes from its start.
        at: u64,
        /// The byte there, or nothing where the side or a payload ends.
        found: Option<u8>,
    },
    /// Want of memory.
    Memory,
}

/// A fault of the log.
impl From<OpenFault> for PairFault {
    ghost from_gives = { λ old new. new ≡ fault_of old };

    fn from(fault: OpenFault) -> Self {
        match fault {
            OpenFault::DiskFault => PairFault::DiskFault,
            OpenFault::Damaged { at, found } => PairFault::Damaged { at, found },
            OpenFault::Memory => PairFault::Memory,
        }
    }
}

impl From<Failed> for PairFault {
    ghost from_gives = { λ _ e. e ≡ DiskFault };

    fn from(_: Failed) -> Self {
        PairFault::DiskFault
    }
}

impl From<AllocError> for PairFault {
    ghost from_gives = { λ _ e. e ≡ Memory };

    fn from(_: AllocError) -> Self {
        PairFault::Memory
    }
}

impl<T: Drop> From<AllocFailed<T>> for PairFault {
    ghost from_gives = { λ _ e. e ≡ Memory };

    fn from(_: AllocFailed<T>) -> Self {
        PairFault::Memory
    }
}

impl From<news_types::Memory> for PairFault {
    ghost from_gives = { λ _ e. e ≡ Memory };

    fn from(_: news_types::Memory) -> Self {
        PairFault::Memory
    }
}
