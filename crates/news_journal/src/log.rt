//! A log on a disk: a header, and then records, each behind a gate. A record counts where its gate is open.
ghost use Rattle.std.specs.Prelude.{◌^◌, ◌<◌, ◌≡◌, false};
ghost use Rattle.news_journal.specs.declared.log.OpenFault.TheVariants.{DiskFault, Memory};

use news_io::Failed;
use std::alloc::{AllocError, AllocFailed};

/// A log that is held open: a keeper of records on a disk.
#[derive(Drop)]
pub struct Journal<D> {
    pub(crate) disk: D,
    /// The header's bytes.
    pub(crate) head: [u8; 64],
    /// The place of the first gate that is not open.
    pub(crate) gate: u64,
    /// Whether a crash may find that gate open, although its record does not count yet.
    pub(crate) ajar: bool,
    ghost small: { gate < 2 ^ 30 },
}

impl<D> Journal<D> {
    /// The journal whose closed gate stands at this place.
    pub fn at_gate(disk: D, head: [u8; 64], gate: u64) -> Journal<D>
        requires { gate < 2 ^ 30 }
        ensures disk { result.disk ≡ disk }
        ensures head { result.head ≡ head }
        ensures gate { result.gate ≡ gate }
        ensures ajar { result.ajar ≡ false }
    {
        Journal {
            disk,
            head,
            gate,
            ajar: false,
        }
    }
}

/// Why a disk was not made a log, or gave none.
#[derive(Clone, Copy, Debug, PartialEq, Eq)]
pub enum OpenFault {
    /// The disk has failed.
    DiskFault,
    /// The bytes are no log.
    Damaged {
        /// The place that shows it, in bytes from the disk's start.
        at: u64,
        /// The byte there, or nothing where the disk ends.
        found: Option<u8>,
    },
    /// Want of memory.
    Memory,
}

impl From<Failed> for OpenFault {
    ghost from_gives = { λ _ e. e ≡ DiskFault };

    fn from(_: Failed) -> Self {
        OpenFault::DiskFault
    }
}

impl From<AllocError> for OpenFault {
    ghost from_gives = { λ _ e. e ≡ Memory };

    fn from(_: AllocError) -> Self {
        OpenFault::Memory
    }
}

impl<T: Drop> From<AllocFailed<T>> for OpenFault {
    ghost from_gives = { λ _ e. e ≡ Memory };

    fn from(_: AllocFailed<T>) -> Self {
        OpenFault::Memory
    }
}

impl From<news_types::Memory> for OpenFault {
    ghost from_gives = { λ _ e. e ≡ Memory };

    fn from(_: news_types::Memory) -> Self {
        OpenFault::Memory
    }
}
