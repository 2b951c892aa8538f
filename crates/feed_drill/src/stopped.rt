//! Why a drill ends before its report.

use news_types::Memory;
use std::alloc::{AllocError, AllocFailed};

/// Why a drill ends before its report.
#[derive(Clone, Copy, Debug, PartialEq, Eq)]
pub(crate) enum Stopped {
    /// An entry would pass the limit of the room's log.
    Full,
    /// There is no memory. An object in memory that refused to grow has said so.
    Memory,
}

impl From<Memory> for Stopped {
    fn from(_: Memory) -> Stopped {
        Stopped::Memory
    }
}

impl From<AllocError> for Stopped {
    fn from(_: AllocError) -> Stopped {
        Stopped::Memory
    }
}

impl<T: Drop> From<AllocFailed<T>> for Stopped {
    fn from(_: AllocFailed<T>) -> Stopped {
        Stopped::Memory
    }
}
