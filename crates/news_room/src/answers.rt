//! What a room answers.
use news_types::{Denial, Reply};

/// What a request is answered.
#[derive(Drop)]
pub enum Handled {
    /// It is kept, with this reply.
    Done(Reply),
    /// It is the caller's last request once more, with the reply that was given: nothing is kept.
    Repeat(Reply),
    /// It is denied, for the first reason in their order: nothing is kept.
    Denied(Denial),
    /// The keeper has failed, and its count of faults has risen. The list is as before, and a crash may leave the entry
    /// that was tried behind it.
    Fault,
    /// The entry would pass the limit: nothing is kept.
    Full {
        /// The bytes in use.
        size: u64,
        /// The length of the entry's payload in bytes.
        length: u64,
    },
    /// There is no memory for it: nothing is kept.
    Memory,
}

/// What a receipt is answered. It takes no memory.
#[derive(Drop)]
pub enum Kept {
    /// It is done, and kept where it raises what is acknowledged.
    Done(Reply),
    /// It is denied, for the first reason in their order: nothing is kept.
    Denied(Denial),
    /// The keeper has failed, and its count of faults has risen. The list is as before, and a crash may leave the entry
    /// that was tried behind it.
    Fault,
    /// The entry would pass the limit: nothing is kept.
    Full {
        /// The bytes in use.
        size: u64,
        /// The length of the entry's payload in bytes.
        length: u64,
    },
}

/// What a tick or a halt is answered. It takes no memory.
#[derive(Clone, Copy, Debug, PartialEq, Eq)]
pub enum Ticked {
    /// An entry is kept.
    Kept {
        /// Its place in the list.
        entry: u64,
    },
    /// Nothing waits that is released by now: nothing is kept. A halt is never answered so.
    Still,
    /// The keeper has failed, and its count of faults has risen. The list is as before, and a crash may leave the entry
    /// that was tried behind it.
    Fault,
    /// The entry would pass the limit: nothing is kept.
    Full {
        /// The bytes in use.
        size: u64,
        /// The length of the entry's payload in bytes.
        length: u64,
    },
}

/// Why records open to no room.
#[derive(Clone, Copy, Debug, PartialEq, Eq)]
pub enum RoomFault {
    /// A record of the log is no entry, or its entry is not one that may follow those before it.
    Damaged {
        /// The place in the log: of the first byte that no entry goes on with, or of the record's gate where the entry
        /// may not follow.
        at: u64,
        /// The byte that stands there, or nothing where the payload ends too soon.
        found: Option<u8>,
    },
    /// The same of a record of the side.
    DamagedSide {
        /// The place in the side, likewise.
        at: u64,
        /// The byte that stands there, or nothing where the payload ends too soon.
        found: Option<u8>,
    },
    /// There is no memory for it.
    Memory,
}
