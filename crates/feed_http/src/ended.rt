//! Why a connection ended.

/// Why a connection ended. By the first of these that comes: each says what it asks for, and not before its request.
#[derive(Clone, Copy, Debug, PartialEq, Eq)]
pub enum Ended {
    /// The turn of its last request kept a stop. Writing the answer was tried, and may have failed.
    Stopped {
        /// The place of the stop in the list.
        place: u64,
    },
    /// Its input ended, or its last request asked for it.
    Closed,
    /// It has had 64 requests, and none of them closed it.
    Limit,
    /// What followed was no request: it was answered 400.
    HeadFault,
    /// What followed was too large: it was answered 413.
    TooLarge,
    /// The body that followed comes in a coding: it was answered 501.
    Chunked,
    /// The source failed.
    ReadFault,
    /// The sink failed.
    WriteFault,
    /// There was no memory to begin, or none for the next request, which was answered 507.
    Memory,
}
