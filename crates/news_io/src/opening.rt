//! How a file of the system is opened.

/// What a program does with a file.
#[derive(Clone, Copy, Debug, PartialEq, Eq)]
pub enum Access {
    /// It only reads.
    Read,
    /// It reads and writes.
    Write,
    /// It reads and writes, and makes the file at its opening where it is missing.
    Make,
}

/// A lock on a whole file.
#[derive(Clone, Copy, Debug, PartialEq, Eq)]
pub enum Lock {
    /// None.
    Unlocked,
    /// One beside which others may have a shared one too.
    Shared,
    /// One beside which nobody else has any.
    Exclusive,
}

/// Why a file is not opened.
#[derive(Clone, Copy, Debug, PartialEq, Eq)]
pub enum NotOpened {
    /// There is no such file.
    Missing,
    /// Another open of it holds a lock against this one.
    Held,
    /// The system refuses to open or to lock it.
    Failed,
}
