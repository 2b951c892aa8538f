//! Why bytes are read as no entry.

/// Why bytes are read as no entry.
#[derive(Clone, Copy, Debug, PartialEq, Eq)]
pub enum CodecFault {
    /// The place of the first byte such that no entry's bytes begin with the bytes up to and with it,
    /// or the number of bytes where they end too soon.
    At { at: u64 },
    /// Want of memory.
    Memory,
}
