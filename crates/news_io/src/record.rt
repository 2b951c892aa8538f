//! A record of a list.
use news_types::Bytes;

/// A record that a log or its side holds.
#[derive(PartialEq, Eq, Drop)]
pub struct Record {
    /// Where it begins in its file, in bytes from the file's start.
    pub at: u64,
    /// Whether that is a place of the side.
    pub side: bool,
    /// Its payload.
    pub bytes: Bytes,
}
