//! What is cut out of a wire.

use news_types::Bytes;

/// What begins with a SOH: a message, or one that is too long.
#[derive(Drop, PartialEq, Eq)]
pub enum Found {
    /// The place of its SOH in the whole input, counted from 0, and its bytes from behind the SOH
    /// on, at most 1048576. An EOT is not among them; a line `NNNN` that ends it is, without its line
    /// end.
    Message { at: u64, bytes: Bytes },
    /// The place of the first byte for which a message has no room.
    TooLong { at: u64 },
}
