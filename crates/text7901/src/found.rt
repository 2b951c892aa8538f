//! What a wire has.

use news_types::Incoming;

/// What is wrong with a message.
#[derive(Clone, Copy, Debug, PartialEq, Eq)]
pub enum What {
    /// A byte does not continue source and number.
    NoHeader,
    /// The message ends behind its number and before STX.
    NoText,
    /// The message ends behind STX and before ETX.
    NoEnd,
    /// The message has more than 131072 bytes.
    TooLong,
}

/// What a wire has: a story, or a fault with the place of the byte that shows it.
#[derive(Drop, PartialEq, Eq)]
pub enum Found {
    Story(Incoming),
    Fault { at: u64, what: What },
}
