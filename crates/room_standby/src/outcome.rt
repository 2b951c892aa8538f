//! What shipping comes to.

use feed_receiver::Line;

/// What became of the records that were shipped.
#[derive(Drop)]
pub enum Ship {
    /// The standby has kept them all: the last reply said so of their number, or there are none.
    Level { count: u64 },
    /// The link failed at record `n`.
    LinkFault { n: u64 },
    /// The reply to record `n` is no KEPT line with a count from `n` to the number of records.
    NoKept { n: u64, reply: Line },
    /// Want of memory.
    Memory,
}
