//! What was read of a log and its side.
ghost use Rattle.std.specs.Prelude.{◌≤◌, ◌<◌, ◌+◌, ◌^◌};

use crate::room_heading::RoomHead;
use news_io::Record;

/// The list of a log and its side.
#[derive(Drop)]
pub struct Gathered {
    /// How many entries the side has.
    pub packed: u64,
    /// The place of the side's closed gate, or 0 where it stands for no segment.
    pub end: u64,
    /// The bytes that the records take in one log.
    pub used: u64,
    pub records: Vec<Record>,
}

/// What was read of both files.
#[derive(Drop)]
pub struct Loaded {
    pub head: RoomHead,
    /// The place of the log's closed gate.
    pub gate: u64,
    /// Whether the log has no record.
    pub empty: bool,
    pub gathered: Gathered,
    ghost room: { gate + 1 ≤ gathered.used },
    ghost size: { gathered.used < 2 ^ 62 },
    ghost few: { gathered.packed ≤ gathered.end },
    ghost near: { gathered.end < 2 ^ 30 },
    ghost small: { gate < 2 ^ 30 },
    ghost least: { 65 ≤ gathered.used },
}
