//! Two files that hold one list: a log, and a side with a packed front of it.
ghost use Rattle.std.specs.Prelude.{◌≤◌, ◌<◌, ◌+◌, ◌^◌};

use news_journal::Journal;
use uuid::Uuid;

/// A log and its side, held open: a keeper of records on two disks.
#[derive(Drop)]
pub struct Pair<D> {
    pub(crate) log: Journal<D>,
    pub(crate) side: D,
    pub(crate) store: Uuid,
    /// How many entries of the list stand before the log's first record.
    pub(crate) base: u64,
    /// How many entries the side holds.
    pub(crate) packed: u64,
    /// The place of the side's closed gate, or 0 where it stands for no segment.
    pub(crate) end: u64,
    /// The bytes in use, as if all entries stood in one log.
    pub(crate) used: u64,
    ghost room: { log.gate + 1 ≤ used },
    ghost small: { used < 2 ^ 62 },
    ghost least: { 65 ≤ used },
    ghost few: { packed ≤ end },
    ghost near: { end < 2 ^ 30 },
}
