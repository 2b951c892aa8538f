//! The standby.

ghost use Rattle.std.specs.Prelude.{◌≡◌, ◌≤◌, IfOk, length};
ghost use Rattle.news_io.specs.Keeper.{framed};
ghost use Rattle.room_standby.specs.declared.standby.StandbyFault.TheVariants.{Memory as NoMemory};

use entry_codec::{CodecFault, moment_of};
use feed_receiver::Line;
use news_io::{AppendFault, Keeper, Record};
use news_types::{Bytes, Memory};
use record_lines::{RecordLine, kept_line, whole_record};
use std::alloc::{AllocError, AllocFailed, Global};

/// The most bytes of a log that records may use.
const LAST: u64 = 1073741824;

/// A standby: it keeps each record of its primary's list once, in order.
///
/// It stands for a list of entries. Their records are with the keeper, and the standby has a copy of them, from which
/// it can be promoted to a room.
#[derive(Drop)]
pub struct Standby<K> {
    pub(crate) alloc: Global,
    pub(crate) keeper: K,
    pub(crate) records: Vec<Record>,
}

/// What a standby answers to some bytes.
#[derive(Clone, Copy, Debug, PartialEq, Eq)]
pub enum Shipped {
    /// They are no record line: the place of the first byte such that no record line begins with the bytes up to and
    /// with it, or their number where they end too soon. A byte past a record line's end is such a byte.
    BadRecord {
        at: u64,
    },
    /// A record whose number is at most the number of records that the standby has, which is given.
    Known {
        count: u64,
    },
    /// A record whose number is past the next one; the number of records that the standby has is given.
    Ahead {
        count: u64,
    },
    /// The next record, whose payload is no entry: the place in the payload of the first byte that no entry goes on
    /// with.
    NoEntry {
        at: u64,
    },
    /// The next record, which has number `n` and is now kept.
    Accepted {
        n: u64,
    },
    /// The next record, which the keeper failed to keep: a crash may leave it at the list's end.
    Fault,
    /// The next record, which would pass the limit of the log.
    Full {
        /// The bytes in use.
        size: u64,
        /// The payload's length.
        length: u64,
    },
    /// The next record, for which memory is wanted.
    Memory,
}

/// Why records don't open to a standby.
#[derive(Clone, Copy, Debug, PartialEq, Eq)]
pub enum StandbyFault {
    /// A record's payload is no entry; the first such record begins here, at its open gate.
    Damaged { at: u64, found: Option<u8> },
    /// Want of memory.
    Memory,
}

impl From<AllocError> for StandbyFault {
    ghost from_gives = { λ _ e. e ≡ NoMemory };

    fn from(_: AllocError) -> Self {
        StandbyFault::Memory
    }
}

impl<T: Drop> From<AllocFailed<T>> for StandbyFault {
    ghost from_gives = { λ _ e. e ≡ NoMemory };

    fn from(_: AllocFailed<T>) -> Self {
        StandbyFault::Memory
    }
}

impl From<Memory> for StandbyFault {
    ghost from_gives = { λ _ e. e ≡ NoMemory };

    fn from(_: Memory) -> Self {
        StandbyFault::Memory
    }
}

/// The record of a payload: four bytes of length, the payload, and a closed gate.
fn record_of(alloc: Global, payload: &[u8]) -> Result<Vec<u8>, Memory>
    requires { length payload.now ≤ 4194304 }
    ensures { IfOk result (λ bytes. bytes.items ≡ framed payload.now) }
{
    let mut bytes = Vec::with_capacity(alloc, payload.len() + 5)?;
    bytes.extend_from_slice(&(payload.len() as u32).to_be_bytes())?;
    bytes.extend_from_slice(payload)?;
    bytes.push(0)?;
    Ok(bytes)
}

impl<K: Keeper> Standby<K> {
    ghost use Rattle.std.specs.Prelude.{◌≡◌, ◌≤◌, ◌+◌, length, IfOk, IfErr, ℕ};
    ghost use Rattle.news_types.specs.declared.entry.Entry.{Entry};
    ghost use Rattle.news_types.specs.Doubt.{DoubtsAfter};
    ghost use Rattle.news_io.specs.Keeper.{BeforeOrAfter, KeeperGains};
    ghost use Rattle.record_lines.specs.Spelling.{Numbered, kept_bytes};
    ghost use Rattle.record_lines.specs.Reads.{AreRecord};
    ghost use Rattle.standby_laws.specs.Standby.{SentRecord};
    ghost use Rattle.room_standby.specs.Holds.{Followed, Holds};
    ghost use Rattle.room_standby.specs.Takes.{fate_of, IsNext, IsRefused, IsStep, SameUnlessAsked, FaultCounts};
    ghost use Rattle.room_standby.specs.Takes.{Uses, IsTry, Adds, ListAfter};
    ghost use Rattle.room_standby.specs.Comes.{AreSent, Comes};

    /// Keeps a record, if it is the next one of the list.
    ///
    /// Only an accepted record changes the list, which it then ends. What is no record line, and a record that is known
    /// or ahead, is answered without memory, and the keeper is not asked.
    pub fn take(&mut self, line: &[u8]) -> Shipped
        ensures step { (b : Followed) → Holds K.keeper self.old b
            → (after : Followed) × Holds K.keeper self.new after × (after.told ≡ b.told)
            × IsStep b.standby line.now result after.standby }
        // Of a record line that was sent it makes what the event makes of it.
        ensures comes { (b : Followed) → Holds K.keeper self.old b → (s : SentRecord) → AreSent s line.now
            → Comes K.keeper b self.old self.new s result }
        ensures unasked { SameUnlessAsked self.old self.new result }
        ensures faults { FaultCounts (K.keeper.faults self.old.keeper) (K.keeper.faults self.new.keeper) result }
        ensures uses { (r : Numbered) → AreRecord r line.now
            → Uses (K.keeper.used self.old.keeper) (K.keeper.used self.new.keeper) (length r.payload) result }
        // What it has of the records, from which it is promoted, is what the keeper has.
        ensures adds { (r : Numbered) → AreRecord r line.now
            → Adds self.old.records.items self.new.records.items (K.keeper.used self.old.keeper) r.payload result }
        ensures label { K.keeper.label self.new.keeper ≡ K.keeper.label self.old.keeper }
        ensures told { K.keeper.tells self.old.keeper → K.keeper.tells self.new.keeper }
        ensures doubts { K.keeper.tells self.old.keeper → (r : Numbered) → AreRecord r line.now
            → DoubtsAfter (K.keeper.doubts self.old.keeper) (K.keeper.doubts self.new.keeper) r.payload (fate_of result) }
        // Each moment of the call leaves what the state before it allows, or the state after it.
        ensures crash { K.keeper.tells self.old.keeper → KeeperGains K.keeper self.old.keeper self.new.keeper
            (BeforeOrAfter (K.keeper.list self.old.keeper) (K.keeper.doubts self.old.keeper)
            (K.keeper.list self.new.keeper) (K.keeper.doubts self.new.keeper)) }
    {
        match self.judge(line) {
            Ok(next) => self.keep(next.payload),
            Err(answer) => answer,
        }
    }

    /// The record line that the bytes are, where that is the next one and of an entry, or else what is answered.
    fn judge<'a>(&self, line: &'a [u8]) -> Result<RecordLine<'a>, Shipped>
        ensures next { IfOk result (λ r. (e : Entry)
            × IsNext line.now (length self.now.records.items) (record { number = r.number; payload = r.payload.now }) e) }
        ensures refused { IfErr result (IsRefused (length self.now.records.items) line.now) }
    {
        let read = match whole_record(line) {
            Ok(read) => read,
            Err(left) => {
                return Err(Shipped::BadRecord {
                    at: (line.len() - left) as u64,
                });
            }
        };
        let count = self.records.len() as u64;
        if read.number <= count {
            return Err(Shipped::Known { count });
        }
        if read.number - 1 > count {
            return Err(Shipped::Ahead { count });
        }
        match moment_of(self.alloc, read.payload) {
            Ok(_) => Ok(read),
            Err(CodecFault::At { at }) => Err(Shipped::NoEntry { at }),
            Err(CodecFault::Memory) => Err(Shipped::Memory),
        }
    }

    /// Keeps the payload of the next record. What its copy takes of memory is taken before the keeper is asked.
    fn keep(&mut self, payload: &[u8]) -> Shipped
        requires { length payload.now ≤ 4194304 }
        ensures tried { IsTry result }
        ensures adds { Adds self.old.records.items self.new.records.items (K.keeper.used self.old.keeper) payload.now result }
        ensures unasked { SameUnlessAsked self.old self.new result }
        ensures faults { FaultCounts (K.keeper.faults self.old.keeper) (K.keeper.faults self.new.keeper) result }
        ensures uses { Uses (K.keeper.used self.old.keeper) (K.keeper.used self.new.keeper) (length payload.now) result }
        ensures label { K.keeper.label self.new.keeper ≡ K.keeper.label self.old.keeper }
        ensures told { K.keeper.tells self.old.keeper → K.keeper.tells self.new.keeper }
        ensures list { K.keeper.tells self.old.keeper
            → ListAfter (K.keeper.list self.old.keeper) (K.keeper.list self.new.keeper) payload.now result }
        ensures doubts { K.keeper.tells self.old.keeper
            → DoubtsAfter (K.keeper.doubts self.old.keeper) (K.keeper.doubts self.new.keeper) payload.now (fate_of result) }
        ensures crash { K.keeper.tells self.old.keeper → KeeperGains K.keeper self.old.keeper self.new.keeper
            (BeforeOrAfter (K.keeper.list self.old.keeper) (K.keeper.doubts self.old.keeper)
            (K.keeper.list self.new.keeper) (K.keeper.doubts self.new.keeper)) }
    {
        let Ok(framed) = record_of(self.alloc, payload) else {
            return Shipped::Memory;
        };
        let Ok(bytes) = Bytes::copy_of(self.alloc, payload) else {
            return Shipped::Memory;
        };
        if let Err(_) = self.records.reserve(1) {
            return Shipped::Memory;
        }
        let at = self.keeper.size().saturating_sub(1);
        match self.keeper.append(framed.as_slice(), LAST) {
            Ok(()) => {
                self.records.push_reserved(Record {
                    at,
                    side: false,
                    bytes,
                });
                Shipped::Accepted {
                    n: self.records.len() as u64,
                }
            }
            Err(AppendFault::Fault) => Shipped::Fault,
            Err(AppendFault::Full { size, length }) => Shipped::Full { size, length },
        }
    }

    /// How many records it has.
    pub fn count(&self) -> u64
        ensures { (b : Followed) → Holds K.keeper self.now b → result ≡ length b.standby.list }
    {
        self.records.len() as u64
    }

    /// The line that it answers to a record: how many records it has. It takes no memory.
    pub fn kept(&self) -> Line
        ensures { (b : Followed) → Holds K.keeper self.now b → result ≡ kept_bytes (length b.standby.list) }
    {
        kept_line(self.records.len() as u64)
    }

    /// The keeper, given back.
    pub fn into_keeper(self) -> K
        ensures { result ≡ self.keeper }
    {
        let Standby {
            alloc: _,
            keeper,
            records: _,
        } = self;
        keeper
    }
}
