//! The receiver.

ghost use Rattle.std.specs.Prelude.{◌≡◌, ◌+◌, ◌≤◌, ◌<◌, ℕ, List, length, IfOk, IfErr, MatchOption, MatchBool};
ghost use Rattle.news_types.specs.Frames.{Frame};
ghost use Rattle.news_io.specs.Keeper.{framed, BeforeOrAfter, KeeperGains};
ghost use Rattle.feed_receiver.specs.Spelling.{receipt_bytes};
ghost use Rattle.feed_receiver.specs.Feed.{AreNumber, AreFrames, HasBadFrame};

use crate::frame::whole_frame;
use crate::line::Line;
use crate::receipt::receipt_line;
use news_io::{AppendFault, Keeper, Record};
use news_types::{Memory, Name};
use std::alloc::Global;

/// The most bytes of a log that frames may use.
const LAST: u64 = 1073741824;

/// What a subscriber runs: it keeps each frame of its feed once, in order.
///
/// It stands for a name and the list of the frames that it accepted. The list itself is with the
/// keeper, and the receiver has their number.
#[derive(Drop)]
pub struct Receiver<K> {
    alloc: Global,
    keeper: K,
    name: Name,
    count: u32,
}

/// What a receiver answers to some bytes.
#[derive(Clone, Copy, Debug, PartialEq, Eq)]
pub enum Taken {
    /// They are no frame: the place of the first byte such that no frame begins with the bytes up to
    /// and with it, or their number where they end too soon. A byte past a frame's end is such a byte.
    BadFrame {
        at: u64,
    },
    /// A frame for another name.
    NotMine,
    /// A frame whose number is at most the number of frames that the receiver holds, which is given.
    Known {
        count: u32,
    },
    /// A frame whose number is past the next one; the number of frames that the receiver holds is given.
    Ahead {
        count: u32,
    },
    /// The next frame, which has number `k` and is now kept.
    Accepted {
        k: u32,
    },
    /// The next frame, which the keeper failed to keep: a crash may leave it at the list's end.
    Fault,
    /// The next frame, whose record would pass the limit of the log.
    Full {
        /// The bytes in use.
        size: u64,
        /// The frame's length.
        length: u64,
    },
    /// The next frame, for whose record memory is wanted.
    Memory,
}

/// Why records don't open to a receiver.
#[derive(Clone, Copy, Debug, PartialEq, Eq)]
pub enum ReceiverFault {
    /// A record is not the frame of its number for this name; the first such record begins here.
    Damaged { at: u64 },
    /// Want of memory. Opening takes none.
    Memory,
}

/// Whether the bytes are the frame of this name with this number.
fn is_number(name: &Name, k: u64, bytes: &[u8]) -> bool
    ensures { MatchBool result (AreNumber name.now k bytes.now) (AreNumber name.now k bytes.now → ⊥) }
{
    match whole_frame(bytes) {
        Ok(frame) => frame.to == *name && u64::from(frame.k) == k,
        Err(_) => false,
    }
}

/// Where the first record begins that is not the frame of its number.
fn damage(name: &Name, records: &[Record]) -> Option<u64>
    ensures { MatchOption result (AreFrames name.now records.now) (λ at. HasBadFrame name.now records.now at) }
{
    for (i, kept) in records.iter().enumerate() {
        if !is_number(name, i as u64 + 1, kept.bytes.as_slice()) {
            return Some(kept.at);
        }
    }
    None
}

/// The record of a frame: four bytes of length, the frame, and a closed gate.
fn record_of(alloc: Global, frame: &[u8]) -> Result<Vec<u8>, Memory>
    requires { length frame.now ≤ 4194304 }
    ensures { IfOk result (λ bytes. bytes.items ≡ framed frame.now) }
{
    let mut bytes = Vec::with_capacity(alloc, frame.len() + 5)?;
    bytes.extend_from_slice(&(frame.len() as u32).to_be_bytes())?;
    bytes.extend_from_slice(frame)?;
    bytes.push(0)?;
    Ok(bytes)
}

impl<K: Keeper> Receiver<K> {
    ghost use Rattle.news_types.specs.Doubt.{DoubtsAfter};
    ghost use Rattle.feed_receiver.specs.Takes.{IsRefused, IsStep, fate_of, SameUnlessAsked, IsCounted, numbers};
    ghost use Rattle.feed_receiver.specs.Holds.{Received, onto, Holds, OpensTo, GivesBack};

    /// The receiver of this name that holds the frames in these records.
    ///
    /// The keeper is the one whose log has the records. Where it tells its list, that is their
    /// payloads in order, and each payload in doubt is the frame that would come next.
    pub fn open(
        alloc: Global,
        keeper: K,
        name: Name,
        records: &[Record],
    ) -> Result<Receiver<K>, (K, ReceiverFault)>
        ensures opened { IfOk result (λ r. OpensTo K.keeper keeper name records.now r) }
        ensures damaged { IfErr result (λ back. GivesBack keeper name records.now back) }
    {
        if let Some(at) = damage(&name, records) {
            return Err((keeper, ReceiverFault::Damaged { at }));
        }
        Ok(Receiver {
            alloc,
            keeper,
            name,
            count: records.len() as u32,
        })
    }

    /// Keeps a frame, if it is the next one of this feed.
    ///
    /// Only an accepted frame changes the list, which it then ends. Bytes that are not the next frame
    /// are answered without memory, and the keeper is not asked.
    pub fn take(&mut self, frame: &[u8]) -> Taken
        ensures step { (more : List Frame) × ((b : Received) → Holds K.keeper self.old b → Holds K.keeper self.new (onto more b) × IsStep b.name b.frames frame.now result more) }
        ensures unasked { SameUnlessAsked self.old self.new result }
        ensures counts { IsCounted (numbers K.keeper self.old.keeper) (numbers K.keeper self.new.keeper) frame.now result }
        ensures label { K.keeper.label self.new.keeper ≡ K.keeper.label self.old.keeper }
        ensures told { K.keeper.tells self.old.keeper → K.keeper.tells self.new.keeper }
        ensures doubts { K.keeper.tells self.old.keeper → DoubtsAfter (K.keeper.doubts self.old.keeper) (K.keeper.doubts self.new.keeper) frame.now (fate_of result) }
        // Each moment of the call leaves what the state before it allows, or the state after it.
        ensures crash { K.keeper.tells self.old.keeper → KeeperGains K.keeper self.old.keeper self.new.keeper
            (BeforeOrAfter (K.keeper.list self.old.keeper) (K.keeper.doubts self.old.keeper) (K.keeper.list self.new.keeper) (K.keeper.doubts self.new.keeper)) }
    {
        let k = match self.judge(frame) {
            Ok(k) => k,
            Err(taken) => return taken,
        };
        let Ok(bytes) = record_of(self.alloc, frame) else {
            return Taken::Memory;
        };
        match self.keeper.append(bytes.as_slice(), LAST) {
            Ok(()) => {
                self.count = k;
                Taken::Accepted { k }
            }
            Err(AppendFault::Fault) => Taken::Fault,
            Err(AppendFault::Full { size, length }) => Taken::Full { size, length },
        }
    }

    /// The number of the next frame, where the bytes are that frame, or else what is answered.
    fn judge(&self, frame: &[u8]) -> Result<u32, Taken>
        ensures next { IfOk result (λ k. AreNumber self.now.name k frame.now × (k ≡ self.now.count + 1)) }
        ensures refused { IfErr result (λ taken. IsRefused self.now.name self.now.count frame.now taken) }
    {
        let read = match whole_frame(frame) {
            Ok(read) => read,
            Err(left) => {
                return Err(Taken::BadFrame {
                    at: (frame.len() - left) as u64,
                });
            }
        };
        let count = self.count;
        if read.to != self.name {
            Err(Taken::NotMine)
        } else if read.k <= count {
            Err(Taken::Known { count })
        } else if read.k - 1 > count {
            Err(Taken::Ahead { count })
        } else {
            Ok(read.k)
        }
    }

    /// How many frames it holds.
    pub fn count(&self) -> u32
        ensures { (b : Received) → Holds K.keeper self.now b → result ≡ length b.frames }
    {
        self.count
    }

    /// The line that it answers to a frame: its own name, and how many frames it holds. It takes no
    /// memory.
    pub fn receipt(&self) -> Line
        ensures { (b : Received) → Holds K.keeper self.now b → result ≡ receipt_bytes b.name (length b.frames) }
    {
        receipt_line(&self.name, self.count)
    }

    /// The keeper, given back.
    pub fn into_keeper(self) -> K
        ensures { result ≡ self.keeper }
    {
        let Receiver {
            alloc: _,
            keeper,
            name: _,
            count: _,
        } = self;
        keeper
    }
}
