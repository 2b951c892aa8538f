//! A newsroom takes the records of a list, one after another.
ghost use Rattle.std.specs.Prelude.{◌≡◌, ◌<◌, ◌+◌, ◌∷◌, [], length, All, IfOk, IfErr, OnErr, slice_get, Some};
ghost use Rattle.news_types.specs.History.{History};
ghost use Rattle.newsroom.specs.Stands.{StandsFor, store_of};
ghost use Rattle.newsroom.specs.Acts.{IsSmall};
ghost use Rattle.news_room.specs.Log.{IsStored};
ghost use Rattle.news_room.specs.Opening.{damaged_in, Takes, Keeps, Reads, replies_plainly};
ghost use Rattle.news_room.specs.declared.answers.RoomFault.TheVariants.{Memory};

use crate::answers::RoomFault;
use entry_codec::{CodecFault, decode};
use news_io::Record;
use news_types::{Act, Entry, Reply};
use newsroom::{Newsroom, Prepared};
use std::alloc::Global;
use uuid::Uuid;

/// A newsroom that takes the records of a list one after another, and stands for the list of their entries.
#[derive(Drop)]
pub struct Replay {
    pub(crate) alloc: Global,
    pub(crate) machine: Newsroom,
}

impl Replay {
    ghost use Rattle.newsroom.specs.Stands as machine;

    /// The newsroom of this store that has taken nothing yet. An error is only want of memory.
    pub fn new(alloc: Global, store: Uuid) -> Result<Replay, RoomFault>
        ensures stands { IfOk result (λ replay. StandsFor replay.machine []) }
        ensures store { IfOk result (λ replay. store_of replay.machine ≡ store) }
        ensures memory { IfErr result (λ fault. fault ≡ Memory) }
    {
        match Newsroom::new(alloc, store) {
            Ok(machine) => Ok(Replay { alloc, machine }),
            Err(_) => Err(RoomFault::Memory),
        }
    }

    /// The newsroom of this store that has taken these records.
    ///
    /// Damage is told of the first record that is no entry, or whose entry may not follow those before it, and in the file
    /// that this record is of.
    pub fn of(alloc: Global, store: Uuid, records: &[Record]) -> Result<Replay, RoomFault>
        requires few { length records.now < 2147483648 }
        requires places { All (λ r. r.at < 4294967296) records.now }
        ensures reads { Reads records.now result }
        ensures store { IfOk result (λ replay. store_of replay.machine ≡ store) }
    {
        let mut replay = Replay::new(alloc, store)?;
        for here in records {
            replay.take(here)?;
        }
        Ok(replay)
    }

    /// Takes the entry of one more record, and tells the reply to it. Damage and want of memory leave the list as it was.
    pub fn take(&mut self, here: &Record) -> Result<Reply, RoomFault>
        requires stands { (h : History) × (StandsFor self.old.machine h × (length h < 2147483648)) }
        requires place { here.now.at < 4294967296 }
        ensures takes { (h : History) → StandsFor self.old.machine h → IsStored h → Takes self.new.machine h here.now result }
        ensures stays { (h : History) → StandsFor self.old.machine h → OnErr result (StandsFor self.new.machine h) }
        ensures store { store_of self.new.machine ≡ store_of self.old.machine }
    {
        match decode(self.alloc, here.bytes.as_slice()) {
            Ok(entry) => {
                let kept = self.keep(here, &entry);
                drop(entry);
                kept
            }
            Err(CodecFault::At { at }) => Err(no_entry(here, at)),
            Err(CodecFault::Memory) => Err(RoomFault::Memory),
        }
    }

    /// Takes the entry that a record holds, where it may follow, and tells the reply to it; else the list is as it was.
    pub fn keep(&mut self, here: &Record, entry: &Entry) -> Result<Reply, RoomFault>
        requires stands { (h : History) × (StandsFor self.old.machine h × (length h < 2147483648)) }
        requires early { entry.now.moment < 253402300800 }
        ensures keeps { (h : History) → StandsFor self.old.machine h → Keeps self.new.machine h here.now entry.now result }
        ensures stays { (h : History) → StandsFor self.old.machine h → OnErr result (StandsFor self.new.machine h) }
        ensures store { store_of self.new.machine ≡ store_of self.old.machine }
    {
        match &entry.act {
            Act::Request { .. } | Act::Ingest { .. } => {
                keep_large(&mut self.machine, here, entry)
            }
            _ => keep_small(&mut self.machine, here, entry),
        }
    }

    /// The newsroom, to be read: nothing is copied.
    pub fn newsroom(&self) -> &Newsroom
        ensures { result.now ≡ self.now.machine }
    {
        &self.machine
    }
}

// Damage at a place of the file that a record is of.
fn damage(here: &Record, at: u64, found: Option<u8>) -> RoomFault
    ensures { result ≡ damaged_in here.now.side at found }
{
    if here.side {
        return RoomFault::DamagedSide { at, found };
    }
    RoomFault::Damaged { at, found }
}

// Where the payload is no entry.
fn no_entry(here: &Record, place: u64) -> RoomFault
    requires at { here.now.at < 4294967296 }
    requires place { place < 9223372036854775808 }
    ensures { result ≡ damaged_in here.now.side (here.now.at + 5 + place) (slice_get here.now.bytes place) }
{
    let found = here.bytes.as_slice().get(place as usize).copied();
    damage(here, here.at + 5 + place, found)
}

// Where an entry may not follow: its record's gate, which is 1.
fn unlawful(here: &Record) -> RoomFault
    ensures { result ≡ damaged_in here.now.side here.now.at (Some 1) }
{
    damage(here, here.at, Some(1))
}

// Keeps a request or an ingest, where it may follow.
fn keep_large(machine: &mut Newsroom, here: &Record, entry: &Entry) -> Result<Reply, RoomFault>
    requires stands { (h : History) × (StandsFor machine.old h × (length h < 2147483648)) }
    requires large { IsSmall entry.now.act → ⊥ }
    ensures keeps { (h : History) → StandsFor machine.old h → Keeps machine.new h here.now entry.now result }
    ensures stays { (h : History) → StandsFor machine.old h → OnErr result (StandsFor machine.new h) }
    ensures store { store_of machine.new ≡ store_of machine.old }
{
    if entry.moment < machine.moment() {
        return Err(unlawful(here));
    }
    match machine.prepare(&entry.act, entry.moment) {
        Prepared::Change(change) => Ok(machine.commit(change)),
        Prepared::Memory => Err(RoomFault::Memory),
        Prepared::Settled(_) | Prepared::Repeat(_) | Prepared::Denied(_) => Err(unlawful(here)),
    }
}

// Keeps one of the other acts, where it may follow. It takes no memory.
fn keep_small(machine: &mut Newsroom, here: &Record, entry: &Entry) -> Result<Reply, RoomFault>
    requires stands { (h : History) × (StandsFor machine.old h × (length h < 2147483648)) }
    requires small { IsSmall entry.now.act }
    requires early { entry.now.moment < 253402300800 }
    ensures keeps { (h : History) → StandsFor machine.old h → Keeps machine.new h here.now entry.now result }
    ensures stays { (h : History) → StandsFor machine.old h → OnErr result (StandsFor machine.new h) }
    ensures store { store_of machine.new ≡ store_of machine.old }
{
    if !machine.legal(&entry.act, entry.moment) {
        return Err(unlawful(here));
    }
    machine.apply(&entry.act, entry.moment);
    Ok(plain_reply(machine.entries()))
}

// The reply to one of the other acts, which is the entry of that place.
fn plain_reply(place: u64) -> Reply
    ensures { result ≡ replies_plainly place }
{
    Reply {
        entry: place,
        item: 0,
        publication: 0,
        release: 0,
    }
}
