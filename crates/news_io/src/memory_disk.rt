//! A disk in memory, of which a crash may tear each write since the last sync.
ghost use Rattle.std.specs.Prelude.{◌≡◌, ◌≤◌, ◌<◌, ◌+◌, ◌-◌, ◌++◌, ◌^◌, [], ◌∷◌, List, ℕ, length, take, max, IfOk, OnOk, OnErr};
ghost use Rattle.news_io.specs.Disk.{Holds, Torn, Only};
ghost use Rattle.news_io.specs.Replay.{StepsTo};

use crate::script::Script;
use crate::{Disk, Failed};
use news_types::Memory;
use std::alloc::Global;

/// How a crash tears what was written since the last sync: each write changes the bytes before the place `reach` alone, and of
/// these the ones before `landed` are as they were written, the others `fill`.
#[derive(Clone, Copy, Debug, PartialEq, Eq)]
pub struct Tear {
    pub landed: u64,
    pub reach: u64,
    pub fill: u8,
}

/// What was done to the disk.
#[derive(Drop)]
pub(crate) enum Event {
    /// A write of so many bytes at a place.
    Write { at: u64, length: u64 },
    /// A sync, with what was there.
    Sync { bytes: Vec<u8> },
}

/// A disk in memory. It keeps what was done to it, so that each moment of a crash can be asked for.
#[derive(Drop)]
pub struct MemoryDisk {
    alloc: Global,
    bytes: Vec<u8>,
    first: Vec<u8>,
    events: Vec<Event>,
    script: Script,
}

fn copy_of(alloc: Global, bytes: &[u8]) -> Result<Vec<u8>, Memory>
    ensures { IfOk result (λ copy. copy.items ≡ bytes.now) }
{
    Ok(bytes.to_vec(alloc)?)
}

/// Adds an event, or leaves the list as it was.
fn note(events: &mut Vec<Event>, event: Event) -> Result<(), Memory>
    ensures ok { OnOk result (events.new.items ≡ events.old.items ++ event ∷ []) }
    ensures err { OnErr result (events.new.items ≡ events.old.items) }
{
    events.push(event)?;
    Ok(())
}

/// Takes the newest event back.
fn undo(events: &mut Vec<Event>)
    ensures { events.new.items ≡ take (length events.old.items - 1) events.old.items }
{
    let count = events.len();
    events.truncate(count.saturating_sub(1));
}

/// Makes the file reach to `end`.
fn stretch(bytes: &mut Vec<u8>, end: usize) -> Result<(), Memory>
    ensures ok { OnOk result ((pad : List ℕ) × (bytes.new.items ≡ bytes.old.items ++ pad) × (length bytes.new.items ≡ max (length bytes.old.items) end)) }
    ensures err { OnErr result (bytes.new.items ≡ bytes.old.items) }
{
    if end > bytes.len() {
        bytes.resize(end, 0)?;
    }
    Ok(())
}

fn overwrite(bytes: &mut [u8], at: usize, from: &[u8])
    requires { at + length from.now ≤ length bytes.old }
    ensures { Holds bytes.old at from.now bytes.new }
{
    bytes[at..at + from.len()].copy_from_slice(from);
}

/// Writes these bytes over what is there, and past the end.
fn put(bytes: &mut Vec<u8>, at: usize, from: &[u8]) -> Result<(), Memory>
    requires { at + length from.now < 2 ^ 64 }
    ensures held { at ≤ length bytes.old.items → OnOk result (Holds bytes.old.items at from.now bytes.new.items) }
    ensures torn { Torn at (length from.now) bytes.old.items bytes.new.items }
    ensures long { OnOk result (at + length from.now ≤ length bytes.new.items) }
    ensures err { OnErr result (bytes.new.items ≡ bytes.old.items) }
{
    stretch(bytes, at + from.len())?;
    overwrite(bytes, at, from);
    Ok(())
}

/// What a torn write of so many bytes at a place leaves of them, where a read would give `seen`.
fn torn_piece(
    alloc: Global,
    seen: &[u8],
    at: u64,
    count: u64,
    tear: Tear,
) -> Result<Vec<u8>, Memory>
    ensures short { IfOk result (λ piece. length piece.items ≤ count) }
    ensures fits { IfOk result (λ piece. at + length piece.items < 2 ^ 64) }
{
    let end = at.saturating_add(count).min(tear.reach) as usize;
    let end = end.min(seen.len());
    let from = (at as usize).min(end);
    let mut piece = copy_of(alloc, &seen[from..end])?;
    let landed = tear.landed.saturating_sub(at) as usize;
    for byte in piece.iter_mut().skip(landed) {
        *byte = tear.fill;
    }
    Ok(piece)
}

impl MemoryDisk {
    ghost use Rattle.news_io.specs.Devices.{memory_disk};

    /// An empty disk.
    pub fn new(alloc: Global) -> MemoryDisk
        ensures seen { memory_disk.seen result ≡ [] }
        ensures tells { memory_disk.tells result }
        ensures kept { Only [] (memory_disk.may_leave result) }
        ensures faults { memory_disk.faults result ≡ 0 }
    {
        MemoryDisk {
            alloc,
            bytes: Vec::new(alloc),
            first: Vec::new(alloc),
            events: Vec::new(alloc),
            script: Script::failing_at(Vec::new(alloc)),
        }
    }

    /// A disk with these bytes, all of which a crash leaves.
    pub fn holding(alloc: Global, bytes: &[u8]) -> Result<MemoryDisk, Memory>
        ensures seen { IfOk result (λ disk. memory_disk.seen disk ≡ bytes.now) }
        ensures tells { IfOk result memory_disk.tells }
        ensures kept { IfOk result (λ disk. Only bytes.now (memory_disk.may_leave disk)) }
        ensures faults { IfOk result (λ disk. memory_disk.faults disk ≡ 0) }
    {
        Ok(MemoryDisk {
            alloc,
            bytes: copy_of(alloc, bytes)?,
            first: copy_of(alloc, bytes)?,
            events: Vec::new(alloc),
            script: Script::failing_at(Vec::new(alloc)),
        })
    }

    /// The same disk, whose calls with these numbers are to fail, numbered from 1 from here on.
    pub fn failing_at(mut self, calls: Vec<u64>) -> MemoryDisk
        ensures seen { memory_disk.seen result ≡ memory_disk.seen self }
        ensures tells { memory_disk.tells self → memory_disk.tells result }
        ensures kept { (c : List ℕ) → memory_disk.may_leave result c → memory_disk.may_leave self c }
        ensures faults { memory_disk.faults result ≡ 0 }
    {
        self.script = Script::failing_at(calls);
        self
    }

    /// The same disk, which does so many calls more and fails each later one.
    pub fn stopped_after(mut self, calls: u64) -> MemoryDisk
        ensures seen { memory_disk.seen result ≡ memory_disk.seen self }
        ensures tells { memory_disk.tells self → memory_disk.tells result }
        ensures kept { (c : List ℕ) → memory_disk.may_leave result c → memory_disk.may_leave self c }
        ensures faults { memory_disk.faults result ≡ 0 }
    {
        self.script = Script::stopped_after(calls, Vec::new(self.alloc));
        self
    }

    /// What a crash now may leave, where it tears so.
    pub fn after_crash(&self, tear: Tear) -> Result<Vec<u8>, Memory>
        ensures left { IfOk result (λ image. memory_disk.may_leave self.now image.items) }
    {
        let mut image = copy_of(self.alloc, &self.first)?;
        for event in &self.events {
            self.do_again(event, tear, &mut image)?;
        }
        Ok(image)
    }

    // Does to the image what was done to the disk, with each write torn.
    fn do_again(&self, event: &Event, tear: Tear, image: &mut Vec<u8>) -> Result<(), Memory>
        ensures step { OnOk result (StepsTo event.now image.old.items image.new.items) }
    {
        match event {
            Event::Sync { bytes } => {
                *image = copy_of(self.alloc, bytes)?;
                Ok(())
            }
            Event::Write { at, length } => {
                let piece = torn_piece(self.alloc, &self.bytes, *at, *length, tear)?;
                put(image, *at as usize, &piece)?;
                Ok(())
            }
        }
    }

    /// The bytes that a read gives.
    pub fn as_bytes(&self) -> &[u8]
        ensures { result.now ≡ memory_disk.seen self.now }
    {
        self.bytes.as_slice()
    }

    /// How many of its calls failed.
    pub fn fault_count(&self) -> u64
        ensures { result ≡ memory_disk.faults self.now }
    {
        self.script.faults.count()
    }

    /// How many calls were made of it.
    pub fn call_count(&self) -> u64
        ensures { result ≡ memory_disk.calls self.now }
    {
        self.script.calls
    }
}

impl Disk for MemoryDisk {
    ghost use Rattle.news_io.specs.Devices.{memory_disk};

    ghost disk = { memory_disk };

    fn size(&mut self) -> Result<u64, Failed> {
        self.script.begin()?;
        Ok(self.bytes.len() as u64)
    }

    fn read(&mut self, at: u64, into: &mut [u8]) -> Result<usize, Failed> {
        self.script.begin()?;
        if at as usize >= self.bytes.len() {
            return Ok(0);
        }
        let from = &self.bytes[at as usize..];
        let count = from.len().min(into.len());
        into[..count].copy_from_slice(&from[..count]);
        Ok(count)
    }

    fn write_at(&mut self, at: u64, from: &[u8]) -> Result<(), Failed> {
        self.script.begin()?;
        let length = from.len() as u64;
        if at > u64::MAX - length {
            return Err(self.script.faults.fail());
        }
        if let Err(_) = note(&mut self.events, Event::Write { at, length }) {
            return Err(self.script.faults.fail());
        }
        if let Err(_) = put(&mut self.bytes, at as usize, from) {
            undo(&mut self.events);
            return Err(self.script.faults.fail());
        }
        Ok(())
    }

    fn sync(&mut self) -> Result<(), Failed> {
        self.script.begin()?;
        let Ok(bytes) = copy_of(self.alloc, &self.bytes) else {
            return Err(self.script.faults.fail());
        };
        if let Err(_) = note(&mut self.events, Event::Sync { bytes }) {
            return Err(self.script.faults.fail());
        }
        Ok(())
    }
}
