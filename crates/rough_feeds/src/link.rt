//! A link that loses, repeats and mixes up what it is given, to receivers that stop.
ghost use Rattle.std.specs.Prelude.{◌≡◌, ◌≤◌, take};
ghost use Rattle.news_io.specs.Link.{IsReply};

use crate::chance::Chance;
use news_io::{Disk, Failed, Faults, Link, MemoryDisk, MemorySink, MemorySource, Tear};
use news_types::{Memory, Name, Names};
use receiver_files::receive_frames;
use std::alloc::Global;
use std::mem;

/// How many mishaps there are on the way.
const MISHAPS: u32 = 200;

/// A frame that was sent.
#[derive(Drop)]
struct Sent {
    /// The place of its subscriber among the names.
    place: usize,
    frame: Vec<u8>,
}

/// A link to receivers over files in memory.
#[derive(Drop)]
pub struct RoughLink {
    names: Names,
    way: Way,
    faults: Faults,
}

/// The way to them, on which there are mishaps.
#[derive(Drop)]
struct Way {
    alloc: Global,
    /// The receivers' files, in the order of their names.
    logs: Vec<MemoryDisk>,
    chance: Chance,
    /// Every frame that was sent.
    sent: Vec<Sent>,
    /// What the last frame was answered.
    reply: Vec<u8>,
    mishaps: u32,
}

/// Puts the first line of a reply into a piece, if it fits, and gives its length.
fn put_line(reply: &[u8], into: &mut [u8; 128]) -> usize
    ensures within { result ≤ 128 }
    ensures reply { IsReply (take result into.new) }
{
    let Some(at) = reply.iter().position(|byte| *byte == b'\n') else {
        return 0;
    };
    if at >= 128 {
        return 0;
    }
    into[..at + 1].copy_from_slice(&reply[..at + 1]);
    at + 1
}

/// What a stop leaves of a file.
pub fn torn(alloc: Global, disk: &MemoryDisk, chance: &mut Chance) -> Result<MemoryDisk, Memory> {
    let tear = Tear {
        landed: u64::from(chance.draw() % 65536),
        reach: u64::from(chance.draw() % 65536),
        fill: (chance.draw() % 256) as u8,
    };
    let image = disk.after_crash(tear)?;
    MemoryDisk::holding(alloc, &image)
}

impl RoughLink {
    ghost use Rattle.rough_feeds.specs.Links.{rough_link};

    /// A link to receivers of these names, whose files are empty logs of theirs.
    pub fn new(alloc: Global, names: Names, seed: u64) -> Result<RoughLink, Memory> {
        let mut logs = Vec::new(alloc);
        for name in names.as_slice() {
            let mut none = MemorySource::new(Vec::new(alloc));
            let mut output = MemorySink::new(alloc);
            let (_, log) = receive_frames(
                alloc,
                &mut none,
                &mut output,
                MemoryDisk::new(alloc),
                *name,
            );
            logs.push(log)?;
        }
        Ok(RoughLink {
            names,
            way: Way {
                alloc,
                logs,
                chance: Chance::new(seed),
                sent: Vec::new(alloc),
                reply: Vec::new(alloc),
                mishaps: 0,
            },
            faults: Faults::none(),
        })
    }

    /// The receivers' files, in the order of the names.
    pub fn logs(&self) -> &[MemoryDisk] {
        self.way.logs.as_slice()
    }

    /// How many mishaps there were.
    pub fn mishaps(&self) -> u32 {
        self.way.mishaps
    }

    /// Lets earlier frames come again until there were as many mishaps as there are to be.
    pub fn repeat_to_the_end(&mut self) -> Result<(), Memory> {
        for _ in 0..MISHAPS {
            if self.way.mishaps < MISHAPS {
                self.way.mishaps += 1;
                self.way.come_again(self.names.as_slice())?;
            }
        }
        Ok(())
    }
}

impl Way {
    /// A frame reaches a receiver, which stops at one of its device calls if it is to.
    fn come(
        &mut self,
        names: &[Name],
        place: usize,
        frame: &[u8],
        stop: Option<u64>,
    ) -> Result<(), Memory> {
        let Some(name) = names.get(place) else {
            return Ok(());
        };
        let Some(log) = self.logs.get_mut(place) else {
            return Ok(());
        };
        let mut disk = mem::replace(log, MemoryDisk::new(self.alloc));
        if let Some(calls) = stop {
            disk = disk.stopped_after(calls);
        }
        let mut input = MemorySource::new(frame.to_vec(self.alloc)?);
        let mut output = MemorySink::new(self.alloc);
        let (_, left) = receive_frames(self.alloc, &mut input, &mut output, disk, *name);
        if stop.is_some() {
            *log = torn(self.alloc, &left, &mut self.chance)?;
            self.reply = Vec::new(self.alloc);
        } else {
            *log = left;
            self.reply = output.as_bytes().to_vec(self.alloc)?;
        }
        Ok(())
    }

    /// Some earlier frame comes again.
    fn come_again(&mut self, names: &[Name]) -> Result<(), Memory> {
        let count = self.sent.len();
        if count == 0 {
            return Ok(());
        }
        let which = self.chance.draw() as usize % count;
        let place = self.sent[which].place;
        let frame = self.sent[which].frame.to_vec(self.alloc)?;
        self.come(names, place, &frame, None)
    }

    /// What becomes of a frame: whether the link took it.
    fn carry(&mut self, names: &[Name], subscriber: &Name, frame: &[u8]) -> Result<bool, Memory> {
        let Some(place) = names.iter().position(|other| *other == *subscriber) else {
            return Ok(false);
        };
        self.reply = Vec::new(self.alloc);
        self.sent.push(Sent {
            place,
            frame: frame.to_vec(self.alloc)?,
        })?;
        if self.mishaps >= MISHAPS {
            self.come(names, place, frame, None)?;
            return Ok(true);
        }
        self.mishaps += 1;
        match self.chance.draw() % 12 {
            // it is lost, or the connection is
            0 => {}
            1 => return Ok(false),
            // it comes twice
            2 => {
                self.come(names, place, frame, None)?;
                self.come(names, place, frame, None)?;
            }
            // an earlier one comes before it, or behind it, and then that one's reply is read
            3 => {
                self.come_again(names)?;
                self.come(names, place, frame, None)?;
            }
            4 => {
                self.come(names, place, frame, None)?;
                self.come_again(names)?;
            }
            // the receiver stops while it takes it
            5 => {
                let calls = u64::from(self.chance.draw() % 9);
                self.come(names, place, frame, Some(calls))?;
            }
            _ => {
                self.mishaps -= 1;
                self.come(names, place, frame, None)?;
            }
        }
        Ok(true)
    }
}

impl Link for RoughLink {
    ghost use Rattle.rough_feeds.specs.Links.{rough_link};

    ghost link = { rough_link };

    fn names(&self) -> &[Name] {
        self.names.as_slice()
    }

    /// A frame for which there is no memory is not sent, and counts as a fault.
    fn send(&mut self, subscriber: &Name, frame: &[u8]) -> Result<(), Failed> {
        match self.way.carry(self.names.as_slice(), subscriber, frame) {
            Ok(true) => Ok(()),
            _ => Err(self.faults.fail()),
        }
    }

    fn receipt(&mut self, _subscriber: &Name, into: &mut [u8; 128]) -> Result<usize, Failed> {
        Ok(put_line(&self.way.reply, into))
    }
}
