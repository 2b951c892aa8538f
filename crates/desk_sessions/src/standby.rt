//! A standby in memory, and the link to it.
ghost use Rattle.std.specs.Prelude.{◌≡◌, ◌≤◌, take};
ghost use Rattle.news_io.specs.Link.{IsReply};

use crate::texts::text_of;
use list_marks::Unnoticed;
use news_io::{
    Failed, Faults, Link, MemoryClock, MemoryDisk, MemorySink, MemorySource, UnreachableLink,
};
use news_types::{Memory, Name, Names, Text};
use newsdesk_cli::run;
use std::alloc::Global;
use std::mem;

/// The words with which the standby takes what comes.
const WORDS: [&str; 3] = ["stand-in", "s", "6ba7b810-9dad-11d1-80b4-00c04fd430c8"];

/// The two files of a standby, in memory.
#[derive(Drop)]
pub(crate) struct Standby {
    alloc: Global,
    pub(crate) log: MemoryDisk,
    pub(crate) side: MemoryDisk,
    /// What the last frame was answered.
    reply: Vec<u8>,
    /// What passed over the link to it, each frame and each reply as a line.
    passed: Vec<u8>,
}

/// A link to a standby, for the names that it is given.
#[derive(Drop)]
pub(crate) struct StandbyLink {
    names: Names,
    standby: Standby,
    faults: Faults,
}

/// Puts the first line of a reply into a piece, if it fits, and gives its length.
fn put_line(reply: &[u8], into: &mut [u8; 128]) -> usize
    ensures within { result ≤ 128 }
    ensures reply { IsReply (take result into.new) }
{
    let Some(at) = reply.iter().position(|byte| *byte == b'\n') else {
        return 0;
    };
    if at >= 128 {
        return 0;
    }
    into[..at + 1].copy_from_slice(&reply[..at + 1]);
    at + 1
}

impl Standby {
    /// Two empty files.
    pub(crate) fn new(alloc: Global) -> Standby {
        Standby {
            alloc,
            log: MemoryDisk::new(alloc),
            side: MemoryDisk::new(alloc),
            reply: Vec::new(alloc),
            passed: Vec::new(alloc),
        }
    }

    /// What passed over the link by now; from here on nothing has.
    pub(crate) fn take_passed(&mut self) -> Vec<u8> {
        mem::replace(&mut self.passed, Vec::new(self.alloc))
    }

    /// Notes what passed over the link, as a line.
    fn note(&mut self, way: &str, bytes: &[u8]) -> Result<(), Memory> {
        let text = text_of(self.alloc, bytes)?;
        self.passed.extend_from_slice(way.as_bytes())?;
        self.passed.extend_from_slice(text.as_bytes())?;
        self.passed.push(b'\n')?;
        Ok(())
    }

    /// Takes a frame as the input of the command that stands in.
    fn take(&mut self, frame: &[u8]) -> Result<(), Memory> {
        self.note("> ", frame)?;
        let mut words = Vec::new(self.alloc);
        for word in WORDS {
            words.push(Text::copy_of(self.alloc, word)?)?;
        }
        let mut input = MemorySource::new(frame.to_vec(self.alloc)?);
        let mut output = MemorySink::new(self.alloc);
        let mut clock = MemoryClock::new(vec![in self.alloc; 0]?);
        let mut links: Vec<UnreachableLink> = Vec::new(self.alloc);
        let log = mem::replace(&mut self.log, MemoryDisk::new(self.alloc));
        let side = mem::replace(&mut self.side, MemoryDisk::new(self.alloc));
        let (_, log, side) = run(
            self.alloc,
            &words,
            &mut input,
            &mut output,
            log,
            side,
            &mut clock,
            &mut links,
            &mut Unnoticed,
        );
        self.log = log;
        self.side = side;
        self.reply = output.as_bytes().to_vec(self.alloc)?;
        let reply = output.as_bytes();
        self.note("< ", reply)
    }
}

impl StandbyLink {
    ghost use Rattle.desk_sessions.specs.Links.{standby_link};

    /// A link to this standby, under these names.
    pub(crate) fn new(names: Names, standby: Standby) -> StandbyLink {
        StandbyLink {
            names,
            standby,
            faults: Faults::none(),
        }
    }

    /// The standby.
    pub(crate) fn into_standby(self) -> Standby {
        self.standby
    }
}

impl Link for StandbyLink {
    ghost use Rattle.desk_sessions.specs.Links.{standby_link};

    ghost link = { standby_link };

    fn names(&self) -> &[Name] {
        self.names.as_slice()
    }

    /// A frame for which there is no memory is not sent, and counts as a fault.
    fn send(&mut self, _subscriber: &Name, frame: &[u8]) -> Result<(), Failed> {
        match self.standby.take(frame) {
            Ok(()) => Ok(()),
            Err(Memory) => Err(self.faults.fail()),
        }
    }

    fn receipt(&mut self, _subscriber: &Name, into: &mut [u8; 128]) -> Result<usize, Failed> {
        Ok(put_line(&self.standby.reply, into))
    }
}
