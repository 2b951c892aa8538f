//! The newsroom, whose runs stop at any of their device calls.

use crate::chance::Chance;
use crate::link::{RoughLink, torn};
use list_marks::Unnoticed;
use news_io::{MemoryClock, MemoryDisk, MemorySink, MemorySource};
use news_types::{Memory, Text};
use newsdesk_cli::run;
use std::alloc::Global;
use std::mem;

/// How many of its runs stop.
const STOPS: u32 = 100;

/// The two files of a newsroom in memory, and its clock.
#[derive(Drop)]
pub struct Desk {
    alloc: Global,
    log: MemoryDisk,
    side: MemoryDisk,
    /// What the clock shows, in seconds since 1970-01-01T00:00:00Z.
    moment: u64,
    chance: Chance,
    stops: u32,
}

impl Desk {
    /// A new store.
    pub fn new(alloc: Global, seed: u64) -> Result<Desk, Memory> {
        let mut desk = Desk {
            alloc,
            log: MemoryDisk::new(alloc),
            side: MemoryDisk::new(alloc),
            moment: 1000,
            chance: Chance::new(seed),
            stops: 0,
        };
        let mut none = Vec::new(alloc);
        desk.run_words(
            "init s 6ba7b810-9dad-11d1-80b4-00c04fd430c8",
            "",
            &mut none,
            false,
        )?;
        Ok(desk)
    }

    /// How many runs stopped.
    pub fn stops(&self) -> u32 {
        self.stops
    }

    /// Runs these words over an input, on a disk that stops at one of its next calls if it is to. Then the store is what
    /// that leaves of it. It gives what was written.
    fn run_words(
        &mut self,
        words: &str,
        input: &str,
        links: &mut Vec<RoughLink>,
        stops: bool,
    ) -> Result<MemorySink, Memory> {
        let alloc = self.alloc;
        let mut texts = Vec::new(alloc);
        for word in words.split(' ') {
            texts.push(Text::copy_of(alloc, word)?)?;
        }
        let mut log = mem::replace(&mut self.log, MemoryDisk::new(alloc));
        let side = mem::replace(&mut self.side, MemoryDisk::new(alloc));
        if stops {
            log = log.stopped_after(u64::from(self.chance.draw() % 40));
        }
        let mut input = MemorySource::new(input.as_bytes().to_vec(alloc)?);
        let mut output = MemorySink::new(alloc);
        let mut clock = MemoryClock::new(vec![in alloc; self.moment]?);
        let (_, log, side) = run(
            alloc,
            &texts,
            &mut input,
            &mut output,
            log,
            side,
            &mut clock,
            links,
            &mut Unnoticed,
        );
        self.log = if stops {
            torn(alloc, &log, &mut self.chance)?
        } else {
            log
        };
        self.side = side;
        Ok(output)
    }

    /// Whether the next run is to stop: about every third, as long as there are stops to come.
    fn stops_next(&mut self) -> bool {
        if self.stops >= STOPS || self.chance.draw() % 3 != 0 {
            return false;
        }
        self.stops += 1;
        true
    }

    /// Sends a line until it was answered as done: a stop may have kept what it asks for, and then it is answered so again.
    pub fn ask(&mut self, line: &str) -> Result<bool, Memory> {
        let mut none = Vec::new(self.alloc);
        for _ in 0..100 {
            let stops = self.stops_next();
            let output = self.run_words("batch s", line, &mut none, stops)?;
            if is_done(output.as_bytes()) {
                return Ok(true);
            }
        }
        Ok(false)
    }

    /// Pushes what is due two hours later, when no feed has to wait, and resumes what has paused.
    pub fn push(&mut self, links: &mut Vec<RoughLink>) -> Result<(), Memory> {
        self.moment = self.moment.saturating_add(7200);
        let stops = self.stops_next();
        self.run_words("drain s alpha a beta b gamma c", "", links, stops)?;
        Ok(())
    }

    /// How the feeds stand.
    pub fn queue(&mut self) -> Result<MemorySink, Memory> {
        let mut none = Vec::new(self.alloc);
        self.run_words("queue s", "", &mut none, false)
    }

    /// Lets runs that ask nothing stop, until there were as many stops as there are to be.
    pub fn stop_to_the_end(&mut self) -> Result<(), Memory> {
        let mut none = Vec::new(self.alloc);
        for _ in 0..STOPS {
            if self.stops < STOPS {
                self.stops += 1;
                self.run_words("queue s", "", &mut none, true)?;
            }
        }
        Ok(())
    }
}

/// Whether an answer says that a request was done, now or before.
fn is_done(answer: &[u8]) -> bool {
    answer.starts_with(b"{\"answer\":\"done\"") || answer.starts_with(b"{\"answer\":\"repeat\"")
}
