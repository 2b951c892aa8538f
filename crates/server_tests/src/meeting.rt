//! Two links that wait for one another, and a door whose one connection waits for both.
ghost use Rattle.std.specs.Prelude.{[]};
ghost use Rattle.news_io.specs.Devices.{memory_keeper, memory_source};
ghost use Rattle.feed_links.specs.Links.{memory_link};

use feed_links::MemoryLink;
use news_io::{Failed, Faults, Link, MemoryKeeper, MemorySink, MemorySource, Source};
use news_types::Name;
use server_doors::Door;
use std::alloc::Global;
use std::sync::atomic::AtomicBool;
use std::sync::atomic::Ordering::SeqCst;
use std::thread::sleep;
use std::time::{Clock, Duration};

/// How often a flag is looked at.
const LOOKS: u32 = 1000;

/// The time between two looks, in milliseconds.
const PAUSE: u64 = 10;

/// Waits for a flag, and tells whether it was set in time.
fn comes_in_time<R: Clock>(rt: &R, flag: &AtomicBool) -> bool {
    for _ in 0..LOOKS {
        if flag.load(SeqCst) {
            return true;
        }
        sleep(rt, Duration::from_millis(PAUSE));
    }
    false
}

/// A link in memory. It gives its replies only once the other link was to send, or an empty one where that doesn't come in
/// time. It tells nothing of its frames and replies.
#[derive(Drop)]
pub(crate) struct MeetLink<'a, R> {
    pub(crate) inner: MemoryLink<MemoryKeeper>,
    rt: &'a R,
    /// Set once this link was to send.
    mine: &'a AtomicBool,
    /// Set once the other was.
    others: &'a AtomicBool,
}

impl<'a, R> MeetLink<'a, R> {
    pub(crate) fn new(
        rt: &'a R,
        inner: MemoryLink<MemoryKeeper>,
        mine: &'a AtomicBool,
        others: &'a AtomicBool,
    ) -> MeetLink<'a, R> {
        MeetLink {
            inner,
            rt,
            mine,
            others,
        }
    }
}

impl<'a, R: Clock> Link for MeetLink<'a, R> {
    ghost link = { record {
      faults = λ l. (memory_link memory_keeper).faults l.inner;
      serves = λ l. (memory_link memory_keeper).serves l.inner;
      tells = λ l. ⊥;
      sent = λ l. [];
      said = λ l. [];
      step = λ old new p. ⊥;
    } };

    fn names(&self) -> &[Name] {
        self.inner.names()
    }

    fn send(&mut self, subscriber: &Name, frame: &[u8]) -> Result<(), Failed> {
        self.mine.store(true, SeqCst);
        self.inner.send(subscriber, frame)
    }

    fn receipt(&mut self, subscriber: &Name, into: &mut [u8; 128]) -> Result<usize, Failed> {
        if !comes_in_time(self.rt, self.others) {
            return Ok(0);
        }
        self.inner.receipt(subscriber, into)
    }
}

/// The input of a connection, of which nothing is read before both links were to send, or before that hasn't come in time.
#[derive(Drop)]
pub(crate) struct MeetSource<'a, R> {
    inner: MemorySource,
    rt: &'a R,
    flags: (&'a AtomicBool, &'a AtomicBool),
    has_begun: bool,
}

impl<'a, R: Clock> Source for MeetSource<'a, R> {
    ghost source = { record {
      faults = λ s. memory_source.faults s.inner;
      tells = λ s. ⊥;
      ahead = λ s. [];
    } };

    fn read(&mut self, into: &mut [u8]) -> Result<usize, Failed> {
        if !self.has_begun {
            self.has_begun = true;
            comes_in_time(self.rt, self.flags.0);
            comes_in_time(self.rt, self.flags.1);
        }
        self.inner.read(into)
    }
}

/// A door of one connection.
#[derive(Drop)]
pub(crate) struct MeetDoor<'a, R> {
    alloc: Global,
    input: Option<MeetSource<'a, R>>,
    faults: Faults,
}

impl<'a, R> MeetDoor<'a, R> {
    /// A door whose connection gives these bytes once both flags are set.
    pub(crate) fn new(
        rt: &'a R,
        alloc: Global,
        bytes: Vec<u8>,
        flags: (&'a AtomicBool, &'a AtomicBool),
    ) -> MeetDoor<'a, R> {
        MeetDoor {
            alloc,
            input: Some(MeetSource {
                inner: MemorySource::new(bytes),
                rt,
                flags,
                has_begun: false,
            }),
            faults: Faults::none(),
        }
    }
}

impl<'a, R: Clock> Door for MeetDoor<'a, R> {
    type In = MeetSource<'a, R>;

    type Out = MemorySink;

    ghost door = { record {
      faults = λ d. d.faults;
      tells = λ d. ⊥;
      given = λ d. [];
      returned = λ d. [];
    } };

    fn accept(&mut self) -> Result<(MeetSource<'a, R>, MemorySink), Failed> {
        match self.input.take() {
            Some(input) => Ok((input, MemorySink::new(self.alloc))),
            None => Err(self.faults.fail()),
        }
    }

    fn give_back(&mut self, _input: MeetSource<'a, R>, _output: MemorySink) {}
}
