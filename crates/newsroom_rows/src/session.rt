//! A newsroom at the moments that a clock shows.
ghost use Rattle.std.specs.Prelude.{◌≡◌, ◌≤◌, ◌<◌, IfOk, IsTrue, length};
ghost use Rattle.news_types.specs.History.{History, moment as last_moment};
ghost use Rattle.newsroom.specs.Stands.{StandsFor};
ghost use Rattle.newsroom.specs.Acts.{IsSmall};
ghost use Rattle.newsroom_rows.specs.Lists.{SomeList};

use crate::told::{Told, out_of_memory};
use news_types::{Act, Answer, Command, Incoming, Memory, Moment, Name, Query, Ready, Reply};
use newsroom::{Newsroom, Prepared};
use std::alloc::Global;
use std::io::{self, ErrorKind};
use uuid::Uuid;

/// The store of every newsroom here.
const STORE: u128 = 0x6ba7b810_9dad_11d1_80b4_00c04fd430c8;

/// The last moment that there is, in seconds: the end of the year 9999.
const LAST_MOMENT: Moment = 253402300799;

/// How many entries a newsroom may have.
const MOST_ENTRIES: u64 = 4294967295;

/// A newsroom, and what the clock shows.
#[derive(Drop)]
pub(crate) struct Session {
    pub(crate) alloc: Global,
    machine: Newsroom,
    /// In seconds since 1970-01-01T00:00:00Z.
    clock: Moment,
}

impl Session {
    /// A newsroom with no entry, at moment 0.
    pub(crate) fn new(alloc: Global) -> io::Result<Session>
        ensures { IfOk result (λ session. SomeList session.machine) }
    {
        let machine = new_machine(alloc)?;
        Ok(Session {
            alloc,
            machine,
            clock: 0,
        })
    }

    /// Begins a newsroom with no entry; the clock stays.
    pub(crate) fn restart(&mut self) -> io::Result<()>
        requires { SomeList self.old.machine }
        ensures { SomeList self.new.machine }
    {
        self.machine = new_machine(self.alloc)?;
        Ok(())
    }

    /// Sets what the clock shows, in seconds.
    pub(crate) fn set_clock(&mut self, moment: Moment)
        requires { SomeList self.old.machine }
        ensures { SomeList self.new.machine }
    {
        self.clock = moment;
    }

    // The moment of what comes next: no moment is before the last, whatever the clock shows.
    fn moment(&self) -> Moment
        ensures { (h : History) → StandsFor self.now.machine h → last_moment h ≤ result }
    {
        self.machine.moment().max(self.clock.min(LAST_MOMENT))
    }

    // Whether one more entry may be kept.
    fn has_room(&self) -> bool
        ensures { (h : History) → StandsFor self.now.machine h → IsTrue result → length h < 4294967295 }
    {
        self.machine.entries() < MOST_ENTRIES
    }

    /// Takes a request.
    pub(crate) fn request(
        &mut self,
        caller: Name,
        number: u64,
        command: Command,
    ) -> io::Result<Told>
        requires { SomeList self.old.machine }
        ensures { SomeList self.new.machine }
    {
        let act = Act::Request {
            caller,
            number,
            command,
        };
        let told = self.decide(&act);
        drop(act);
        told
    }

    /// Takes a story that comes in from a provider.
    pub(crate) fn ingest(&mut self, provider: Name, incoming: Incoming) -> io::Result<Told>
        requires { SomeList self.old.machine }
        ensures { SomeList self.new.machine }
    {
        let act = Act::Ingest { provider, incoming };
        let told = self.decide(&act);
        drop(act);
        told
    }

    // Decides a request or an ingest, and keeps it where it is accepted.
    fn decide(&mut self, act: &Act) -> io::Result<Told>
        requires stands { SomeList self.old.machine }
        requires given { IsSmall act.now → ⊥ }
        ensures { SomeList self.new.machine }
    {
        if !self.has_room() {
            return Err(full());
        }
        let moment = self.moment();
        match self.machine.prepare(act, moment) {
            Prepared::Change(change) => Ok(Told::Done(self.machine.commit(change))),
            Prepared::Settled(reply) => Ok(Told::Done(reply)),
            Prepared::Repeat(reply) => Ok(Told::Repeat(reply)),
            Prepared::Denied(denial) => Ok(Told::Denied(denial)),
            Prepared::Memory => Err(out_of_memory()),
        }
    }

    // Keeps one of the newsroom's own acts where it may follow, and tells whether it was kept.
    fn keep(&mut self, act: &Act, moment: Moment) -> bool
        requires { SomeList self.old.machine }
        ensures { SomeList self.new.machine }
    {
        if !self.has_room() || LAST_MOMENT < moment || !self.machine.legal(act, moment) {
            return false;
        }
        self.machine.apply(act, moment);
        true
    }

    /// Lets into the feeds what waits until the clock's moment.
    pub(crate) fn tick(&mut self) -> Told
        requires { SomeList self.old.machine }
        ensures { SomeList self.new.machine }
    {
        let moment = self.moment();
        if self.keep(&Act::Advance, moment) {
            return Told::Kept(self.machine.entries());
        }
        Told::Still
    }

    /// Keeps a halt.
    pub(crate) fn halt(&mut self) -> io::Result<Told>
        requires { SomeList self.old.machine }
        ensures { SomeList self.new.machine }
    {
        let moment = self.moment();
        if !self.keep(&Act::Halt, moment) {
            return Err(full());
        }
        Ok(Told::Kept(self.machine.entries()))
    }

    /// Takes a receipt for the first entries of a feed, so many.
    pub(crate) fn receipt(&mut self, subscriber: Name, n: u32) -> io::Result<Told>
        requires { SomeList self.old.machine }
        ensures { SomeList self.new.machine }
    {
        match self.machine.judge_receipt(&subscriber, n) {
            Ok(true) => self.raise(subscriber, n),
            Ok(false) => Ok(Told::Done(reply_of(0))),
            Err(denial) => Ok(Told::Denied(denial)),
        }
    }

    // Keeps a receipt that raises what is acknowledged.
    fn raise(&mut self, subscriber: Name, n: u32) -> io::Result<Told>
        requires { SomeList self.old.machine }
        ensures { SomeList self.new.machine }
    {
        let moment = self.moment();
        if !self.keep(&Act::Receipt { subscriber, n }, moment) {
            return Err(full());
        }
        Ok(Told::Done(reply_of(self.machine.entries())))
    }

    /// Chooses among the feeds of these names the one that is pushed next, and keeps the attempt.
    pub(crate) fn claim(&mut self, names: &[Name]) -> io::Result<Told>
        requires { SomeList self.old.machine }
        ensures { SomeList self.new.machine }
    {
        let moment = self.moment();
        match self.machine.next_ready(names, moment) {
            Ready::Now { subscriber, k } => self.attempt(subscriber, k, moment),
            Ready::Later { next } => Ok(Told::Idle(next)),
        }
    }

    // Keeps an attempt for the next entry of a feed, whose frame is built first.
    fn attempt(&mut self, subscriber: Name, k: u32, moment: Moment) -> io::Result<Told>
        requires { SomeList self.old.machine }
        ensures { SomeList self.new.machine }
    {
        let Answer::Frame(frame) = self.answer(&Query::Frame { subscriber, k })? else {
            return Err(io::Error::from(ErrorKind::NotFound));
        };
        if !self.keep(&Act::Attempt { subscriber, k }, moment) {
            return Err(full());
        }
        Ok(Told::Job {
            subscriber,
            k,
            frame,
        })
    }

    /// Asks a question of the list as it is.
    pub(crate) fn ask(&self, query: &Query) -> io::Result<Told>
        requires { SomeList self.now.machine }
    {
        Ok(Told::Answer(self.answer(query)?))
    }

    // What a question is answered.
    fn answer(&self, query: &Query) -> io::Result<Answer>
        requires { SomeList self.now.machine }
    {
        if !self.has_room() {
            return Err(full());
        }
        match self.machine.ask(query) {
            Ok(answer) => Ok(answer),
            Err(Memory) => Err(out_of_memory()),
        }
    }
}

/// A newsroom with no entry.
fn new_machine(alloc: Global) -> io::Result<Newsroom>
    ensures { IfOk result SomeList }
{
    match Newsroom::new(alloc, Uuid::from_u128(STORE)) {
        Ok(machine) => Ok(machine),
        Err(Memory) => Err(out_of_memory()),
    }
}

/// The reply to what makes no item and no publication, with the place of its entry, or 0.
fn reply_of(entry: u64) -> Reply {
    Reply {
        entry,
        item: 0,
        publication: 0,
        release: 0,
    }
}

/// That a newsroom can keep no further entry.
fn full() -> io::Error {
    io::Error::from(ErrorKind::StorageFull)
}
