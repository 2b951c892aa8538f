//! A connection that a door holds.
use crate::key::REFUSAL;
use crate::outlet::Outlet;
use crate::tcp_sink::TcpSink;
use crate::tcp_source::{Came, TcpSource};
use crate::wire::{Hold, Wire};
use mio::net::TcpStream;
use news_types::Memory;
use std::alloc::Global;
use std::io;
use std::sync::Arc;
use std::time::{Duration, Instant};

/// What becomes of a held connection.
#[derive(Clone, Copy, Debug, PartialEq, Eq)]
pub(crate) enum Fate {
    /// It is held on.
    Stays,
    /// It has ended behind its last response, or the client ended it between two requests.
    Ends,
    /// It failed, or has run out of its time.
    Fails,
}

/// What is asked of each request and response.
#[derive(Clone, Copy)]
pub(crate) struct Terms<'a> {
    /// How long one may take.
    pub(crate) patience: Duration,
    /// The key that a request has to have, where one is asked for.
    pub(crate) key: Option<&'a [u8]>,
}

/// A connection that a door holds: its request is read, or its response is written.
#[derive(Drop)]
pub(crate) struct Held {
    pub(crate) source: TcpSource,
    pub(crate) sink: TcpSink,
    /// Since when it has been at what it is at: nothing of a request is there, a request comes, or a response goes. Nothing
    /// where that has just begun.
    since: Option<Instant>,
    /// A whole request is there.
    ready: bool,
    /// It ends behind the response.
    is_last: bool,
}

impl Held {
    pub(crate) fn new(alloc: Global, stream: TcpStream) -> Result<Held, Memory> {
        let Ok(hold) = Arc::new(alloc, Wire::new(stream)) else {
            return Err(Memory);
        };
        let other: Hold = Arc::try_clone(&hold)?;
        Ok(Held::of(
            TcpSource::new(alloc, hold),
            TcpSink::new(Outlet::new(alloc, other)),
        ))
    }

    /// The connection of these ends, behind the answers to what was given of it.
    pub(crate) fn of(source: TcpSource, sink: TcpSink) -> Held {
        let is_last = !source.rests();
        Held {
            source,
            sink,
            since: None,
            ready: false,
            is_last,
        }
    }

    /// Whether it can be given.
    pub(crate) fn is_ready(&self) -> bool {
        self.ready
    }

    /// Whether it has been without a byte of a request for so long, and no response is to be taken.
    pub(crate) fn is_idle(&self, now: Instant, grace: Duration) -> bool {
        self.source.is_empty() && self.sink.outlet.is_empty() && self.waited(now) >= grace
    }

    fn waited(&self, now: Instant) -> Duration {
        match self.since {
            Some(since) => now.duration_since(since),
            None => Duration::ZERO,
        }
    }

    /// It is held on while it has time.
    fn wait(&mut self, now: Instant, patience: Duration) -> Fate {
        if self.since.is_none() {
            self.since = Some(now);
        }
        if self.waited(now) > patience {
            Fate::Fails
        } else {
            Fate::Stays
        }
    }

    /// A request is there. It can be given, if it has the key that is asked for.
    fn arrive(&mut self, now: Instant, terms: Terms<'_>) -> io::Result<Fate> {
        match terms.key {
            Some(key) if !self.source.has_key(key) => self.refuse(now, terms.patience),
            _ => {
                self.ready = true;
                Ok(Fate::Stays)
            }
        }
    }

    /// Refuses the request that is there, and ends behind that.
    fn refuse(&mut self, now: Instant, patience: Duration) -> io::Result<Fate> {
        self.is_last = true;
        self.since = None;
        self.sink.outlet.put(REFUSAL)?;
        self.sink.outlet.pass_on()?;
        if self.sink.outlet.is_empty() {
            return Ok(Fate::Ends);
        }
        Ok(self.wait(now, patience))
    }

    /// Reads what has come of its request.
    fn gather(&mut self, now: Instant, terms: Terms<'_>) -> io::Result<Fate> {
        let begins = self.source.is_empty();
        match self.source.gather()? {
            Came::Request => return self.arrive(now, terms),
            Came::End => return Ok(Fate::Ends),
            Came::Part if begins => self.since = None,
            Came::Part | Came::Nothing => {}
        }
        Ok(self.wait(now, terms.patience))
    }

    /// Writes what is to be taken, and reads what has come behind that.
    fn work(&mut self, now: Instant, terms: Terms<'_>) -> io::Result<Fate> {
        if !self.sink.outlet.is_empty() {
            self.sink.outlet.pass_on()?;
            if !self.sink.outlet.is_empty() {
                return Ok(self.wait(now, terms.patience));
            }
            self.since = None;
        }
        if self.is_last {
            return Ok(Fate::Ends);
        }
        if self.since.is_none() && self.source.is_ready() {
            return self.arrive(now, terms);
        }
        self.gather(now, terms)
    }

    /// Takes it on, as far as it goes without waiting.
    pub(crate) fn go_on(&mut self, now: Instant, terms: Terms<'_>) -> Fate {
        if self.ready {
            return Fate::Stays;
        }
        self.work(now, terms).unwrap_or(Fate::Fails)
    }
}
