//! The connections that a door reads beside each other.
use crate::held::{Fate, Held, Terms};
use crate::tcp_sink::TcpSink;
use crate::tcp_source::TcpSource;
use error_lines::tell;
use mio::net::{TcpListener, TcpStream};
use mio::{Events, Interest, Poll, Token};
use std::alloc::Global;
use std::io::{self, ErrorKind};
use std::net::{self, Net};
use std::time::{Clock, Duration, Instant};

/// As many connections are held.
const MOST_HELD: usize = 64;

/// How long one may be without a byte of a request where another waits for its place, in seconds.
const GRACE: u64 = 1;

/// How long it waits for an event, in seconds: then times that have run out are seen.
const TICK: u64 = 1;

/// How often the number of lost connections is told, in seconds.
const TELLING: u64 = 60;

const LISTENER: Token = Token(0);

const CONNECTION: Token = Token(1);

/// The connections that a door reads beside each other, those first that have waited the longest.
#[derive(Drop)]
pub(crate) struct Hall {
    alloc: Global,
    /// How long a request or a response may take.
    patience: Duration,
    held: Vec<Held>,
    pub(crate) listener: TcpListener,
    /// Another connection may wait in the system's queue.
    knocks: bool,
    poll: Poll,
    events: Events,
    /// As many connections failed or were closed before their time since this was told.
    lost: u64,
    told: Instant,
}

fn out_of_memory() -> io::Error {
    io::Error::from(ErrorKind::OutOfMemory)
}

/// A connection that was broken off before it was taken.
fn is_passed_over(kind: ErrorKind) -> bool {
    matches!(kind, ErrorKind::Interrupted | ErrorKind::ConnectionAborted)
}

impl Hall {
    /// An empty one, which listens at an address.
    pub(crate) fn open<R: Net<Listener = net::TcpListener, Stream = net::TcpStream> + Clock>(
        rt: &R,
        alloc: Global,
        address: &str,
        patience: Duration,
    ) -> io::Result<Hall> {
        let listener = net::TcpListener::bind(rt, address)?;
        listener.set_nonblocking(true)?;
        let mut listener = TcpListener::from_std(listener);
        let poll = Poll::new(rt)?;
        poll.registry()
            .register(&mut listener, LISTENER, Interest::READABLE)?;
        let (Ok(held), Ok(events)) = (
            Vec::with_capacity(alloc, MOST_HELD),
            Events::with_capacity(alloc, MOST_HELD),
        ) else {
            return Err(out_of_memory());
        };
        Ok(Hall {
            alloc,
            patience,
            held,
            listener,
            knocks: true,
            poll,
            events,
            lost: 0,
            told: Instant::now(rt)?,
        })
    }

    fn lose(&mut self) {
        self.lost = self.lost.saturating_add(1);
    }

    /// The first connection that can be given.
    fn take_ready(&mut self) -> Option<Held> {
        let at = self.held.iter().position(|one| one.is_ready())?;
        Some(self.held.remove(at))
    }

    /// Whether there is a place for one more. One over which nothing comes is closed for it.
    fn makes_room(&mut self, now: Instant) -> bool {
        if self.held.len() < MOST_HELD {
            return true;
        }
        let grace = Duration::from_secs(GRACE);
        let Some(at) = self.held.iter().position(|one| one.is_idle(now, grace)) else {
            return false;
        };
        drop(self.held.remove(at));
        self.lose();
        true
    }

    /// Holds a new connection.
    fn hold(&mut self, mut stream: TcpStream) -> io::Result<()> {
        let interest = Interest::READABLE | Interest::WRITABLE;
        self.poll
            .registry()
            .register(&mut stream, CONNECTION, interest)?;
        let Ok(held) = Held::new(self.alloc, stream) else {
            return Err(out_of_memory());
        };
        if self.held.push(held).is_err() {
            return Err(out_of_memory());
        }
        Ok(())
    }

    /// Takes one connection out of the system's queue.
    fn admit_one(&mut self) -> io::Result<()> {
        match self.listener.accept() {
            Ok((stream, _)) => {
                if self.hold(stream).is_err() {
                    self.lose();
                }
                Ok(())
            }
            Err(error) if error.kind() == ErrorKind::WouldBlock => {
                self.knocks = false;
                Ok(())
            }
            Err(error) if is_passed_over(error.kind()) => Ok(()),
            Err(error) => Err(error),
        }
    }

    /// Takes connections out of the system's queue, while there are places.
    fn admit(&mut self, now: Instant) -> io::Result<()> {
        for _ in 0..MOST_HELD {
            if !self.knocks || !self.makes_room(now) {
                return Ok(());
            }
            self.admit_one()?;
        }
        Ok(())
    }

    /// Takes each connection on, and lets those go that have ended.
    fn go_on(&mut self, now: Instant, key: Option<&[u8]>) {
        let terms = Terms {
            patience: self.patience,
            key,
        };
        let mut lost = 0u64;
        self.held.retain_mut(|one| {
            let fate = one.go_on(now, terms);
            if fate == Fate::Fails {
                lost = lost.saturating_add(1);
            }
            fate == Fate::Stays
        });
        self.lost = self.lost.saturating_add(lost);
    }

    /// Tells how many connections were lost, at most once a minute.
    fn tell_lost<R: Clock + Eprint>(&mut self, rt: &R, now: Instant) {
        if self.lost > 0 && now.duration_since(self.told) >= Duration::from_secs(TELLING) {
            tell(
                rt,
                "connections that failed or were closed before their end",
                "",
                &self.lost,
            );
            self.lost = 0;
            self.told = now;
        }
    }

    /// Waits until something comes.
    fn wait(&mut self) -> io::Result<()> {
        self.poll
            .poll(&mut self.events, Some(Duration::from_secs(TICK)))?;
        if self.events.iter().any(|event| event.token() == LISTENER) {
            self.knocks = true;
        }
        Ok(())
    }

    /// The next connection whose request is whole, and has the key where one is asked for. It waits for one.
    pub(crate) fn next<R: Clock + Eprint>(
        &mut self,
        rt: &R,
        key: Option<&[u8]>,
    ) -> io::Result<(TcpSource, TcpSink)> {
        for _ in 0..u64::MAX {
            if let Some(
                Held {
                    mut source,
                    sink,
                    ..
                },
            ) = self.take_ready()
            {
                source.set_out(key.is_some());
                return Ok((source, sink));
            }
            let now = Instant::now(rt)?;
            self.admit(now)?;
            self.go_on(now, key);
            self.tell_lost(rt, now);
            if !self.held.iter().any(|one| one.is_ready()) {
                self.wait()?;
            }
        }
        Err(io::Error::from(ErrorKind::TimedOut))
    }

    /// Takes a connection back behind the answers to what was given of it. There is a place for it.
    pub(crate) fn take_back(&mut self, source: TcpSource, sink: TcpSink) {
        if sink.fault_count() > 0 {
            self.lose();
        } else if self.held.push(Held::of(source, sink)).is_err() {
            self.lose();
        }
    }
}
