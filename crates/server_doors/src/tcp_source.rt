//! The requests of a connection over TCP.
ghost use Rattle.std.specs.Prelude.{◌≤◌, length, vec_len};

use crate::key::has_key;
use crate::reach::{Reach, reach_of};
use crate::wire::Hold;
use news_io::{Failed, Source};
use std::alloc::Global;
use std::io::{self, ErrorKind, Read};

/// As many requests of a connection are given.
const MOST_REQUESTS: u32 = 64;

/// As many bytes are read at once.
const PIECE: usize = 16384;

/// What the reading of a connection came to.
#[derive(Clone, Copy, Debug, PartialEq, Eq)]
pub(crate) enum Came {
    /// No bytes.
    Nothing,
    /// Some bytes, but no whole request.
    Part,
    /// A whole request, or one that the server refuses by what is there.
    Request,
    /// The end of the input, with nothing before it.
    End,
}

/// The requests of a connection over TCP: the one that is being answered, and what was read behind it. It tells nothing of its
/// bytes, and no call of it waits or fails. It ends where no whole request is there, and may have another one when the door
/// gives it again.
#[derive(Drop)]
pub struct TcpSource {
    alloc: Global,
    hold: Hold,
    bytes: Vec<u8>,
    /// Of the request that is being answered so many bytes were given.
    at: usize,
    /// And it has so many.
    until: usize,
    /// As many requests may still be given.
    left: u32,
    /// As many are given before the door looks at the next one.
    at_once: u32,
    /// The client has ended its input.
    ended: bool,
    /// The end that was told last is none of the client's: another request may come.
    rests: bool,
    ghost within: { until ≤ vec_len bytes },
    ghost given: { at ≤ until },
}

impl TcpSource {
    pub(crate) fn new(alloc: Global, hold: Hold) -> TcpSource {
        TcpSource {
            alloc,
            hold,
            bytes: Vec::new(alloc),
            at: 0,
            until: 0,
            left: MOST_REQUESTS,
            at_once: 0,
            ended: false,
            rests: true,
        }
    }

    /// Whether nothing of a request is there.
    pub(crate) fn is_empty(&self) -> bool {
        self.bytes.is_empty()
    }

    /// The connection is given, and of it one request alone, where each is asked for its key: it goes on only if what was read
    /// of it is told to end before its input does.
    pub(crate) fn set_out(&mut self, is_asked: bool) {
        self.rests = false;
        self.at_once = if is_asked { 1 } else { MOST_REQUESTS };
    }

    /// Whether the request that is given next has this key.
    pub(crate) fn has_key(&self, key: &[u8]) -> bool {
        has_key(self.bytes.as_slice(), key)
    }

    /// Whether the connection may go on behind what was answered.
    pub(crate) fn rests(&self) -> bool {
        self.rests
    }

    /// Whether a request is there that can be given: a whole one, one that is refused, or the rest of an ended input.
    pub(crate) fn is_ready(&self) -> bool {
        if self.ended {
            return !self.bytes.is_empty();
        }
        reach_of(self.bytes.as_slice()) != Reach::Unfinished
    }

    /// Takes bytes behind those that are there.
    fn add(&mut self, piece: &[u8]) -> io::Result<()> {
        match self.bytes.extend_from_slice(piece) {
            Ok(()) => Ok(()),
            Err(_) => Err(io::Error::from(ErrorKind::OutOfMemory)),
        }
    }

    /// Reads once, and waits for nothing.
    fn read_once(&mut self) -> io::Result<Came> {
        let mut piece = [0u8; PIECE];
        let mut stream = &self.hold.stream;
        match stream.read(&mut piece) {
            Ok(0) => {
                self.ended = true;
                Ok(if self.bytes.is_empty() {
                    Came::End
                } else {
                    Came::Request
                })
            }
            Ok(count) => {
                self.add(&piece[..count])?;
                Ok(if self.is_ready() {
                    Came::Request
                } else {
                    Came::Part
                })
            }
            Err(error) if error.kind() == ErrorKind::WouldBlock => Ok(Came::Nothing),
            Err(error) if error.kind() == ErrorKind::Interrupted => Ok(Came::Part),
            Err(error) => Err(error),
        }
    }

    /// Reads what has come, up to a whole request, and waits for nothing.
    pub(crate) fn gather(&mut self) -> io::Result<Came> {
        let mut came = Came::Nothing;
        for _ in 0..u64::MAX {
            match self.read_once()? {
                Came::Part => came = Came::Part,
                Came::Nothing => return Ok(came),
                Came::Request => return Ok(Came::Request),
                Came::End => return Ok(Came::End),
            }
        }
        Ok(came)
    }

    /// Forgets the request that was answered.
    fn forget(&mut self) {
        if self.until == self.bytes.len() {
            self.at = 0;
            self.until = 0;
            self.bytes = Vec::new(self.alloc);
        } else {
            let until = self.until;
            self.at = 0;
            self.until = 0;
            drop(self.bytes.drain(..until));
        }
    }

    /// Gives so many bytes next, as the last request where none may follow it.
    fn begin(&mut self, length: usize, is_last: bool) {
        self.at = 0;
        self.until = length.min(self.bytes.len());
        self.at_once = self.at_once.saturating_sub(1);
        self.left = if is_last {
            0
        } else {
            self.left.saturating_sub(1)
        };
    }

    /// Turns to the next request, if it is there and may be given. Behind a response that the client has not taken none is.
    fn turn(&mut self) {
        self.forget();
        self.rests = false;
        if self.left == 0 {
            return;
        }
        if self.at_once == 0 || self.hold.is_full() {
            self.rests = true;
            return;
        }
        match reach_of(self.bytes.as_slice()) {
            Reach::Whole(length) => self.begin(length, false),
            Reach::Refused => self.begin(usize::MAX, true),
            Reach::Unfinished if self.ended => self.begin(usize::MAX, true),
            Reach::Unfinished => self.rests = true,
        }
    }
}

impl Source for TcpSource {
    ghost use Rattle.server_doors.specs.Devices.{tcp_source};

    ghost source = { tcp_source };

    fn read(&mut self, into: &mut [u8]) -> Result<usize, Failed> {
        if self.at == self.until {
            self.turn();
        }
        let from = &self.bytes[self.at..self.until];
        let count = from.len().min(into.len());
        into[..count].copy_from_slice(&from[..count]);
        self.at += count;
        Ok(count)
    }
}
