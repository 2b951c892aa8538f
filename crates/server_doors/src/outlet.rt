//! What a client is still to take.
ghost use Rattle.std.specs.Prelude.{◌≤◌, vec_len};

use crate::wire::Hold;
use std::alloc::Global;
use std::io::{self, ErrorKind, Write};

/// A response that a client is still to take.
#[derive(Drop)]
pub(crate) struct Outlet {
    alloc: Global,
    hold: Hold,
    bytes: Vec<u8>,
    /// So many of them were taken.
    sent: usize,
    ghost within: { sent ≤ vec_len bytes },
}

impl Outlet {
    pub(crate) fn new(alloc: Global, hold: Hold) -> Outlet {
        Outlet {
            alloc,
            hold,
            bytes: Vec::new(alloc),
            sent: 0,
        }
    }

    /// Whether nothing waits to be taken.
    pub(crate) fn is_empty(&self) -> bool {
        self.bytes.is_empty()
    }

    /// Puts bytes behind those that wait.
    pub(crate) fn put(&mut self, more: &[u8]) -> io::Result<()> {
        match self.bytes.extend_from_slice(more) {
            Ok(()) => Ok(()),
            Err(_) => Err(io::Error::from(ErrorKind::OutOfMemory)),
        }
    }

    /// Writes once, and waits for nothing: whether there may be more to write.
    fn write_once(&mut self) -> io::Result<bool> {
        if self.sent == self.bytes.len() {
            self.sent = 0;
            self.bytes = Vec::new(self.alloc);
            self.hold.set_full(false);
            return Ok(false);
        }
        let mut stream = &self.hold.stream;
        match stream.write(&self.bytes[self.sent..]) {
            Ok(0) => Err(io::Error::from(ErrorKind::WriteZero)),
            Ok(count) => {
                self.sent += count;
                Ok(true)
            }
            Err(error) if error.kind() == ErrorKind::WouldBlock => {
                self.hold.set_full(true);
                Ok(false)
            }
            Err(error) if error.kind() == ErrorKind::Interrupted => Ok(true),
            Err(error) => Err(error),
        }
    }

    /// Writes what the client takes, and waits for nothing.
    pub(crate) fn pass_on(&mut self) -> io::Result<()> {
        for _ in 0..u64::MAX {
            if !self.write_once()? {
                return Ok(());
            }
        }
        Ok(())
    }
}
