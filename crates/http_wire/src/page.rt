//! Bytes that are held back, to be written together.
ghost use Rattle.std.specs.Prelude.{◌≡◌, ◌++◌, [], if◌then◌else◌};
ghost use Rattle.news_io.specs.Faults.{Counts};
ghost use Rattle.http_wire.specs.Writing.{Puts};

use news_io::{Failed, Sink, write_all};
use std::marker::Model;

/// As many bytes as are held back.
const ROOM: usize = 4096;

/// Bytes that are held back, on the stack. A contract sees them as their list.
#[derive(Drop)]
pub(crate) struct Page {
    bytes: [u8; ROOM],
    len: usize,
}

impl Model for Page {
    ghost use Rattle.std.specs.Prelude.{ℕ, List, take, ◌≤◌};

    ghost Value = { List ℕ };

    ghost view = { λ p. take p.len p.bytes };

    ghost invariant = { λ p. p.len ≤ 4096 };
}

impl Page {
    /// No bytes.
    pub(crate) fn new() -> Page
        ensures { result ≡ [] }
    {
        Page {
            bytes: [0; ROOM],
            len: 0,
        }
    }

    /// The bytes.
    pub(crate) fn as_slice(&self) -> &[u8]
        ensures { result.now ≡ self.now }
    {
        &self.bytes[..self.len]
    }

    /// Holds these back too, where there is room for all of them.
    fn add(&mut self, more: &[u8]) -> bool
        ensures { self.new ≡ (if result then self.old ++ more.now else self.old) }
    {
        if more.len() > ROOM - self.len {
            return false;
        }
        let until = self.len + more.len();
        self.bytes[self.len..until].copy_from_slice(more);
        self.len = until;
        true
    }

    /// Holds nothing back any more.
    fn clear(&mut self)
        ensures { self.new ≡ [] }
    {
        self.len = 0;
    }

    /// Holds these back too, or writes all, where there is no room for them.
    pub(crate) fn put<O: Sink>(&mut self, sink: &mut O, more: &[u8]) -> Result<(), Failed>
        ensures wrote { O.sink.tells sink.old → Puts O.sink sink.old sink.new (self.old ++ more.now) self.new result }
        ensures told { O.sink.tells sink.old → O.sink.tells sink.new }
        ensures count { Counts (O.sink.faults sink.old) (O.sink.faults sink.new) result }
    {
        if self.add(more) {
            return Ok(());
        }
        write_all(sink, self.as_slice())?;
        self.clear();
        write_all(sink, more)
    }
}
