//! Bytes that lie in the value itself.

ghost use Rattle.std.specs.Prelude.{◌≡◌, ◌≤◌, ◌+◌, ◌++◌, [], length, decimal};
ghost use Rattle.byte_formats.specs.Spelling.{IsName, name as name_bytes};

use itoa::Buffer;
use news_types::Name;
use std::marker::Model;

/// At most `N` bytes, which take no memory; a contract sees them as their list.
#[derive(Drop)]
pub struct SmallBytes<const N: usize> {
    bytes: [u8; N],
    len: usize,
}

impl<const N: usize> Model for SmallBytes<N> {
    ghost use Rattle.std.specs.Prelude.{ℕ, List, ◌≤◌, take};

    ghost Value = { List ℕ };

    ghost view = { λ a. take a.len a.bytes };

    ghost invariant = { λ a. a.len ≤ N };
}

impl<const N: usize> SmallBytes<N> {
    /// No bytes.
    pub fn new() -> SmallBytes<N>
        ensures { result ≡ [] }
    {
        SmallBytes {
            bytes: [0; N],
            len: 0,
        }
    }

    /// The bytes.
    pub fn as_slice(&self) -> &[u8]
        ensures value { result.now ≡ self.now }
        ensures few { length result.now ≤ N }
    {
        &self.bytes[..self.len]
    }

    /// Appends these bytes, for which there is room.
    pub fn push_slice(&mut self, more: &[u8])
        requires { length self.old + length more.now ≤ N }
        ensures { self.new ≡ self.old ++ more.now }
    {
        let end = self.len + more.len();
        let places = &mut self.bytes[..];
        places[self.len..end].copy_from_slice(more);
        self.len = end;
    }

    /// Appends a byte of length and the name.
    pub fn push_name(&mut self, name: &Name)
        requires { length self.old + 33 ≤ N }
        ensures bytes { self.new ≡ self.old ++ name_bytes name.now }
        ensures form { IsName name.now }
    {
        let bytes = name.as_bytes();
        self.push_slice(&[bytes.len() as u8]);
        self.push_slice(bytes);
    }

    /// Appends a number in decimal.
    pub fn push_decimal(&mut self, number: u64)
        requires { length self.old + 20 ≤ N }
        ensures bytes { self.new ≡ self.old ++ decimal number }
        ensures few { length self.new ≤ length self.old + 20 }
    {
        let mut digits = Buffer::new();
        self.push_slice(digits.format(number).as_bytes());
    }
}
