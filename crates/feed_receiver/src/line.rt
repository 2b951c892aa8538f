//! A line of a reply.

ghost use Rattle.std.specs.Prelude.{◌≡◌, ◌≤◌, length};

use byte_formats::SmallBytes;
use std::marker::Model;

/// Up to 128 bytes of a reply, which take no memory; a contract sees them as their list.
#[derive(Drop)]
pub struct Line {
    pub(crate) bytes: SmallBytes<128>,
}

impl Model for Line {
    ghost use Rattle.std.specs.Prelude.{ℕ, List};

    ghost Value = { List ℕ };

    ghost view = { λ line. line.bytes };
}

impl Line {
    /// These bytes, of which there are at most 128.
    pub fn of(bytes: &[u8]) -> Line
        requires { length bytes.now ≤ 128 }
        ensures { result ≡ bytes.now }
    {
        let mut line: SmallBytes<128> = SmallBytes::new();
        line.push_slice(bytes);
        Line { bytes: line }
    }

    /// The bytes.
    pub fn as_slice(&self) -> &[u8]
        ensures value { result.now ≡ self.now }
        ensures few { length result.now ≤ 128 }
    {
        self.bytes.as_slice()
    }
}
