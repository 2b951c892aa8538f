//! The bytes of a connection that were read and not yet asked for.
ghost use Rattle.std.specs.Prelude.{◌≡◌, [], IfOk};

use httparse::spans::{EMPTY_HEADER_SPAN, HeaderSpan};
use news_types::Memory;
use std::alloc::Global;
use std::marker::Model;

/// As many header lines as a head of 16384 bytes can have, since each has at least three bytes.
const MOST_LINES: usize = 5461;

/// The bytes of a connection that were read and not yet asked for, at most 4214784, and room for the lines of a head.
/// A contract sees it as these bytes.
#[derive(Drop)]
pub struct Buffer {
    pub(crate) bytes: Vec<u8>,
    pub(crate) lines: Vec<HeaderSpan>,
    pub(crate) alloc: Global,
}

impl Model for Buffer {
    ghost use Rattle.std.specs.Prelude.{ℕ, List, vec_len, ◌≤◌};
    ghost use Rattle.http_wire.specs.Limits.{most_lines, most_held};

    ghost Value = { List ℕ };

    ghost view = { λ a. a.bytes.items };

    ghost invariant = { λ a. (most_lines ≤ vec_len a.lines) × (vec_len a.bytes ≤ most_held) };
}

impl Buffer {
    /// The buffer of a new connection, with no bytes yet.
    pub fn new(alloc: Global) -> Result<Buffer, Memory>
        ensures { IfOk result (λ buffer. buffer ≡ []) }
    {
        Ok(Buffer {
            bytes: Vec::new(alloc),
            lines: Vec::from_elem(alloc, EMPTY_HEADER_SPAN, MOST_LINES)?,
            alloc,
        })
    }
}
