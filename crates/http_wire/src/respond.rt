//! Responses.
ghost use Rattle.std.specs.Prelude.{flat_map};
ghost use Rattle.news_io.specs.Faults.{Counts};
ghost use Rattle.http_wire.specs.Writing.{Writes, response};

use crate::page::Page;
use news_io::{Failed, Sink, write_all};

/// Writes these pieces, or the first of their bytes where the sink fails.
fn write_pieces<O: Sink>(sink: &mut O, pieces: &[&[u8]]) -> Result<(), Failed>
    ensures wrote { O.sink.tells sink.old → Writes O.sink sink.old sink.new (flat_map (λ p. p.now) pieces.now) result }
    ensures told { O.sink.tells sink.old → O.sink.tells sink.new }
    ensures count { Counts (O.sink.faults sink.old) (O.sink.faults sink.new) result }
{
    let mut page = Page::new();
    for piece in pieces {
        page.put(sink, piece)?;
    }
    write_all(sink, page.as_slice())
}

/// Writes a response, or the first of its bytes where the sink fails, and takes no memory.
///
/// Head and body are one write where they have at most 4096 bytes together; else the body is a write of its own behind
/// that of the head. A sink that takes less of a write is given the rest again. The sink is not flushed.
pub fn write_response<O: Sink>(
    sink: &mut O,
    status: u16,
    media: &str,
    body: &[u8],
) -> Result<(), Failed>
    ensures wrote { O.sink.tells sink.old → Writes O.sink sink.old sink.new (response status media.now body.now) result }
    ensures told { O.sink.tells sink.old → O.sink.tells sink.new }
    ensures count { Counts (O.sink.faults sink.old) (O.sink.faults sink.new) result }
{
    let mut number = itoa::Buffer::new();
    let mut length = itoa::Buffer::new();
    let pieces: [&[u8]; 8] = [
        b"HTTP/1.1 ",
        number.format(status).as_bytes(),
        b" \r\nContent-Type: ",
        media.as_bytes(),
        b"\r\nContent-Length: ",
        length.format(body.len()).as_bytes(),
        b"\r\n\r\n",
        body,
    ];
    write_pieces(sink, &pieces)
}
