//! A table of connections.
//!
//! A connection is a line, the bytes that it sends, and a line feed. The line says four things with a space between them: how
//! many bytes the log uses before it, what fails, how many bytes follow, and a title. What fails is the append to the log with
//! this number (0: none), or `growth`: in the turn of every other request, of which the first is one, there is no memory.
//!
//! Each is served by a newsroom of its own. The title is printed behind `= `, the bytes of the responses as they are, and
//! behind a line feed and `- ` how the connection ended. Then it is served once more, with bytes that come one at a time: what
//! differs is told.
ghost use Rattle.std.specs.Prelude.{◌<◌};

use crate::rooms::{new_clock, new_room, new_routes};
use crate::starved::StarvedRoom;
use desk_routes::Routes;
use feed_http::{Ended, serve, serve_plain};
use news_io::{MemorySink, MemorySource};
use std::alloc::Global;
use std::io::{self, ErrorKind, Read, Write};
use std::str;

/// What fails while a connection is served.
#[derive(Clone, Copy)]
enum Trouble {
    /// The append to the log with this number; with 0, none.
    Append(u64),
    /// All growth, in the turn of every other request.
    Growth,
}

/// What a line of the table says.
#[derive(Clone, Copy)]
struct Heading<'a> {
    /// How many bytes the log uses.
    used: u64,
    trouble: Trouble,
    /// How many bytes follow.
    length: usize,
    title: &'a str,
}

fn invalid() -> io::Error {
    io::Error::from(ErrorKind::InvalidData)
}

/// Serves each connection of the table at standard input.
pub(crate) fn serve_table<R: Input + Print + AllocGlobal>(rt: &R) -> io::Result<()> {
    let alloc = rt.alloc();
    let routes = new_routes(alloc)?;
    let mut input = Vec::new(alloc);
    rt.reader().read_to_end(&mut input)?;
    let mut rest: &[u8] = &input;
    for _ in 0..u64::MAX {
        if rest.is_empty() {
            break;
        }
        rest = serve_next(rt, alloc, &routes, rest)?;
    }
    Ok(())
}

/// Serves the first connection, and gives what stands behind it.
fn serve_next<'a, R: Print>(
    rt: &R,
    alloc: Global,
    routes: &Routes,
    input: &'a [u8],
) -> io::Result<&'a [u8]> {
    let Some(end) = input.iter().position(|byte| *byte == b'\n') else {
        return Err(invalid());
    };
    let heading = read_heading(&input[..end])?;
    let behind = &input[end + 1..];
    if behind.len() <= heading.length {
        return Err(invalid());
    }
    let bytes = &behind[..heading.length];
    serve_row(rt, alloc, routes, &heading, bytes)?;
    Ok(&behind[heading.length + 1..])
}

fn read_heading(line: &[u8]) -> io::Result<Heading> {
    let Ok(line) = str::from_utf8(line) else {
        return Err(invalid());
    };
    let (used, line) = number_before(line)?;
    let (trouble, line) = trouble_before(line)?;
    let (length, title) = number_before(line)?;
    Ok(Heading {
        used,
        trouble,
        length: length as usize,
        title,
    })
}

/// The number before the first space, and what stands behind that.
fn number_before(line: &str) -> io::Result<(u64, &str)> {
    let Some((word, rest)) = line.split_once(' ') else {
        return Err(invalid());
    };
    match word.parse() {
        Ok(number) => Ok((number, rest)),
        Err(_) => Err(invalid()),
    }
}

/// The trouble before the first space, and what stands behind that.
fn trouble_before(line: &str) -> io::Result<(Trouble, &str)> {
    if let Some(rest) = line.strip_prefix("growth ") {
        return Ok((Trouble::Growth, rest));
    }
    let (number, rest) = number_before(line)?;
    Ok((Trouble::Append(number), rest))
}

/// Serves a connection as a whole and byte by byte, and prints what it is answered.
fn serve_row<R: Print>(
    rt: &R,
    alloc: Global,
    routes: &Routes,
    heading: &Heading,
    bytes: &[u8],
) -> io::Result<()> {
    let (sink, ended) = answered(alloc, routes, heading, bytes, usize::MAX)?;
    println!(rt; "= {}", heading.title)?;
    io::writer(rt).write_all(sink.passed())?;
    println!(rt; "\n- {:?}", ended)?;
    let (cut, cut_ended) = answered(alloc, routes, heading, bytes, 1)?;
    if cut.passed() != sink.passed() || cut_ended != ended {
        println!(rt; "- differs byte by byte: {:?}", cut_ended)?;
    }
    Ok(())
}

/// What a connection is answered whose bytes come so many at a time, and how it ends.
fn answered(
    alloc: Global,
    routes: &Routes,
    heading: &Heading,
    bytes: &[u8],
    most: usize,
) -> io::Result<(MemorySink, Ended)>
    requires { 0 < most }
{
    let mut clock = new_clock(alloc)?;
    let mut source = MemorySource::new(bytes.to_vec(alloc)?).in_pieces_of(most);
    let mut sink = MemorySink::new(alloc);
    let ended = match heading.trouble {
        Trouble::Append(failing) => {
            let mut room = new_room(alloc, heading.used, failing)?;
            serve_plain(routes, &mut room, &mut clock, &mut source, &mut sink)
        }
        Trouble::Growth => {
            let room = new_room(alloc, heading.used, 0)?;
            let mut room = StarvedRoom::new(alloc, room)?;
            serve(routes, &mut room, &mut clock, &mut source, &mut sink)
        }
    };
    Ok((sink, ended))
}
