//! The next request of a connection.
ghost use Rattle.std.specs.Prelude.{◌≡◌, ◌≤◌, ◌-◌, ◌++◌, length, take, drop, IfOk, OnOk, OnErr, vec_len};
ghost use Rattle.http_wire.specs.Limits.{most_lines, most_held};
ghost use Rattle.http_wire.specs.Steps.{HasHead, CountsStop};
ghost use Rattle.http_wire.specs.Wires.{IsWire, IsAtHand, CountsWire, IsShort, given};

use crate::buffer::Buffer;
use crate::fill::gather;
use crate::request::{HttpRequest, Wire};
use crate::ruling::examine;
use crate::seek::seek;
use crate::stop::{Stop, wire_of};
use httparse::spans::{HeaderSpan, RequestSpans};
use news_io::Source;
use news_types::{Bytes, Memory};
use std::alloc::Global;

/// Takes the bytes in this range, and drops them and what stands before.
fn cut(alloc: Global, bytes: &mut Vec<u8>, from: usize, until: usize) -> Result<Bytes, Memory>
    requires order { from ≤ until }
    requires within { until ≤ vec_len bytes.old }
    ensures body { IfOk result (λ body. body ≡ take (until - from) (drop from bytes.old.items)) }
    ensures rest { OnOk result (bytes.new.items ≡ drop until bytes.old.items) }
    ensures err { OnErr result (bytes.new.items ≡ bytes.old.items) }
    ensures held { vec_len bytes.new ≤ vec_len bytes.old }
{
    let body = Bytes::copy_of(alloc, &bytes[from..until])?;
    let rest = bytes.split_off(until)?;
    *bytes = rest;
    Ok(body)
}

/// Reads the rest of a request whose head stands at the front.
fn read_rest<S: Source>(
    alloc: Global,
    bytes: &mut Vec<u8>,
    spans: &[HeaderSpan],
    head: RequestSpans,
    source: &mut S,
) -> Result<HttpRequest, Stop>
    requires { HasHead bytes.old.items spans.now head }
    ensures wire { S.source.tells source.old → IsWire (bytes.old.items ++ S.source.ahead source.old) (bytes.new.items ++ S.source.ahead source.new) (given result) }
    ensures at_hand { IsAtHand bytes.new.items (given result) }
    ensures held { vec_len bytes.old ≤ most_held → vec_len bytes.new ≤ most_held }
    ensures told { S.source.tells source.old → S.source.tells source.new }
    ensures short { IsShort (given result) }
    ensures count { CountsStop (S.source.faults source.old) (S.source.faults source.new) result }
{
    let (begun, length) = examine(alloc, bytes, spans, head)?;
    let until = head.len + length as usize;
    gather(bytes, source, until)?;
    let body = cut(alloc, bytes, head.len, until)?;
    Ok(HttpRequest {
        method: begun.method,
        target: begun.target,
        user: begun.user,
        close: begun.close,
        body,
    })
}

/// Reads the next request.
fn read_next<S: Source>(
    alloc: Global,
    bytes: &mut Vec<u8>,
    spans: &mut [HeaderSpan],
    source: &mut S,
) -> Result<HttpRequest, Stop>
    requires { most_lines ≤ length spans.old }
    ensures wire { S.source.tells source.old → IsWire (bytes.old.items ++ S.source.ahead source.old) (bytes.new.items ++ S.source.ahead source.new) (given result) }
    ensures at_hand { IsAtHand bytes.new.items (given result) }
    ensures held { vec_len bytes.old ≤ most_held → vec_len bytes.new ≤ most_held }
    ensures told { S.source.tells source.old → S.source.tells source.new }
    ensures short { IsShort (given result) }
    ensures count { CountsStop (S.source.faults source.old) (S.source.faults source.new) result }
{
    let head = seek(bytes, spans, source)?;
    read_rest(alloc, bytes, spans, head, source)
}

/// Reads the next request of a connection. What was read behind it stays in the buffer; so does all that is no request.
///
/// It reads only while the bytes at hand are unfinished: no request stands whole in them, and their lines are refused by
/// nothing. Any read may fail, and then it is these bytes that stay in the buffer.
pub fn read_request<S: Source>(buffer: &mut Buffer, source: &mut S) -> Wire
    ensures wire { S.source.tells source.old → IsWire (buffer.old ++ S.source.ahead source.old) (buffer.new ++ S.source.ahead source.new) result }
    ensures at_hand { IsAtHand buffer.new result }
    ensures held { length buffer.new ≤ most_held }
    ensures told { S.source.tells source.old → S.source.tells source.new }
    ensures short { IsShort result }
    ensures count { CountsWire (S.source.faults source.old) (S.source.faults source.new) result }
{
    match read_next(buffer.alloc, &mut buffer.bytes, &mut buffer.lines, source) {
        Ok(request) => Wire::Request(request),
        Err(stop) => wire_of(stop),
    }
}
