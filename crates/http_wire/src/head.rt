//! The head at the front of some bytes.
ghost use Rattle.std.specs.Prelude.{◌≡◌, ◌≤◌, length, IfOk, IsOk};
ghost use Rattle.httparse.specs.Grammar.{IsToken};
ghost use Rattle.http_wire.specs.Limits.{most_head, most_lines};
ghost use Rattle.http_wire.specs.Found.{IsFound, IsDecided, IsFoundWithin};

use crate::target::ends_in_target;
use http::Method;
use httparse::Status;
use httparse::spans::{HeaderSpan, RequestSpans, parse_request};
use std::alloc::{AllocError, Global};

/// What the bytes so far say of a head.
#[derive(Clone, Copy, Drop)]
pub(crate) enum Found {
    /// It stands there.
    Whole(RequestSpans),
    /// It may still come.
    More,
    /// It never comes.
    Never,
}

/// Looks for a head at the front of the bytes.
///
/// There is room for as many header lines as so many bytes can hold, so that the answer never is for want of room.
fn read_head(bytes: &[u8], spans: &mut [HeaderSpan]) -> Found
    requires short { length bytes.now ≤ most_head }
    requires room { most_lines ≤ length spans.old }
    ensures found { IsFound bytes.now spans.new result }
    ensures within { IsFoundWithin bytes.now spans.new result }
{
    match parse_request(bytes, spans) {
        Ok(Status::Complete(head)) => Found::Whole(head),
        Ok(Status::Partial) => Found::More,
        Err(_) => Found::Never,
    }
}

/// As `read_head`, where a target that has no end yet is never refused.
pub(crate) fn decide_head(bytes: &[u8], spans: &mut [HeaderSpan]) -> Found
    requires short { length bytes.now ≤ most_head }
    requires room { most_lines ≤ length spans.old }
    ensures found { IsDecided bytes.now spans.new result }
    ensures within { IsFoundWithin bytes.now spans.new result }
{
    match read_head(bytes, spans) {
        Found::Never => {
            if ends_in_target(bytes) {
                Found::More
            } else {
                Found::Never
            }
        }
        Found::Whole(head) => Found::Whole(head),
        Found::More => Found::More,
    }
}

/// The method that these bytes are. It takes no memory where they are at most 15.
pub(crate) fn method_of(alloc: Global, bytes: &[u8]) -> Result<Method, AllocError>
    requires { IsToken bytes.now }
    ensures value { IfOk result (λ method. method ≡ bytes.now) }
    ensures short { length bytes.now ≤ 15 → IsOk result }
{
    match Method::from_bytes(alloc, bytes) {
        Ok(method) => Ok(method),
        Err(_) => Err(AllocError),
    }
}
