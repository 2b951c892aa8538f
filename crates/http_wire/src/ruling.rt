//! What a head asks for.
ghost use Rattle.std.specs.Prelude.{◌≡◌, ◌≤◌, All, map, length, IfOk};
ghost use Rattle.httparse.specs.Grammar.{RequestHead};
ghost use Rattle.httparse.specs.Spans.{IsHeaderWithin, header_bytes, IsRequestWithin, IsRequestAt};
ghost use Rattle.http_wire.specs.Limits.{most_head, front};
ghost use Rattle.http_wire.specs.Heads.{says, lines};
ghost use Rattle.http_wire.specs.Steps.{HasHead, IsRuled, IsBegun, IsExamined};

use crate::fields::{body_length, closes, count_named, user};
use crate::head::method_of;
use crate::stop::Stop;
use http::Method;
use httparse::spans::{HeaderSpan, RequestSpans};
use news_types::{Memory, Name, Text};
use std::alloc::Global;

/// As many bytes as are looked at for a head.
pub(crate) const MOST_HEAD: usize = 16384;

const MOST_FIELDS: usize = 64;

const MOST_BODY: u64 = 4194304;

/// How long the body is, as these header lines say.
fn judge(bytes: &[u8], lines: &[HeaderSpan]) -> Result<u64, Stop>
    requires { All (IsHeaderWithin (length bytes.now)) lines.now }
    ensures { IsRuled (says (map (header_bytes bytes.now) lines.now)) result }
{
    if count_named(bytes, lines, b"transfer-encoding") > 0 {
        return Err(Stop::Chunked);
    }
    let Some(length) = body_length(bytes, lines) else {
        return Err(Stop::HeadFault);
    };
    if lines.len() > MOST_FIELDS || length > MOST_BODY {
        return Err(Stop::TooLarge);
    }
    Ok(length)
}

/// How long the body is, as a head says.
fn judge_head(bytes: &[u8], spans: &[HeaderSpan], head: RequestSpans) -> Result<u64, Stop>
    requires { IsRequestWithin bytes.now spans.now head }
    ensures { (h : RequestHead) → IsRequestAt bytes.now spans.now head h → IsRuled (says (lines h)) result }
{
    judge(bytes, &spans[..head.headers])
}

/// A request without its body.
#[derive(Drop)]
pub(crate) struct Begun {
    pub method: Method,
    pub target: Text,
    pub user: Option<Name>,
    pub close: bool,
}

/// What a head says but for the body.
fn begin(
    alloc: Global,
    bytes: &[u8],
    spans: &[HeaderSpan],
    head: RequestSpans,
) -> Result<Begun, Memory>
    requires within { IsRequestWithin bytes.now spans.now head }
    requires at { (h : RequestHead) × IsRequestAt bytes.now spans.now head h }
    ensures { (h : RequestHead) → IsRequestAt bytes.now spans.now head h → IfOk result (λ begun. IsBegun h begun) }
{
    let lines = &spans[..head.headers];
    let method = method_of(alloc, head.method.of(bytes))?;
    let Ok(target) = std::str::from_utf8(head.path.of(bytes)) else {
        unreachable!();
    };
    Ok(Begun {
        method,
        target: Text::copy_of(alloc, target)?,
        user: user(bytes, lines),
        close: head.version == 0 || closes(bytes, lines),
    })
}

/// As far as a head is looked for.
pub(crate) fn look(bytes: &[u8]) -> &[u8]
    ensures value { result.now ≡ front bytes.now }
    ensures short { length result.now ≤ most_head }
{
    let looked = bytes.len().min(MOST_HEAD);
    &bytes[..looked]
}

/// What the head at the front says but for the body, and how long the body is.
pub(crate) fn examine(
    alloc: Global,
    bytes: &[u8],
    spans: &[HeaderSpan],
    head: RequestSpans,
) -> Result<(Begun, u64), Stop>
    requires { HasHead bytes.now spans.now head }
    ensures { (h : RequestHead) → IsRequestAt (front bytes.now) spans.now head h → IsExamined h result }
{
    let front = look(bytes);
    let length = judge_head(front, spans, head)?;
    let begun = begin(alloc, front, spans, head)?;
    Ok((begun, length))
}
