//! A head is looked for at the front of the input.
ghost use Rattle.std.specs.Prelude.{◌≡◌, ◌≤◌, ◌++◌, length, take, IfOk, IfErr, vec_len};
ghost use Rattle.http_wire.specs.Limits.{most_lines, most_held};
ghost use Rattle.http_wire.specs.Unfinished.{BeginsHead};
ghost use Rattle.http_wire.specs.Wires.{IsWire, IsAtHand, stop_wire};
ghost use Rattle.http_wire.specs.Steps.{IsHeadIn, HasHead, CountsStop};

use crate::fill::fill;
use crate::head::{Found, decide_head};
use crate::ruling::{MOST_HEAD, look};
use crate::stop::Stop;
use httparse::spans::{HeaderSpan, RequestSpans};
use news_io::Source;

/// The head at the front of the bytes, if it is whole.
///
/// The first `seen` of them hold none and may become one. A head ends with a line, so they are parsed again only once a
/// line has ended behind these, or where no more bytes are looked at.
fn head_in(
    bytes: &[u8],
    seen: usize,
    spans: &mut [HeaderSpan],
) -> Result<Option<RequestSpans>, Stop>
    requires seen { seen ≤ length bytes.now }
    requires begun { BeginsHead (take seen bytes.now) }
    requires room { most_lines ≤ length spans.old }
    ensures { IsHeadIn bytes.now spans.new result }
{
    if bytes.len() < MOST_HEAD && !bytes[seen..].contains(&b'\n') {
        return Ok(None);
    }
    match decide_head(look(bytes), spans) {
        Found::Whole(head) => Ok(Some(head)),
        Found::Never => Err(Stop::HeadFault),
        Found::More => {
            if bytes.len() < MOST_HEAD {
                Ok(None)
            } else {
                Err(Stop::TooLarge)
            }
        }
    }
}

/// Reads until the front of the input is a head, or is none.
pub(crate) fn seek<S: Source>(
    bytes: &mut Vec<u8>,
    spans: &mut [HeaderSpan],
    source: &mut S,
) -> Result<RequestSpans, Stop>
    requires { most_lines ≤ length spans.old }
    ensures input { S.source.tells source.old → bytes.new.items ++ S.source.ahead source.new ≡ bytes.old.items ++ S.source.ahead source.old }
    ensures wire { S.source.tells source.old → IfErr result (λ stop. IsWire (bytes.old.items ++ S.source.ahead source.old) (bytes.new.items ++ S.source.ahead source.new) (stop_wire stop)) }
    ensures head { IfOk result (HasHead bytes.new.items spans.new) }
    ensures at_hand { IfErr result (λ stop. IsAtHand bytes.new.items (stop_wire stop)) }
    ensures held { vec_len bytes.old ≤ most_held → vec_len bytes.new ≤ most_held }
    ensures told { S.source.tells source.old → S.source.tells source.new }
    ensures count { CountsStop (S.source.faults source.old) (S.source.faults source.new) result }
{
    let mut seen = 0;
    loop {
        if let Some(head) = head_in(bytes, seen, spans)? {
            return Ok(head);
        }
        seen = bytes.len();
        if !fill(bytes, source)? {
            if bytes.is_empty() {
                return Err(Stop::End);
            }
            return Err(Stop::HeadFault);
        }
    }
}
