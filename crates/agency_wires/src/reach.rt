//! How far a message goes in a piece of the input.

ghost use Rattle.std.specs.Prelude.{◌≡◌, ◌≤◌, ◌||◌, not, length, take};
ghost use Rattle.std.specs.List.{prefix_len};
ghost use Rattle.agency_wires.specs.Messages.{ends_line, ends_message};
ghost use Rattle.agency_wires.specs.Machine.{turn, within_size, IsReach, Leads};
ghost use Rattle.agency_wires.specs.declared.phase.Phase.TheVariants as Phase;

use crate::bytes::{EOT, ETX, SOH, STX, ends_line, ends_message};
use crate::phase::{Phase, Step};
use memchr::memchr3;

/// The most bytes behind the SOH of a message.
pub const MOST: usize = 1_048_576;

/// With what a message is over.
#[derive(Clone, Copy)]
pub enum End {
    Whole,
    TooLong,
}

/// What a byte does to a message: it goes on in a phase, or is over before the byte.
#[derive(Clone, Copy)]
pub enum Turn {
    On(Phase),
    Over(End),
}

/// How far a message goes in a piece: it is still open behind it, or is over behind so many bytes.
#[derive(Clone, Copy)]
pub enum Reach {
    Open(Phase),
    Ended { len: usize, end: End },
}

/// How far a message goes in a piece, of which so many bytes came before.
// Inlined, since pieces may be single bytes.
#[inline(always)]
pub fn reach_in(start: Phase, held: usize, piece: &[u8]) -> Reach
    requires { held ≤ 1_048_576 }
    ensures { IsReach start held piece.now result }
{
    let mut phase = start;
    let mut at = 0;
    while at < piece.len() {
        match turn_at(phase, held + at, piece[at]) {
            Turn::On(next) => phase = next,
            Turn::Over(end) => return Reach::Ended { len: at, end },
        }
        at += 1;
        at += quiet_len(phase, MOST - (held + at), &piece[at..]);
    }
    Reach::Open(phase)
}

/// How many bytes at the front, at most so many, leave a message in its phase.
#[inline(always)]
fn quiet_len(phase: Phase, most: usize, bytes: &[u8]) -> usize
    ensures leads { Leads phase (take result bytes.now) phase }
    ensures within { result ≤ length bytes.now }
    ensures few { result ≤ most }
{
    let near = &bytes[..most.min(bytes.len())];
    match phase {
        Phase::Head => head_len(near),
        Phase::Text => text_len(near),
        Phase::Mark(_) => 0,
        Phase::Info => line_len(near),
    }
}

/// How many bytes at the front go on before STX.
fn head_len(bytes: &[u8]) -> usize
    ensures leads { Leads Phase.Head (take result bytes.now) Phase.Head }
    ensures within { result ≤ length bytes.now }
{
    match memchr3(SOH, STX, EOT, bytes) {
        Some(i) => i,
        None => bytes.len(),
    }
}

/// How many bytes at the front go on before ETX.
fn text_len(bytes: &[u8]) -> usize
    ensures leads { Leads Phase.Text (take result bytes.now) Phase.Text }
    ensures within { result ≤ length bytes.now }
{
    match memchr3(SOH, ETX, EOT, bytes) {
        Some(i) => i,
        None => bytes.len(),
    }
}

/// How many bytes at the front end no line and no message.
fn line_len(bytes: &[u8]) -> usize
    ensures value { result ≡ prefix_len (λ b. not (ends_line b || ends_message b)) bytes.now }
    ensures within { result ≤ length bytes.now }
{
    bytes
        .iter()
        .take_while(|byte| !(ends_line(**byte) || ends_message(**byte)))
        .count()
}

/// What a byte does behind so many bytes of a message.
fn turn_at(phase: Phase, held: usize, byte: u8) -> Turn
    ensures { result ≡ turn phase held byte }
{
    if ends_message(byte) {
        Turn::Over(End::Whole)
    } else {
        within_size(held, phase.step(byte))
    }
}

/// The step, where the message has room for its byte.
fn within_size(held: usize, step: Step) -> Turn
    ensures { result ≡ within_size held step }
{
    match step {
        Step::Ends => Turn::Over(End::Whole),
        Step::Go(_) if held == MOST => Turn::Over(End::TooLong),
        Step::Go(phase) => Turn::On(phase),
    }
}
