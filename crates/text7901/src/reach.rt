//! How far a message goes in a piece of the input.

ghost use Rattle.std.specs.Prelude.{◌≡◌, ◌≤◌};
ghost use Rattle.text7901.specs.Machine.{turn, within_size, IsReach};

use crate::bytes::SOH;
use crate::found::What;
use crate::phase::{Phase, Step};

/// The most bytes behind the SOH of a message.
pub const MOST: usize = 131071;

/// What a byte does to a message: it goes on in a phase, or is over before the byte.
#[derive(Clone, Copy)]
pub enum Turn {
    On(Phase),
    Over(Option<What>),
}

/// How far a message goes in a piece: it is still open behind it, or ends behind so many bytes.
#[derive(Clone, Copy)]
pub enum Reach {
    Open(Phase),
    Ended { len: usize, what: Option<What> },
}

/// How far a message goes in a piece, of which so many bytes came before.
// Inlined, since pieces may be single bytes.
#[inline(always)]
pub fn reach_in(start: Phase, held: usize, piece: &[u8]) -> Reach
    requires { held ≤ 131071 }
    ensures { IsReach start held piece.now result }
{
    let mut phase = start;
    for (i, byte) in piece.iter().enumerate() {
        match turn_at(phase, held + i, *byte) {
            Turn::On(next) => phase = next,
            Turn::Over(what) => return Reach::Ended { len: i, what },
        }
    }
    Reach::Open(phase)
}

/// What a byte does behind so many bytes of a message.
fn turn_at(phase: Phase, held: usize, byte: u8) -> Turn
    ensures { result ≡ turn phase held byte }
{
    if byte == SOH {
        Turn::Over(phase.at_end())
    } else {
        within_size(held, phase.step(byte))
    }
}

/// The step, where the message has room for its byte.
fn within_size(held: usize, step: Step) -> Turn
    ensures { result ≡ within_size held step }
{
    match step {
        Step::Go(_) | Step::Ends if held == MOST => Turn::Over(Some(What::TooLong)),
        Step::Go(phase) => Turn::On(phase),
        Step::Bad(what) => Turn::Over(Some(what)),
        Step::Ends => Turn::Over(None),
    }
}
