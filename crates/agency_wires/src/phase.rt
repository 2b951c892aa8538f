//! How far a message has come.

ghost use Rattle.std.specs.Prelude.{◌≡◌};
ghost use Rattle.agency_wires.specs.Machine.{step, line_step};

use crate::bytes::{ETX, STX, ends_line};

/// How many letters N the line has that ends a message.
const MARK: u8 = 4;

/// How far a message has come.
#[derive(Clone, Copy)]
pub enum Phase {
    /// Before its STX.
    Head,
    /// Before its ETX.
    Text,
    /// In a line of post-text information that has letters N alone so far, and with so many more is
    /// the line `NNNN`.
    Mark(u8),
    /// In another line of post-text information.
    Info,
}

/// What a byte does to a message.
#[derive(Clone, Copy)]
pub enum Step {
    Go(Phase),
    Ends,
}

impl Phase {
    /// What the byte does, which is no SOH and no EOT.
    pub fn step(self, byte: u8) -> Step
        ensures { result ≡ step self byte }
    {
        match self {
            Phase::Head if byte == STX => Step::Go(Phase::Text),
            Phase::Head => Step::Go(Phase::Head),
            Phase::Text if byte == ETX => Step::Go(Phase::Mark(MARK)),
            Phase::Text => Step::Go(Phase::Text),
            Phase::Mark(missing) => line_step(missing, byte),
            Phase::Info if ends_line(byte) => Step::Go(Phase::Mark(MARK)),
            Phase::Info => Step::Go(Phase::Info),
        }
    }
}

/// What the byte does in a line of letters N that lacks so many.
fn line_step(missing: u8, byte: u8) -> Step
    ensures { result ≡ line_step missing byte }
{
    if missing == 0 {
        if ends_line(byte) {
            Step::Ends
        } else {
            Step::Go(Phase::Info)
        }
    } else if byte == b'N' {
        Step::Go(Phase::Mark(missing - 1))
    } else if ends_line(byte) {
        Step::Go(Phase::Mark(MARK))
    } else {
        Step::Go(Phase::Info)
    }
}
