//! How far a message has come.

ghost use Rattle.std.specs.Prelude.{◌≡◌};
ghost use Rattle.text7901.specs.Machine.{step, head_step_of, at_end};

use crate::bytes::{EOT, ETX, STX, is_digit, is_letter};
use crate::found::What;

/// How far a message has come.
#[derive(Clone, Copy)]
pub enum Phase {
    /// So many letters of the source.
    Source(u8),
    /// So many digits of the number.
    Number(u8),
    /// The rest of the header line, or the slug part.
    Head,
    Text,
    /// The post-text information.
    Info,
}

/// What a byte does to a message.
#[derive(Clone, Copy)]
pub enum Step {
    Go(Phase),
    Bad(What),
    Ends,
}

impl Phase {
    /// What the byte does, which is no SOH.
    pub fn step(self, byte: u8) -> Step
        ensures { result ≡ step self byte }
    {
        match self {
            Phase::Source(n) => {
                if is_letter(byte) && n < 8 {
                    Step::Go(Phase::Source(n + 1))
                } else if is_digit(byte) && 0 < n {
                    Step::Go(Phase::Number(1))
                } else {
                    Step::Bad(What::NoHeader)
                }
            }
            Phase::Number(n) => {
                if is_digit(byte) && n < 8 {
                    Step::Go(Phase::Number(n + 1))
                } else {
                    head_step(byte)
                }
            }
            Phase::Head => head_step(byte),
            Phase::Text => match byte {
                ETX => Step::Go(Phase::Info),
                EOT => Step::Bad(What::NoEnd),
                _ => Step::Go(Phase::Text),
            },
            Phase::Info => {
                if byte == EOT {
                    Step::Ends
                } else {
                    Step::Go(Phase::Info)
                }
            }
        }
    }

    /// What a message comes to that ends here.
    pub fn at_end(self) -> Option<What>
        ensures { result ≡ at_end self }
    {
        match self {
            Phase::Source(_) => Some(What::NoHeader),
            Phase::Number(_) | Phase::Head => Some(What::NoText),
            Phase::Text => Some(What::NoEnd),
            Phase::Info => None,
        }
    }
}

fn head_step(byte: u8) -> Step
    ensures { result ≡ head_step_of byte }
{
    match byte {
        STX => Step::Go(Phase::Text),
        EOT => Step::Bad(What::NoText),
        _ => Step::Go(Phase::Head),
    }
}
