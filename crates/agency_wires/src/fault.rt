//! Why a message is not read.

ghost use Rattle.std.specs.Prelude.{◌≡◌};
ghost use Rattle.agency_wires.specs.declared.fault.WireFault.TheVariants as fault_is;

use news_types::Memory;
use std::alloc::AllocError;

/// What is wrong with a message.
#[derive(Clone, Copy, Debug, PartialEq, Eq)]
pub enum What {
    /// The text is one of ANPA 1312: `^` and `<` stand in its first line that is not empty.
    NotThisForm,
    /// The header line does not begin with source and number.
    NoHeader,
    /// The message has no STX.
    NoText,
    /// The message has no ETX behind its STX.
    NoEnd,
    /// The body has more than 524288 bytes as UTF-8.
    TooLong,
}

/// Why a message is not read.
#[derive(Clone, Copy, Debug, PartialEq, Eq)]
pub enum WireFault {
    /// What is wrong with it, and the place, counted from 0 behind its SOH: of the header 0, of a text
    /// the place behind STX, and of what is missing the place behind the message.
    Fault { at: u64, what: What },
    /// There is no memory for it.
    Memory,
}

impl From<Memory> for WireFault {
    ghost from_gives = { λ _ fault. fault ≡ fault_is.Memory };

    fn from(_: Memory) -> WireFault {
        WireFault::Memory
    }
}

impl From<AllocError> for WireFault {
    ghost from_gives = { λ _ fault. fault ≡ fault_is.Memory };

    fn from(_: AllocError) -> WireFault {
        WireFault::Memory
    }
}
