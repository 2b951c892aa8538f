//! Why no request comes.
ghost use Rattle.std.specs.Prelude.{◌≡◌};
ghost use Rattle.http_wire.specs.declared.stop.Stop.TheVariants.{ReadFault as read_fault, Memory as no_memory};
ghost use Rattle.http_wire.specs.Wires.{stop_wire};

use crate::request::Wire;
use news_io::Failed;
use news_types::Memory;
use std::alloc::AllocError;

/// Why no request comes.
#[derive(Clone, Copy)]
pub(crate) enum Stop {
    /// The input ended before a request's first byte.
    End,
    /// There is no head, or the input ends inside a request, or the length of the body is not of the form.
    HeadFault,
    /// A head or a body has too much.
    TooLarge,
    /// The body comes in a coding.
    Chunked,
    /// The source failed.
    ReadFault,
    /// There is no memory.
    Memory,
}

impl From<Failed> for Stop {
    ghost from_gives = { λ _ e. e ≡ read_fault };

    fn from(_: Failed) -> Stop {
        Stop::ReadFault
    }
}

impl From<AllocError> for Stop {
    ghost from_gives = { λ _ e. e ≡ no_memory };

    fn from(_: AllocError) -> Stop {
        Stop::Memory
    }
}

impl From<Memory> for Stop {
    ghost from_gives = { λ _ e. e ≡ no_memory };

    fn from(_: Memory) -> Stop {
        Stop::Memory
    }
}

/// What a connection gives then.
pub(crate) fn wire_of(stop: Stop) -> Wire
    ensures { result ≡ stop_wire stop }
{
    match stop {
        Stop::End => Wire::End,
        Stop::HeadFault => Wire::HeadFault,
        Stop::TooLarge => Wire::TooLarge,
        Stop::Chunked => Wire::Chunked,
        Stop::ReadFault => Wire::ReadFault,
        Stop::Memory => Wire::Memory,
    }
}
