// Why a run ended.
ghost use Rattle.std.specs.Prelude.{◌≡◌};
ghost use Rattle.line_run.specs.Turns.{ending_of};
ghost use Rattle.line_run.specs.Status.{status_by};
ghost use Rattle.line_run.specs.declared.ending.Ending.TheVariants.{Memory};

use crate::Stopped;
use run_status::Status;
use std::alloc::AllocError;

#[derive(Clone, Copy, Debug, PartialEq, Eq)]
pub enum Ending {
    /// The input failed.
    Read,
    /// The output failed.
    Write,
    /// The log failed.
    Store,
    /// The next record would pass the limit.
    Full,
    /// There was no memory.
    Memory,
    /// The input has too many bytes.
    TooLong,
}

impl From<AllocError> for Ending {
    ghost from_gives = { λ _ e. e ≡ Memory };

    fn from(_: AllocError) -> Self {
        Ending::Memory
    }
}

impl From<Stopped> for Ending {
    ghost from_gives = { λ why e. e ≡ ending_of why };

    fn from(why: Stopped) -> Self {
        match why {
            Stopped::Memory => Ending::Memory,
            Stopped::Fault => Ending::Store,
            Stopped::Full => Ending::Full,
        }
    }
}

impl From<Ending> for Status {
    ghost from_gives = { λ why s. s ≡ status_by why };

    fn from(why: Ending) -> Self {
        match why {
            Ending::Read => Status::Input,
            Ending::Write => Status::Output,
            Ending::Store => Status::Store,
            Ending::Full => Status::Full,
            Ending::Memory => Status::Memory,
            Ending::TooLong => Status::TooLong,
        }
    }
}
