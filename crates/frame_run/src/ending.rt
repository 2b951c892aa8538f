// Why a run ended.
ghost use Rattle.std.specs.Prelude.{◌≡◌};
ghost use Rattle.frame_run.specs.Status.{status_by};
ghost use Rattle.frame_run.specs.declared.ending.Ending.TheVariants.{Memory};

use run_status::Status;
use std::alloc::AllocError;

/// Why a run ended before the end of its input, or at it with a rest that is no frame.
#[derive(Clone, Copy, Debug, PartialEq, Eq)]
pub enum Ending {
    /// The input failed.
    Read,
    /// The output failed.
    Write,
    /// The log failed.
    Store,
    /// The record of the next frame would pass the limit.
    Full,
    /// There was no memory.
    Memory,
    /// The input has too many bytes.
    TooLong,
    /// What follows the last whole frame is no frame.
    BadFrame {
        /// The place of the first byte such that no frame goes on with the bytes up to and with it, or the input's length
        /// where it ends too soon; in bytes from the input's start.
        at: u64,
    },
}

impl From<AllocError> for Ending {
    ghost from_gives = { λ _ e. e ≡ Memory };

    fn from(_: AllocError) -> Self {
        Ending::Memory
    }
}

impl From<Ending> for Status {
    ghost from_gives = { λ why s. s ≡ status_by why };

    fn from(why: Ending) -> Self {
        match why {
            Ending::Read => Status::Input,
            Ending::Write => Status::Output,
            Ending::Store => Status::Store,
            Ending::Full => Status::Full,
            Ending::Memory => Status::Memory,
            Ending::TooLong => Status::TooLong,
            Ending::BadFrame { at } => Status::BadFrame { at },
        }
    }
}
