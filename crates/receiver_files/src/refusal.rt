//! Why a file is no log of a receiver.
ghost use Rattle.std.specs.Prelude.{◌≡◌};
ghost use Rattle.receiver_files.specs.declared.refusal.Refusal.TheVariants.{Store};
ghost use Rattle.receiver_files.specs.Refusals.{status_of, refusal_of_file, refusal_of_records};

use feed_receiver::ReceiverFault;
use news_io::Failed;
use news_journal::OpenFault;
use run_status::Status;

/// Why a file does not serve a receiver as its log.
#[derive(Clone, Copy, Debug, PartialEq, Eq)]
pub enum Refusal {
    /// Its header is that of a newsroom's log, or of another receiver's.
    WrongStore,
    /// The disk has failed.
    Store,
    /// Its bytes show that it is no log, or that its records are not the frames of the receiver's feed.
    Damaged {
        /// The place that shows it, in bytes from the file's start.
        at: u64,
        /// The byte there, or nothing where the file ends.
        found: Option<u8>,
    },
    /// There was no memory.
    Memory,
}

impl From<Failed> for Refusal {
    ghost from_gives = { λ _ refusal. refusal ≡ Store };

    fn from(_: Failed) -> Self {
        Refusal::Store
    }
}

/// A file that could not be read, or not be made a log.
impl From<OpenFault> for Refusal {
    ghost from_gives = { λ fault refusal. refusal ≡ refusal_of_file fault };

    fn from(fault: OpenFault) -> Self {
        match fault {
            OpenFault::DiskFault => Refusal::Store,
            OpenFault::Damaged { at, found } => Refusal::Damaged { at, found },
            OpenFault::Memory => Refusal::Memory,
        }
    }
}

/// Records that are not the frames of the feed from number 1 on. The place is that of a record's gate, which is open.
impl From<ReceiverFault> for Refusal {
    ghost from_gives = { λ fault refusal. refusal ≡ refusal_of_records fault };

    fn from(fault: ReceiverFault) -> Self {
        match fault {
            ReceiverFault::Damaged { at } => Refusal::Damaged { at, found: Some(1) },
            ReceiverFault::Memory => Refusal::Memory,
        }
    }
}

impl From<Refusal> for Status {
    ghost from_gives = { λ refusal status. status ≡ status_of refusal };

    fn from(refusal: Refusal) -> Self {
        match refusal {
            Refusal::WrongStore => Status::WrongStore,
            Refusal::Store => Status::Store,
            Refusal::Damaged { at, found } => Status::Damaged { at, found },
            Refusal::Memory => Status::Memory,
        }
    }
}
