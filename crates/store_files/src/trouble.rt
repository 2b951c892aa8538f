//! Why a log and its side do not serve.
ghost use Rattle.std.specs.Prelude.{◌≡◌};
ghost use Rattle.store_files.specs.declared.trouble.Trouble.TheVariants.{Store};
ghost use Rattle.store_files.specs.Trouble.{status_of, trouble_of_file, trouble_of_pair, trouble_of_room, trouble_of_pack};

use news_io::Failed;
use news_journal::OpenFault;
use news_pair::{PackFault, PairFault};
use news_room::RoomFault;
use run_status::Status;

/// Why a log and its side do not serve.
#[derive(Clone, Copy, Debug, PartialEq, Eq)]
pub enum Trouble {
    /// The log is empty where one is wanted, or a file holds something where none does; or they are not a newsroom's log and
    /// its side.
    WrongStore,
    /// A disk has failed.
    Store,
    /// The log's bytes show that the two are no newsroom's list.
    Damaged {
        /// The place that shows it, in bytes from the log's start.
        at: u64,
        /// The byte there, or nothing where the log or a payload ends.
        found: Option<u8>,
    },
    /// The side's bytes show it.
    DamagedSide {
        /// The place that shows it, in bytes from the side's start.
        at: u64,
        /// The byte there, or nothing where the side or a payload ends.
        found: Option<u8>,
    },
    /// The side has no room for what the log has.
    Full,
    /// There was no memory.
    Memory,
}

impl From<Failed> for Trouble {
    ghost from_gives = { λ _ trouble. trouble ≡ Store };

    fn from(_: Failed) -> Self {
        Trouble::Store
    }
}

/// A file that could not be read.
impl From<OpenFault> for Trouble {
    ghost from_gives = { λ fault trouble. trouble ≡ trouble_of_file fault };

    fn from(fault: OpenFault) -> Self {
        match fault {
            OpenFault::DiskFault => Trouble::Store,
            OpenFault::Damaged { at, found } => Trouble::Damaged { at, found },
            OpenFault::Memory => Trouble::Memory,
        }
    }
}

/// Two files that are no pair.
impl From<PairFault> for Trouble {
    ghost from_gives = { λ fault trouble. trouble ≡ trouble_of_pair fault };

    fn from(fault: PairFault) -> Self {
        match fault {
            PairFault::DiskFault => Trouble::Store,
            PairFault::Damaged { at, found } => Trouble::Damaged { at, found },
            PairFault::DamagedSide { at, found } => Trouble::DamagedSide { at, found },
            PairFault::Memory => Trouble::Memory,
        }
    }
}

/// Entries that may not follow one another.
impl From<RoomFault> for Trouble {
    ghost from_gives = { λ fault trouble. trouble ≡ trouble_of_room fault };

    fn from(fault: RoomFault) -> Self {
        match fault {
            RoomFault::Damaged { at, found } => Trouble::Damaged { at, found },
            RoomFault::DamagedSide { at, found } => Trouble::DamagedSide { at, found },
            RoomFault::Memory => Trouble::Memory,
        }
    }
}

/// A pair that is not packed.
impl From<PackFault> for Trouble {
    ghost from_gives = { λ fault trouble. trouble ≡ trouble_of_pack fault };

    fn from(fault: PackFault) -> Self {
        match fault {
            PackFault::DiskFault => Trouble::Store,
            PackFault::Full { .. } => Trouble::Full,
            PackFault::Damaged { at, found } => Trouble::Damaged { at, found },
            PackFault::Memory => Trouble::Memory,
        }
    }
}

impl From<Trouble> for Status {
    ghost from_gives = { λ trouble status. status ≡ status_of trouble };

    fn from(trouble: Trouble) -> Self {
        match trouble {
            Trouble::WrongStore => Status::WrongStore,
            Trouble::Store => Status::Store,
            Trouble::Damaged { at, found } => Status::Damaged { at, found },
            Trouble::DamagedSide { at, found } => Status::DamagedSide { at, found },
            Trouble::Full => Status::Full,
            Trouble::Memory => Status::Memory,
        }
    }
}
