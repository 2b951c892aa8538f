//! The two files of the store that the words name.

use command_words::{Job, Options};
use news_io::{Access, FileDisk, Lock, NotOpened};
use news_types::{Memory, Text};
use run_status::Status;
use std::alloc::Global;
use std::fs::File;
use std::rt::Files;

/// What a command does with its store.
#[derive(Clone, Copy, PartialEq, Eq)]
pub enum Keeping {
    /// It has none.
    Nothing,
    /// It only reads it.
    Reads,
    /// It may write into the log.
    Writes,
    /// It may write into both files.
    Packs,
    /// It makes both files.
    Makes,
    /// It makes the log, and leaves the side alone.
    MakesLog,
}

/// What this command does with its store.
pub fn keeping_of(job: Job<'_>) -> Keeping {
    match job {
        Job::Drill { .. } => Keeping::Nothing,
        Job::Check
        | Job::Archive { .. }
        | Job::Contents(_)
        | Job::Audit(_)
        | Job::Ask(_)
        | Job::Digest(_)
        | Job::Limits
        | Job::Why { .. }
        | Job::Ship(_) => Keeping::Reads,
        Job::Pack => Keeping::Packs,
        Job::Init(_) | Job::StandIn(_) => Keeping::Makes,
        Job::Receive(_) => Keeping::MakesLog,
        Job::Batch
        | Job::Ingest { .. }
        | Job::Import(_)
        | Job::Package { .. }
        | Job::Feed { .. }
        | Job::Queue
        | Job::Drain => Keeping::Writes,
    }
}

impl Keeping {
    /// Whether a command that does so has these options, but for `--key`, which is for `serve` alone.
    pub fn allows(self, options: Options) -> bool {
        match self {
            Keeping::Nothing => !options.waits && !options.beside,
            Keeping::Reads => true,
            _ => !options.beside,
        }
    }

    fn log_access(self) -> Access {
        match self {
            Keeping::Nothing | Keeping::Reads => Access::Read,
            Keeping::Writes | Keeping::Packs => Access::Write,
            Keeping::Makes | Keeping::MakesLog => Access::Make,
        }
    }

    fn side_access(self) -> Access {
        match self {
            Keeping::Nothing | Keeping::Reads | Keeping::MakesLog => Access::Read,
            Keeping::Writes | Keeping::Packs => Access::Write,
            Keeping::Makes => Access::Make,
        }
    }

    fn log_lock(self, options: Options) -> Lock {
        match self {
            Keeping::Nothing => Lock::Unlocked,
            Keeping::Reads if options.beside => Lock::Unlocked,
            Keeping::Reads => Lock::Shared,
            _ => Lock::Exclusive,
        }
    }

    /// Who reads a store beside its server asks for the side alone, so that it is not packed meanwhile.
    fn side_lock(self, options: Options) -> Lock {
        match self {
            Keeping::Packs => Lock::Exclusive,
            Keeping::Reads if options.beside => Lock::Shared,
            _ => Lock::Unlocked,
        }
    }
}

/// The log and the side of the store that the words name, opened and locked for a command that does this with them, before anything of
/// them is read or written; or the status that says why they are not. A side that is missing counts as empty.
pub fn open_files<R: Files<File = File> + Clone + Drop>(
    rt: &R,
    alloc: Global,
    words: &[Text],
    keeping: Keeping,
    options: Options,
) -> Result<(FileDisk<R>, FileDisk<R>), Status> {
    let Ok((mut log, mut side)) = files_of(rt, alloc, words, keeping) else {
        return Err(Status::Memory);
    };
    if keeping == Keeping::Nothing {
        return Ok((log, side));
    }
    match log.open(keeping.log_lock(options), options.waits) {
        Ok(()) => {}
        Err(NotOpened::Missing) => return Err(Status::WrongStore),
        Err(NotOpened::Held) => return Err(Status::Held),
        Err(NotOpened::Failed) => return Err(Status::Store),
    }
    if keeping == Keeping::MakesLog {
        return Ok((log, side));
    }
    match side.open(keeping.side_lock(options), options.waits) {
        Ok(()) | Err(NotOpened::Missing) => Ok((log, side)),
        Err(NotOpened::Held) => Err(Status::Held),
        Err(NotOpened::Failed) => Err(Status::Store),
    }
}

/// The log and the side of the store that the words name, not opened yet.
fn files_of<R: Files<File = File> + Clone + Drop>(
    rt: &R,
    alloc: Global,
    words: &[Text],
    keeping: Keeping,
) -> Result<(FileDisk<R>, FileDisk<R>), Memory> {
    let log = path_of(alloc, words, "")?;
    let log = FileDisk::new(rt.clone()?, log, keeping.log_access());
    let side = path_of(alloc, words, ".side")?;
    let side = FileDisk::new(rt.clone()?, side, keeping.side_access());
    Ok((log, side))
}

/// The path of the store that the words name, with this behind it.
fn path_of(alloc: Global, words: &[Text], behind: &str) -> Result<String, Memory> {
    let mut path = String::new(alloc);
    if let Some(store) = words.get(1) {
        path.push_str(store.as_str())?;
    }
    path.push_str(behind)?;
    Ok(path)
}
