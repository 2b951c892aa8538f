//! A file of the system as a disk.
ghost use Rattle.std.specs.Prelude.{◌≡◌, ◌≤◌, ℕ, length, IfOk};

use crate::{Access, Disk, Failed, Faults, Lock, NotOpened};
use std::fs::{File, Files, OpenOptions, TryLockError};
use std::io::{self, ErrorKind};
use std::os::unix::fs::{FileExt, OpenOptionsExt};
use std::path::Path;

/// The permissions of a file that is made: its owner may read and write it.
const OWNERS_ALONE: u32 = 0o600;

/// A file of the system, which is opened at the first call, or by `open`. One that is missing counts as empty, and is made by the first
/// write, unless it is only to be read. It tells nothing of its content.
#[derive(Drop)]
pub struct FileDisk<R> {
    file: LateFile<R>,
    faults: Faults,
}

/// A file that is opened once it is needed.
#[derive(Drop)]
struct LateFile<R> {
    rt: R,
    path: String,
    access: Access,
    file: Option<File>,
    /// Whether its folder is to be synced with it: whoever made the file may not have done so.
    syncs_folder: bool,
    /// Whether a write was refused since it is only to be read.
    has_refused: bool,
}

/// How a file is opened for this access.
fn options_for(access: Access) -> OpenOptions {
    let mut options = OpenOptions::new();
    options.read(true);
    match access {
        Access::Read => {}
        Access::Write => {
            options.write(true);
        }
        Access::Make => {
            options.write(true).create(true).mode(OWNERS_ALONE);
        }
    }
    options
}

/// Takes a lock on the file, if one is wanted.
fn lock_file(file: &File, lock: Lock, waits: bool) -> Result<(), TryLockError> {
    match (lock, waits) {
        (Lock::Unlocked, _) => Ok(()),
        (Lock::Shared, true) => file.lock_shared().map_err(TryLockError::Error),
        (Lock::Shared, false) => file.try_lock_shared(),
        (Lock::Exclusive, true) => file.lock().map_err(TryLockError::Error),
        (Lock::Exclusive, false) => file.try_lock(),
    }
}

/// Makes the names in the file's folder last.
fn sync_folder<R: Files<File = File>>(rt: &R, path: &str) -> io::Result<()> {
    let folder = match Path::new(path).parent() {
        Some(folder) if !folder.as_str().is_empty() => folder.as_str(),
        _ => ".",
    };
    File::open(rt, folder)?.sync_all()
}

impl<R: Files<File = File>> LateFile<R> {
    /// Opens the file, unless that is done. A missing one stays closed, unless it is to be made.
    fn open(&mut self) -> io::Result<()> {
        if self.file.is_some() {
            return Ok(());
        }
        match options_for(self.access).open(&self.rt, self.path.as_str()) {
            Ok(file) => self.keep(file),
            Err(error) if error.kind() == ErrorKind::NotFound && self.access != Access::Make => {
                Ok(())
            }
            Err(error) => Err(error),
        }
    }

    fn keep(&mut self, file: File) -> io::Result<()> {
        self.syncs_folder = file.metadata()?.len() == 0;
        self.file = Some(file);
        Ok(())
    }

    /// Makes the file, if it is missing.
    fn make(&mut self) -> io::Result<()> {
        if self.file.is_some() {
            return Ok(());
        }
        let file = options_for(Access::Make).open(&self.rt, self.path.as_str())?;
        self.keep(file)
    }

    fn size(&mut self) -> io::Result<u64> {
        self.open()?;
        match &self.file {
            Some(file) => Ok(file.metadata()?.len()),
            None => Ok(0),
        }
    }

    fn read(&mut self, at: u64, into: &mut [u8]) -> io::Result<usize>
        ensures { IfOk result (λ n. n ≤ length into.old) }
    {
        self.open()?;
        let Some(file) = &self.file else {
            return Ok(0);
        };
        // A read that a signal cut short is made again.
        for _ in 0..u64::MAX {
            match file.read_at(into, at) {
                Err(error) if error.kind() == ErrorKind::Interrupted => {}
                got => return got,
            }
        }
        Err(io::Error::from(ErrorKind::Interrupted))
    }

    fn write_at(&mut self, at: u64, from: &[u8]) -> io::Result<()> {
        if self.access == Access::Read {
            self.has_refused = true;
            return Err(io::Error::from(ErrorKind::PermissionDenied));
        }
        self.open()?;
        self.make()?;
        match &self.file {
            Some(file) => file.write_all_at(from, at),
            None => Err(io::Error::from(ErrorKind::NotFound)),
        }
    }

    fn sync(&mut self) -> io::Result<()> {
        self.open()?;
        let Some(file) = &self.file else {
            return Ok(());
        };
        file.sync_data()?;
        if self.syncs_folder {
            sync_folder(&self.rt, self.path.as_str())?;
            self.syncs_folder = false;
        }
        Ok(())
    }
}

impl<R: Files<File = File> + Drop> FileDisk<R> {
    ghost use Rattle.news_io.specs.Devices.{file_disk};

    /// A disk over the file at this path. Nothing is opened yet.
    pub fn new(rt: R, path: String, access: Access) -> FileDisk<R>
        ensures { file_disk.faults result ≡ 0 }
    {
        FileDisk {
            file: LateFile {
                rt,
                path,
                access,
                file: None,
                syncs_folder: false,
                has_refused: false,
            },
            faults: Faults::none(),
        }
    }

    /// Opens the file, and takes this lock on it, before anything of it is read or written. Where another open of the file holds a
    /// lock against it, it waits for that one if `waits` is set. The lock is advice among those that ask for it; the system
    /// gives it back when the process ends, however it ends.
    pub fn open(&mut self, lock: Lock, waits: bool) -> Result<(), NotOpened>
        ensures { file_disk.faults self.new ≡ file_disk.faults self.old }
    {
        if let Err(error) = self.file.open() {
            self.faults.note(error);
            return Err(NotOpened::Failed);
        }
        let Some(file) = &self.file.file else {
            return Err(NotOpened::Missing);
        };
        match lock_file(file, lock, waits) {
            Ok(()) => Ok(()),
            Err(TryLockError::WouldBlock) => Err(NotOpened::Held),
            Err(TryLockError::Error(error)) => {
                self.faults.note(error);
                Err(NotOpened::Failed)
            }
        }
    }

    /// The system's error at the last call that failed, if one did.
    pub fn last_error(&self) -> Option<io::Error> {
        self.faults.last_error()
    }

    /// Whether a write was refused since the file is only to be read.
    pub fn has_refused_write(&self) -> bool {
        self.file.has_refused
    }

    /// How many of its calls failed.
    pub fn fault_count(&self) -> u64
        ensures { result ≡ file_disk.faults self.now }
    {
        self.faults.count()
    }
}

impl<R: Files<File = File> + Drop> Disk for FileDisk<R> {
    ghost use Rattle.news_io.specs.Devices.{file_disk};

    ghost disk = { file_disk };

    fn size(&mut self) -> Result<u64, Failed> {
        self.faults.counted(self.file.size())
    }

    fn read(&mut self, at: u64, into: &mut [u8]) -> Result<usize, Failed> {
        self.faults.counted(self.file.read(at, into))
    }

    fn write_at(&mut self, at: u64, from: &[u8]) -> Result<(), Failed> {
        self.faults.counted(self.file.write_at(at, from))
    }

    fn sync(&mut self) -> Result<(), Failed> {
        self.faults.counted(self.file.sync())
    }
}
