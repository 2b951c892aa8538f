//! A disk whose failures are told.
ghost use Rattle.std.specs.Prelude.{◌≡◌};

use error_lines::Rate;
use news_io::{Disk, Failed, FileDisk};
use std::fmt::{self, Display, Formatter, Write};
use std::fs::File;
use std::io;
use std::rt::Files;
use std::time::Clock;

/// A disk that keeps what the system answered to the last call that failed.
pub trait KeepsError {
    /// The system's error at the last call that failed, if it gave one.
    fn last_error(&self) -> Option<io::Error>;
}

impl<R: Files<File = File> + Drop> KeepsError for FileDisk<R> {
    fn last_error(&self) -> Option<io::Error> {
        FileDisk::last_error(self)
    }
}

/// What failed, and what the system answered.
#[derive(Clone, Copy)]
struct Failure<'a> {
    why: &'a str,
    error: Option<io::Error>,
}

impl Display for Failure<'_> {
    fn fmt<W: Write>(&self, f: &mut Formatter<W>) -> fmt::Result {
        f.write_str(self.why)?;
        match self.error {
            Some(error) => write!(f, ": {error}"),
            None => Ok(()),
        }
    }
}

/// What a file is to its store.
#[derive(Clone, Copy, Debug, PartialEq, Eq)]
pub enum StoreFile {
    Log,
    Side,
}

impl StoreFile {
    /// Its word in a line.
    pub fn word(self) -> &'static str {
        match self {
            StoreFile::Log => "log",
            StoreFile::Side => "side",
        }
    }
}

/// A disk, each failure of which is told on standard error with what the system answered, at most once a minute. It means what it is
/// made of.
#[derive(Drop)]
pub struct SpokenDisk<D, R> {
    pub inner: D,
    rt: R,
    file: StoreFile,
    rate: Rate,
}

impl<D, R: Clock + Eprint> SpokenDisk<D, R> {
    /// The disk of this file.
    pub fn new(inner: D, rt: R, file: StoreFile) -> SpokenDisk<D, R>
        ensures { result.inner ≡ inner }
    {
        SpokenDisk {
            inner,
            rt,
            file,
            rate: Rate::new(),
        }
    }
}

impl<D: KeepsError, R: Clock + Eprint> SpokenDisk<D, R> {
    /// Tells that a call failed, if it did.
    fn told<T>(&mut self, done: Result<T, Failed>, why: &str) -> Result<T, Failed>
        ensures value { result ≡ done }
        ensures inner { self.new.inner ≡ self.old.inner }
    {
        if done.is_err() {
            let error = self.inner.last_error();
            let file = self.file.word();
            self.rate.tell(&self.rt, file, "", &Failure { why, error });
        }
        done
    }
}

impl<D: Disk + KeepsError, R: Clock + Eprint> Disk for SpokenDisk<D, R> {
    ghost use Rattle.spoken_devices.specs.Meanings.{spoken_disk};

    ghost disk = { spoken_disk D.disk };

    fn size(&mut self) -> Result<u64, Failed> {
        let done = self.inner.size();
        self.told(done, "its length could not be read")
    }

    fn read(&mut self, at: u64, into: &mut [u8]) -> Result<usize, Failed> {
        let done = self.inner.read(at, into);
        self.told(done, "it could not be read")
    }

    fn write_at(&mut self, at: u64, from: &[u8]) -> Result<(), Failed> {
        let done = self.inner.write_at(at, from);
        self.told(
            done,
            "what was asked is answered 503, as it could not be written",
        )
    }

    fn sync(&mut self) -> Result<(), Failed> {
        let done = self.inner.sync();
        self.told(
            done,
            "what was asked is answered 503, as what was written could not be made last",
        )
    }
}
