//! A source or a disk whose bytes are counted, or a clock whose readings are. It means what it is made of.
ghost use Rattle.std.specs.Prelude.{◌≡◌};

use crate::Meter;
use news_io::{Clock, Disk, Failed, Source};
use std::time::Clock as SystemClock;

/// What is watched, with a meter of the bytes that are read from it, or of a clock's readings, where one is wanted.
#[derive(Drop)]
pub struct Watched<T, R> {
    pub inner: T,
    meter: Option<Meter<R>>,
}

impl<T, R: SystemClock + Eprint> Watched<T, R> {
    /// Watches it.
    pub fn new(inner: T, meter: Option<Meter<R>>) -> Watched<T, R>
        ensures { result.inner ≡ inner }
    {
        Watched { inner, meter }
    }

    // Counts bytes.
    fn count(&mut self, bytes: &[u8])
        ensures { self.new.inner ≡ self.old.inner }
    {
        if let Some(meter) = &mut self.meter {
            meter.count(bytes);
        }
    }

    // Counts a step.
    fn step(&mut self)
        ensures { self.new.inner ≡ self.old.inner }
    {
        if let Some(meter) = &mut self.meter {
            meter.step();
        }
    }

    /// Whether a line was shown.
    pub fn has_shown(&self) -> bool {
        match &self.meter {
            Some(meter) => meter.has_shown(),
            None => false,
        }
    }
}

impl<S: Source, R: SystemClock + Eprint> Source for Watched<S, R> {
    ghost use Rattle.progress.specs.Meanings.{watched_source};

    ghost source = { watched_source S.source };

    fn read(&mut self, into: &mut [u8]) -> Result<usize, Failed> {
        let count = self.inner.read(into)?;
        self.count(&into[..count]);
        Ok(count)
    }
}

impl<D: Disk, R: SystemClock + Eprint> Disk for Watched<D, R> {
    ghost use Rattle.progress.specs.Meanings.{watched_disk};

    ghost disk = { watched_disk D.disk };

    fn size(&mut self) -> Result<u64, Failed> {
        self.inner.size()
    }

    fn read(&mut self, at: u64, into: &mut [u8]) -> Result<usize, Failed> {
        let count = self.inner.read(at, into)?;
        self.count(&into[..count]);
        Ok(count)
    }

    fn write_at(&mut self, at: u64, from: &[u8]) -> Result<(), Failed> {
        self.inner.write_at(at, from)
    }

    fn sync(&mut self) -> Result<(), Failed> {
        self.inner.sync()
    }
}

impl<C: Clock, R: SystemClock + Eprint> Clock for Watched<C, R> {
    ghost use Rattle.progress.specs.Meanings.{watched_clock};

    ghost clock = { watched_clock C.clock };

    /// Each reading is a step.
    fn now(&mut self) -> u64 {
        self.step();
        self.inner.now()
    }

    fn rest(&mut self) {
        self.inner.rest()
    }
}
