//! What a failing device answers, and the count of it.
ghost use Rattle.std.specs.Prelude.{◌≡◌, ◌≤◌, Ok, IfOk};
ghost use Rattle.news_io.specs.Faults.{Counts, Rose};

use std::io;
use std::marker::Model;

/// A device has failed, and its count of faults has risen.
#[derive(Clone, Copy, Debug, PartialEq, Eq)]
pub struct Failed;

/// A count of faults, which stays at 2^64 - 1, and the last error that the system gave for one.
#[derive(Drop)]
pub struct Faults {
    count: u64,
    last: Option<io::Error>,
}

impl Model for Faults {
    ghost use Rattle.std.specs.Prelude.{ℕ};

    ghost Value = { ℕ };

    ghost view = { λ f. f.count };
}

impl Faults {
    /// No fault yet.
    pub fn none() -> Faults
        ensures { result ≡ 0 }
    {
        Faults {
            count: 0,
            last: None,
        }
    }

    /// Counts one, and gives the answer to it.
    pub fn fail(&mut self) -> Failed
        ensures later { self.old ≤ self.new }
        ensures rose { Rose self.old self.new }
    {
        self.count = self.count.saturating_add(1);
        Failed
    }

    /// Passes on what the system gave, counts a failure, and keeps its error.
    pub fn counted<T>(&mut self, given: io::Result<T>) -> Result<T, Failed>
        ensures count { Counts self.old self.new result }
        ensures value { IfOk result (λ value. given ≡ Ok value) }
    {
        match given {
            Ok(value) => Ok(value),
            Err(error) => {
                self.note(error);
                Err(self.fail())
            }
        }
    }

    /// Keeps an error of the system, and counts nothing.
    pub fn note(&mut self, error: io::Error)
        ensures { self.new ≡ self.old }
    {
        self.last = Some(error);
    }

    /// The last error that the system gave, if it gave one.
    pub fn last_error(&self) -> Option<io::Error> {
        self.last
    }

    /// How many there were.
    pub fn count(&self) -> u64
        ensures { result ≡ self.now }
    {
        self.count
    }
}
