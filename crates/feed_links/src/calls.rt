//! Which calls of the link in memory fail.
ghost use Rattle.std.specs.Prelude.{◌≡◌, ◌+◌, ◌-◌, ◌^◌, ◌↔◌, min, Contains, IsErr};
ghost use Rattle.news_io.specs.Faults.{Counts, Rose};

use news_io::{Failed, Faults};

/// The calls that are to fail, how many were made, and how many failed.
#[derive(Drop)]
pub(crate) struct Calls {
    /// The numbers of the calls that are to fail, from 1.
    failing: Vec<u64>,
    made: u64,
    pub(crate) faults: Faults,
}

impl Calls {
    /// No call was made, and these are to fail.
    pub(crate) fn failing_at(failing: Vec<u64>) -> Calls
        ensures faults { result.faults ≡ 0 }
        ensures made { result.made ≡ 0 }
        ensures failing { result.failing ≡ failing }
    {
        Calls {
            failing,
            made: 0,
            faults: Faults::none(),
        }
    }

    /// Counts a call, and fails where it is to fail.
    pub(crate) fn begin(&mut self) -> Result<(), Failed>
        ensures number { self.new.made ≡ min (self.old.made + 1) (2 ^ 64 - 1) }
        ensures due { IsErr result ↔ Contains self.old.failing.items self.new.made }
        ensures count { Counts self.old.faults self.new.faults result }
        ensures failing { self.new.failing ≡ self.old.failing }
    {
        self.made = self.made.saturating_add(1);
        if self.failing.contains(&self.made) {
            return Err(self.faults.fail());
        }
        Ok(())
    }
}
