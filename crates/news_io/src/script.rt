//! Which calls of a double in memory fail.
ghost use Rattle.std.specs.Prelude.{◌≡◌, ◌+◌, ◌-◌, ◌^◌, ◌<◌, ◌↔◌, ◌⊎◌, min, Contains, IsErr};
ghost use Rattle.news_io.specs.Calls.{Called};
ghost use Rattle.news_io.specs.Faults.{Counts};

use crate::{Failed, Faults};

/// The calls that are to fail, and how many were made and failed.
#[derive(Drop)]
pub(crate) struct Script {
    /// The numbers of the calls that are to fail, from 1.
    failing: Vec<u64>,
    /// Each call behind this one is to fail too.
    last: u64,
    pub(crate) calls: u64,
    pub(crate) faults: Faults,
}

impl Script {
    /// No call is to fail but these.
    pub(crate) fn failing_at(failing: Vec<u64>) -> Script
        ensures faults { result.faults ≡ 0 }
        ensures calls { result.calls ≡ 0 }
        ensures failing { result.failing ≡ failing }
        ensures last { result.last ≡ 2 ^ 64 - 1 }
    {
        Script {
            failing,
            last: u64::MAX,
            calls: 0,
            faults: Faults::none(),
        }
    }

    /// So many calls are done, and each later one is to fail.
    pub(crate) fn stopped_after(calls: u64, none: Vec<u64>) -> Script
        ensures faults { result.faults ≡ 0 }
        ensures calls { result.calls ≡ 0 }
        ensures last { result.last ≡ calls }
    {
        Script {
            failing: none,
            last: calls,
            calls: 0,
            faults: Faults::none(),
        }
    }

    /// Counts a call, and fails where it is to fail.
    pub(crate) fn begin(&mut self) -> Result<(), Failed>
        ensures number { self.new.calls ≡ min (self.old.calls + 1) (2 ^ 64 - 1) }
        ensures calls { Called self.old.calls self.new.calls }
        ensures due { IsErr result ↔ ((self.old.last < self.new.calls) ⊎ Contains self.old.failing.items self.new.calls) }
        ensures count { Counts self.old.faults self.new.faults result }
        ensures failing { self.new.failing ≡ self.old.failing }
        ensures last { self.new.last ≡ self.old.last }
    {
        self.calls = self.calls.saturating_add(1);
        if self.calls > self.last || self.failing.contains(&self.calls) {
            return Err(self.faults.fail());
        }
        Ok(())
    }
}
