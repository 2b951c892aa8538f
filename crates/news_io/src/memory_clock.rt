//! A clock in memory.
ghost use Rattle.std.specs.Prelude.{◌≡◌, ◌<◌, length, ℕ};
ghost use Rattle.news_io.specs.Clock.{shown};

use crate::Clock;

/// A clock that gives a list of readings, and then the last of them again and again.
#[derive(Drop)]
pub struct MemoryClock {
    readings: Vec<u64>,
    at: usize,
    ghost within: { at < length readings.items },
}

impl MemoryClock {
    ghost use Rattle.news_io.specs.Devices.{memory_clock};

    /// A clock with these readings, of which there is one at least.
    pub fn new(readings: Vec<u64>) -> MemoryClock
        requires { 0 < length readings.items }
        ensures tells { memory_clock.tells result }
        ensures ahead { (k : ℕ) → memory_clock.ahead result k ≡ shown readings.items 0 k }
    {
        MemoryClock { readings, at: 0 }
    }
}

impl Clock for MemoryClock {
    ghost use Rattle.news_io.specs.Devices.{memory_clock};

    ghost clock = { memory_clock };

    fn now(&mut self) -> u64 {
        let reading = self.readings[self.at];
        if self.at + 1 < self.readings.len() {
            self.at += 1;
        }
        reading
    }

    fn rest(&mut self) {}
}
