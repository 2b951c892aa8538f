//! The system's clock.
ghost use Rattle.std.specs.Prelude.{ℕ};

use crate::Clock;
use std::time::{Clock as SystemClock, Duration, SystemTime, UNIX_EPOCH};
use std::{io, thread};

/// How long a rest is, in milliseconds.
const REST: u64 = 50;

/// The system's clock. It tells nothing of its readings.
#[derive(Drop)]
pub struct StdClock<R> {
    rt: R,
    last: u64,
}

impl<R: SystemClock> StdClock<R> {
    /// A clock over a runtime.
    pub fn new(rt: R) -> StdClock<R> {
        StdClock { rt, last: 0 }
    }
}

/// The whole seconds since 1970.
fn seconds(rt: &impl SystemClock) -> io::Result<u64> {
    match SystemTime::now(rt)?.duration_since(UNIX_EPOCH) {
        Ok(since) => Ok(since.as_secs()),
        Err(_) => Ok(0),
    }
}

impl<R: SystemClock> Clock for StdClock<R> {
    ghost use Rattle.news_io.specs.Devices.{std_clock};

    ghost clock = { std_clock };

    /// Where the system gives no time, the last reading again.
    fn now(&mut self) -> u64 {
        if let Ok(now) = seconds(&self.rt) {
            self.last = now;
        }
        self.last
    }

    fn rest(&mut self) {
        thread::sleep(&self.rt, Duration::from_millis(REST));
    }
}
