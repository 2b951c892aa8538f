//! A clock that stands.
ghost use Rattle.std.specs.Prelude.{ℕ};

use news_io::Clock;

/// A clock that shows one moment all the time.
#[derive(Drop)]
pub(crate) struct Standing {
    pub(crate) moment: u64,
}

impl Clock for Standing {
    ghost use Rattle.feed_drill.specs.Standing.{standing};

    ghost clock = { standing };

    fn now(&mut self) -> u64 {
        self.moment
    }

    fn rest(&mut self) {}
}
