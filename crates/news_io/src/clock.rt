//! The time.
ghost use Rattle.std.specs.Prelude.{[], ◌∷◌};
ghost use Rattle.news_io.specs.Clock.{Gave, ClockMeaning};

/// A clock. It may show anything, and it never fails.
pub trait Clock {
    /// What the clock means.
    ghost clock: { ClockMeaning Self };

    /// A reading, in whole seconds since 1970-01-01T00:00:00Z: any number, also one below an earlier one.
    fn now(&mut self) -> u64
        ensures told { clock.tells self.old → clock.tells self.new }
        ensures given { clock.tells self.old → Gave (clock.ahead self.old) (result ∷ []) (clock.ahead self.new) };

    /// Lets a moment pass: it may wait, and reads nothing.
    fn rest(&mut self)
        ensures told { clock.tells self.old → clock.tells self.new }
        ensures given { clock.tells self.old → Gave (clock.ahead self.old) [] (clock.ahead self.new) };
}
