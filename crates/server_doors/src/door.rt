//! The way in.
ghost use Rattle.std.specs.Prelude.{◌≡◌, IfOk, OnErr};
ghost use Rattle.news_io.specs.Faults.{Counts};
ghost use Rattle.server_doors.specs.Doors.{DoorMeaning, HasRoom, Gives, GivesNothing, TakesBack};

use news_io::{Failed, Sink, Source};

/// A door, which gives connections one after another.
pub trait Door {
    /// What a connection reads from.
    type In: Source;

    /// What it writes to.
    type Out: Sink;

    /// What the door means.
    ghost door: { DoorMeaning Self };

    /// Gives the next connection, to whose output nothing is written yet. It may wait for one.
    ///
    /// # Errors
    ///
    /// A door that can give no more fails.
    fn accept(&mut self) -> Result<(Self::In, Self::Out), Failed>
        ensures given { door.tells self.old → IfOk result (λ c. Gives Self.In.source Self.Out.sink door self.old self.new c.0 c.1) }
        ensures none { door.tells self.old → OnErr result (GivesNothing door self.old self.new) }
        ensures room { IfOk result (λ c. HasRoom door self.new) }
        ensures told { door.tells self.old → door.tells self.new }
        ensures count { Counts (door.faults self.old) (door.faults self.new) result };

    /// Takes a connection that has ended. It takes no memory and doesn't fail: `accept` has made room for it.
    fn give_back(&mut self, input: Self::In, output: Self::Out)
        requires room { HasRoom door self.old }
        ensures returned { door.tells self.old → TakesBack Self.In.source Self.Out.sink door self.old self.new input output }
        ensures told { door.tells self.old → door.tells self.new }
        ensures count { door.faults self.new ≡ door.faults self.old };
}
