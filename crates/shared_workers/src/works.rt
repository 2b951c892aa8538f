//! What a worker does in one turn of the lock.
ghost use Rattle.std.specs.Prelude.{◌≡◌};
ghost use Rattle.shared_workers.specs.Steps.{Took, KeptBy};

use news_io::Keeper;
use news_room::{Claimed, Kept, Room};
use news_types::Name;
use room_lock::Work;

/// What the first turn of a worker came to.
#[derive(Drop)]
pub(crate) enum Step {
    /// A stop or a halt stands behind the opening list: nothing is claimed.
    Stopping {
        /// Its place in the list.
        place: u64,
    },
    /// A claim was made.
    Claimed(Claimed),
}

/// Looks for a stop, and claims where there is none.
#[derive(Drop)]
pub(crate) struct Claiming<'a> {
    /// The reading of the clock, in seconds.
    pub(crate) now: u64,
    /// Whose feeds are claimed.
    pub(crate) names: &'a [Name],
    /// The length of the opening list.
    pub(crate) base: u64,
    /// What the turn came to; before it, anything.
    pub(crate) step: Step,
}

impl<'a, K: Keeper> Work<Room<K>> for Claiming<'a> {
    ghost does = { λ asked before answered after. Took asked.now asked.names.now asked.base before answered.step after };

    fn turn(&mut self, room: &mut Room<K>) {
        let place = room.last_stop();
        if place > self.base {
            self.step = Step::Stopping { place };
        } else {
            self.step = Step::Claimed(room.claim(self.now, self.names));
        }
    }
}

/// Brings a receipt to the room.
#[derive(Drop)]
pub(crate) struct Keeping {
    /// The reading of the clock, in seconds.
    pub(crate) now: u64,
    /// Whose receipt it is.
    pub(crate) subscriber: Name,
    /// For how many entries of its feed.
    pub(crate) n: u32,
    /// What the room answered; before the turn, anything.
    pub(crate) kept: Kept,
}

impl<K: Keeper> Work<Room<K>> for Keeping {
    ghost does = { λ asked before answered after. KeptBy asked.now asked.subscriber asked.n before answered.kept after };

    fn turn(&mut self, room: &mut Room<K>) {
        self.kept = room.receipt(self.now, self.subscriber, self.n);
    }
}
