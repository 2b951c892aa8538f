//! Halts until one is kept.
ghost use Rattle.std.specs.Prelude.{◌≡◌, List};
ghost use Rattle.news_room.specs.Stands.{Stands};
ghost use Rattle.publish_workers.specs.Links.{Reads};
ghost use Rattle.room_lock.specs.Going.{Went};
ghost use Rattle.room_lock.specs.Locks.{front, calls, lock_of, id_of, start_of};
ghost use Rattle.server_roles.specs.Halts.{Halted, HaltedBy, LastKept, halted_calls, halted_holds, halt_readings};

use news_io::{Clock, Keeper};
use news_room::{Room, Ticked};
use room_lock::{Pass, Shared, Work};
use std::sync::Wait;

/// Keeps a halt.
#[derive(Drop)]
struct Halting {
    /// The reading of the clock, in seconds.
    now: u64,
    /// What the room answered; before the turn, anything.
    ticked: Ticked,
}

impl<K: Keeper> Work<Room<K>> for Halting {
    ghost does = { λ asked before answered after. HaltedBy asked.now before answered.ticked after };

    fn turn(&mut self, room: &mut Room<K>) {
        self.ticked = room.halt(self.now);
    }
}

/// Tries to halt the room, each time in a turn of the lock, until the halt is kept. It reads the clock before each turn, and
/// rests behind one that failed.
pub(crate) fn halt_at_last<K: Keeper + Drop, C: Clock, R: Wait>(
    rt: &R,
    shared: &Shared<Room<K>>,
    pass: Pass,
    clock: &mut C,
) -> Pass
    requires lock { lock_of pass ≡ id_of shared.now }
    ensures lock { lock_of result ≡ lock_of pass }
    ensures halted { (halts : List Halted) × LastKept halts
        × Went halted_calls halted_holds (Stands K.keeper (start_of shared.now)) (front pass) (calls pass) (front result) (calls result) halts
        × (C.clock.tells clock.old → Reads C.clock clock.old clock.new (halt_readings halts)) }
{
    let mut pass = pass;
    for _ in rt.forever() {
        let mut halting = Halting {
            now: clock.now(),
            ticked: Ticked::Still,
        };
        let next = shared.with_turn(rt, pass, &mut halting);
        if let Ticked::Kept { .. } = halting.ticked {
            return next;
        }
        clock.rest();
        pass = next;
    }
    unreachable!()
}
