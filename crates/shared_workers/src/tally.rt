//! Rounds of a worker until it is to stop, and their count.
ghost use Rattle.std.specs.Prelude.{◌≡◌, ◌+◌, ◌++◌, ◌∷◌, [], List, min, true};
ghost use Rattle.room_lock.specs.Going.{Went};
ghost use Rattle.room_lock.specs.Locks.{front, calls, lock_of, id_of, start_of, base_of};
ghost use Rattle.news_room.specs.Stands.{Stands};
ghost use Rattle.publish_workers.specs.Links.{Passes, Reads};
ghost use Rattle.shared_workers.specs.Rounds.{Round, round_calls, round_holds};
ghost use Rattle.shared_workers.specs.Tallies.{all_readings, all_frames, all_replies, all_passed, finds_stop, GoOn, is_delivered, is_failed, one_if, MOST, Counted};

use crate::worker::{WorkerTurn, worker_turn};
use news_io::{Clock, Keeper, Link};
use news_room::Room;
use publish_workers::Worked;
use room_lock::{Pass, Shared};
use server_counts::Outcome;
use server_watch::Watch;
use std::sync::Wait;

/// What the rounds of a worker came to. A count of 2^64 - 1 stays there.
#[derive(Clone, Copy, Debug, PartialEq, Eq)]
pub struct Tally {
    /// How many frames were delivered.
    pub delivered: u64,
    /// How many rounds neither delivered a frame nor found all feeds idle.
    pub failed: u64,
}

/// Rounds of a worker over a link, until one finds a stop or a halt behind the entries with which the lock was made.
///
/// The worker rests behind each round but one that delivered a frame. What fails is counted, and tried again. In the watch
/// it counts the attempts of its rounds and the faults of the log that they met.
pub fn worker_loop<K: Keeper + Drop, C: Clock, L: Link, R: Wait>(
    rt: &R,
    watch: &Watch,
    shared: &Shared<Room<K>>,
    pass: Pass,
    clock: &mut C,
    link: &mut L,
) -> (Tally, Pass)
    requires lock { lock_of pass ≡ id_of shared.now }
    ensures lock { lock_of result.1 ≡ lock_of pass }
    // only the last of the rounds finds a stop
    ensures rounds { (before : List Round) × (last : Round) × GoOn before × (finds_stop last ≡ true) × Counted before result.0
        × Went round_calls (round_holds (base_of shared.now) (L.link.serves link.old)) (Stands K.keeper (start_of shared.now))
        (front pass) (calls pass) (front result.1) (calls result.1) (before ++ last ∷ [])
        × (L.link.tells link.old → Passes L.link link.old link.new (all_frames (before ++ last ∷ []))
        (all_replies (before ++ last ∷ [])) (all_passed (before ++ last ∷ [])))
        × (C.clock.tells clock.old → Reads C.clock clock.old clock.new (all_readings (before ++ last ∷ []))) }
    ensures serves { L.link.serves link.new ≡ L.link.serves link.old }
{
    let mut tally = Tally {
        delivered: 0,
        failed: 0,
    };
    let mut pass = pass;
    for _ in rt.forever() {
        let (answered, next) = worker_turn(rt, shared, pass, clock, link);
        match answered {
            WorkerTurn::Stopping { .. } => return (tally, next),
            WorkerTurn::Worked(worked) => {
                watch_turn(rt, watch, &worked);
                tally = go_on(clock, tally, worked);
            }
        }
        pass = next;
    }
    unreachable!()
}

/// Counts in the watch the attempt that a turn came to the end of, by its outcome, or the fault of the log.
fn watch_turn(rt: &impl Wait, watch: &Watch, worked: &Worked) {
    match worked {
        Worked::Delivered { .. } => watch.count_attempt(rt, Outcome::Delivered),
        Worked::LinkFault { .. } => watch.count_attempt(rt, Outcome::LinkFault),
        Worked::NoReceipt { .. } => watch.count_attempt(rt, Outcome::NoReceipt),
        Worked::StoreFault => watch.count_log_fault(rt),
        Worked::Idle { .. } | Worked::Full { .. } | Worked::Memory => {}
    }
}

/// Counts a turn, and rests behind it unless it delivered a frame.
fn go_on<C: Clock>(clock: &mut C, tally: Tally, worked: Worked) -> Tally
    ensures delivered { result.delivered ≡ min (tally.delivered + one_if (is_delivered worked)) MOST }
    ensures failed { result.failed ≡ min (tally.failed + one_if (is_failed worked)) MOST }
    ensures clock { C.clock.tells clock.old → Reads C.clock clock.old clock.new [] }
{
    match worked {
        Worked::Delivered { .. } => Tally {
            delivered: tally.delivered.saturating_add(1),
            failed: tally.failed,
        },
        Worked::Idle { .. } => {
            clock.rest();
            tally
        }
        _ => {
            clock.rest();
            Tally {
                delivered: tally.delivered,
                failed: tally.failed.saturating_add(1),
            }
        }
    }
}
