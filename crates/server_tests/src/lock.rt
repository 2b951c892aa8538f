//! Threads take turns over a value that counts. What is compared is the same whatever their order.
ghost use Rattle.std.specs.Prelude.{◌≡◌, ◌≤◌, length};
ghost use Rattle.std.specs.Thread.{IsSync};
ghost use Rattle.room_lock.specs.Locks.{lock_of, id_of};

use news_types::StandsFor;
use room_lock::{Pass, Shared, Work};
use std::sync::Wait;
use std::test::Fail;
use std::thread::{Threads, join, yield_now};

/// How many turns each thread takes: every other one behind the gate.
const TURNS: u64 = 2_000;

/// It stands for every book with as many entries as it counts.
#[derive(Drop)]
struct Counter {
    entries: u64,
}

impl StandsFor for Counter {
    ghost stands = { λ counter b. counter.entries ≡ length b.list };

    ghost faults = { λ _. 0 };

    ghost used = { λ counter. counter.entries };

    fn count(&self) -> u64 {
        self.entries
    }
}

/// Adds one entry in a turn, and adds up the counts that its turns found. It lets other threads run, so that they wait for
/// the turn.
#[derive(Drop)]
struct Adding {
    found: u64,
}

impl Work<Counter> for Adding {
    ghost does = { λ _ before _ after. length before.book.list ≤ length after.book.list };

    fn turn(&mut self, room: &mut Counter) {
        self.found = self.found.wrapping_add(room.entries);
        yield_now();
        if room.entries < u64::MAX {
            room.entries += 1;
        }
    }
}

/// Takes the turns of one thread.
fn take_turns<R: Wait>(rt: &R, shared: &Shared<Counter>, pass: Pass) -> (Pass, u64)
    requires { lock_of pass ≡ id_of shared.now }
    ensures { lock_of result.0 ≡ lock_of pass }
{
    let mut pass = pass;
    let mut adding = Adding { found: 0 };
    for _ in 0..TURNS / 2 {
        pass = shared.with_turn(rt, pass, &mut adding);
        pass = shared.with_turn_among(rt, pass, &mut adding);
    }
    (pass, adding.found)
}

/// Splits the pass as often, so that there are two threads, four, eight and so on, and joins them all.
fn beside<R: Threads + Wait + Sync>(
    rt: &R,
    shared: &Shared<Counter>,
    pass: Pass,
    splits: u32,
) -> (Pass, u64)
    requires { lock_of pass ≡ id_of shared.now }
    ensures { lock_of result.0 ≡ id_of shared.now }
{
    if splits == 0 {
        return take_turns(rt, shared, pass);
    }
    let (one, other) = match shared.split(pass) {
        Ok(both) => both,
        Err((pass, _)) => return (pass, 0),
    };
    let splits = splits - 1;
    let ((one, found), (other, also_found)) = join(
        rt,
        || -> (Pass, u64)
            requires { IsSync R.row × (lock_of one ≡ id_of shared.now) }
            ensures { lock_of result.0 ≡ id_of shared.entry.now }
        { beside(rt, shared, one, splits) },
        || -> (Pass, u64)
            requires { IsSync R.row × (lock_of other ≡ id_of shared.now) }
            ensures { lock_of result.0 ≡ id_of shared.entry.now }
        { beside(rt, shared, other, splits) },
    );
    (shared.join(one, other), found.wrapping_add(also_found))
}

/// Each turn finds the entries of all turns before it, so each count from the opening one on is found once, and the sum is
/// that of these counts.
#[test]
fn threads_take_turns(rt: HostRuntime) -> Result<(), Fail> {
    for (splits, threads) in [(0, 1), (1, 2), (3, 8)] {
        let opening = 5;
        let Ok((shared, pass)) = Shared::new(rt.alloc(), Counter { entries: opening }) else {
            return Err(Fail::from("no memory for the lock"));
        };
        assert_eq!(rt; shared.base(), opening);
        let (pass, found) = beside(&rt, &shared, pass, splits);
        let Ok(counter) = shared.close(&rt, pass) else {
            return Err(Fail::from("no memory to close the lock"));
        };
        let added = threads * TURNS;
        assert_eq!(rt; counter.entries, opening + added, "{threads} threads");
        assert_eq!(rt;
            found,
            opening * added + added * (added - 1) / 2,
            "{threads} threads"
        );
    }
    Ok(())
}
