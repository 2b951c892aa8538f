//! A worker that shares a room in memory with others. What is expected is counted by hand.
ghost use Rattle.std.specs.Prelude.{◌≡◌, List};
ghost use Rattle.std.specs.Thread.{IsSync};
ghost use Rattle.news_types.specs.declared.entry.Entry.{Entry};
ghost use Rattle.news_types.specs.Books.{onto};
ghost use Rattle.news_io.specs.Devices.{memory_keeper};
ghost use Rattle.news_room.specs.Stands.{SomeBook};
ghost use Rattle.room_lock.specs.Locks.{lock_of, id_of};

use crate::given::{
    FLASHED, ask, clock_of, empty_room, entries_at_last, is_done, link_to, locked, named,
    steady_clock,
};
use feed_links::MemoryLink;
use news_io::{MemoryClock, MemoryKeeper};
use news_room::{Room, Ticked};
use news_types::Moment;
use publish_workers::Worked;
use room_lock::{Pass, Shared, Work};
use server_watch::Watch;
use shared_workers::{Tally, WorkerTurn, worker_loop, worker_turn};
use std::alloc::Global;
use std::process::Abort;
use std::sync::Wait;
use std::thread::{Threads, join, yield_now};

/// The subscriber `alpha` is added at 1000, as the first request of `admin`.
const ALPHA: &[u8] =
    b"\0\0\0\0\0\0\x03\xe8\x06\x05admin\0\0\0\0\0\0\0\x01\x0c\x05alpha\0\0\x01\x03all";

/// A room in which one story is published, for `alpha` alone: two entries.
fn room_of_one(rt: &impl Abort, alloc: Global) -> Room<MemoryKeeper>
    ensures { SomeBook memory_keeper result }
{
    let mut room = empty_room(rt, alloc);
    assert!(rt; is_done(ask(rt, alloc, &mut room, 1, ALPHA)));
    assert!(rt; is_done(ask(rt, alloc, &mut room, 2, FLASHED)));
    room
}

/// What a round is told as, so that it can be compared.
#[derive(Clone, Copy, Debug, PartialEq, Eq)]
enum Told {
    Delivered { k: u32, n: u32 },
    Idle { next: Option<Moment> },
    Stopping { place: u64 },
    Other,
}

fn tell(answered: WorkerTurn) -> Told {
    match answered {
        WorkerTurn::Worked(Worked::Delivered { k, n, .. }) => Told::Delivered { k, n },
        WorkerTurn::Worked(Worked::Idle { next }) => Told::Idle { next },
        WorkerTurn::Stopping { place } => Told::Stopping { place },
        WorkerTurn::Worked(_) => Told::Other,
    }
}

/// Keeps a halt in the turn that finds so many entries.
#[derive(Drop)]
struct Halting {
    entries: u64,
    halted: bool,
}

impl Work<Room<MemoryKeeper>> for Halting {
    ghost does = { λ _ before _ after. (more : List Entry) × (after.book ≡ onto more before.book) };

    fn turn(&mut self, room: &mut Room<MemoryKeeper>) {
        if room.front() >= self.entries {
            let ticked = room.halt(1060);
            self.halted = matches!(ticked, Ticked::Kept { .. });
        }
    }
}

/// Takes turns until one keeps the halt.
fn halt_behind<R: Wait>(
    rt: &R,
    shared: &Shared<Room<MemoryKeeper>>,
    pass: Pass,
    entries: u64,
) -> Pass
    requires { lock_of pass ≡ id_of shared.now }
    ensures { lock_of result ≡ lock_of pass }
{
    let mut pass = pass;
    let mut halting = Halting {
        entries,
        halted: false,
    };
    for _ in rt.forever() {
        pass = shared.with_turn(rt, pass, &mut halting);
        if halting.halted {
            return pass;
        }
        yield_now();
    }
    unreachable!()
}

/// Works until the halt, and gives the link back.
fn work<R: Wait>(
    rt: &R,
    watch: &Watch,
    shared: &Shared<Room<MemoryKeeper>>,
    pass: Pass,
    mut clock: MemoryClock,
    mut link: MemoryLink<MemoryKeeper>,
) -> (Pass, Tally, MemoryLink<MemoryKeeper>)
    requires { lock_of pass ≡ id_of shared.now }
    ensures { lock_of result.0 ≡ lock_of pass }
{
    let (tally, pass) = worker_loop(rt, watch, shared, pass, &mut clock, &mut link);
    (pass, tally, link)
}

/// A worker in one thread, and in another the role that halts behind so many entries.
fn beside<R: Threads + Wait + Sync>(
    rt: &R,
    watch: &Watch,
    shared: &Shared<Room<MemoryKeeper>>,
    passes: (Pass, Pass),
    clock: MemoryClock,
    link: MemoryLink<MemoryKeeper>,
) -> (Pass, Tally, MemoryLink<MemoryKeeper>)
    requires { (lock_of passes.0 ≡ id_of shared.now) × (lock_of passes.1 ≡ id_of shared.now) }
    ensures { lock_of result.0 ≡ id_of shared.now }
{
    let (one, other) = passes;
    let ((one, tally, link), other) = join(
        rt,
        || -> (Pass, Tally, MemoryLink<MemoryKeeper>)
            requires { IsSync R.row × (lock_of one ≡ id_of shared.now) }
            ensures { lock_of result.0 ≡ id_of shared.entry.now }
        { work(rt, watch, shared, one, clock, link) },
        || -> Pass
            requires { IsSync R.row × (lock_of other ≡ id_of shared.now) }
            ensures { lock_of result ≡ id_of shared.entry.now }
        { halt_behind(rt, shared, other, 5) },
    );
    (shared.join(one, other), tally, link)
}

/// A frame is delivered, then the feed is idle, and then a halt is found.
#[test]
fn rounds_go_on_to_a_halt(rt: HostRuntime) {
    let alloc = rt.alloc();
    let (shared, pass) = locked(&rt, alloc, room_of_one(&rt, alloc));
    let mut clock = steady_clock(&rt, alloc);
    let mut link = link_to(&rt, alloc, "alpha", &[]);
    let (answered, pass) = worker_turn(&rt, &shared, pass, &mut clock, &mut link);
    assert_eq!(rt; tell(answered), Told::Delivered { k: 1, n: 1 });
    let (answered, pass) = worker_turn(&rt, &shared, pass, &mut clock, &mut link);
    assert_eq!(rt; tell(answered), Told::Idle { next: None });
    let pass = halt_behind(&rt, &shared, pass, 4);
    let (answered, pass) = worker_turn(&rt, &shared, pass, &mut clock, &mut link);
    assert_eq!(rt; tell(answered), Told::Stopping { place: 5 });
    assert_eq!(rt; entries_at_last(&rt, shared, pass), 5);
}

/// A frame whose sending fails goes out a minute later, and the halt behind its receipt ends the worker: two requests,
/// two attempts, a receipt and the halt.
#[test]
fn a_worker_ends_at_a_halt_of_another_thread(rt: HostRuntime) {
    let alloc = rt.alloc();
    let (shared, pass) = locked(&rt, alloc, room_of_one(&rt, alloc));
    let Ok(passes) = shared.split(pass) else {
        panic!(rt; "no second pass")
    };
    let clock = clock_of(&rt, alloc, 1000, 1060);
    let link = link_to(&rt, alloc, "alpha", &[1]);
    let watch = Watch::new(alloc);
    let (pass, tally, link) = beside(&rt, &watch, &shared, passes, clock, link);
    assert_eq!(rt;
        tally,
        Tally {
            delivered: 1,
            failed: 1
        }
    );
    assert_eq!(rt; entries_at_last(&rt, shared, pass), 6);
    assert_eq!(rt; link.count(&named(&rt, "alpha")), Some(1));
}
