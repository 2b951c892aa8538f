//! A keeper that fails once.
ghost use Rattle.news_room.specs.Stands.{SomeBook};

use super::{FLASHED, Told, claim, flashed, halt, job, receive, reply, room_over, send, tick};
use news_io::{Keeper, MemoryKeeper};
use news_room::Room;
use std::alloc::Global;
use std::process::Abort;

/// The subscriber `alpha` is added at 1000 with a lag of ten minutes, as the first request of `admin`.
const LAGGED: &[u8] =
    b"\0\0\0\0\0\0\x03\xe8\x06\x05admin\0\0\0\0\0\0\0\x01\x25\x05alpha\0\0\x01\x03all\0\0\x02\x58";

/// A script of six calls, each of which keeps an entry: a request, another, the tick at which what was flashed is
/// released for `alpha`, the attempt to send it, its receipt, and a halt.
fn call(rt: &impl Abort, alloc: Global, room: &mut Room<MemoryKeeper>, number: u64) -> Told
    requires { SomeBook ⟦<MemoryKeeper as Keeper>⟧.keeper room.old }
    ensures { SomeBook ⟦<MemoryKeeper as Keeper>⟧.keeper room.new }
{
    match number {
        1 => send(rt, alloc, room, 1000, 1, LAGGED),
        2 => send(rt, alloc, room, 1000, 2, FLASHED),
        3 => tick(room, 1600),
        4 => claim(rt, room, 1600),
        5 => receive(rt, room, 1600, 1),
        _ => halt(room, 1600),
    }
}

/// What the calls of the script are answered.
fn want(number: u64) -> Told {
    match number {
        1 => Told::Done(reply(1)),
        2 => Told::Done(flashed(2, 1, 1000)),
        3 => Told::Kept { entry: 3 },
        4 => job(4),
        5 => Told::Done(reply(5)),
        _ => Told::Kept { entry: 6 },
    }
}

/// Makes a call of the script. Where it is to fail it fails first, and leaves the list and the size as they were.
fn step(rt: &impl Abort, alloc: Global, room: &mut Room<MemoryKeeper>, number: u64, failing: u64)
    requires { SomeBook ⟦<MemoryKeeper as Keeper>⟧.keeper room.old }
    ensures { SomeBook ⟦<MemoryKeeper as Keeper>⟧.keeper room.new }
{
    let (front, size) = (room.front(), room.size());
    if number == failing {
        assert_eq!(rt; call(rt, alloc, room, number), Told::Fault);
        assert_eq!(rt; (room.front(), room.size()), (front, size));
    }
    assert_eq!(rt; call(rt, alloc, room, number), want(number));
    assert_eq!(rt; room.front(), number);
}

/// Runs the script over a keeper whose append with this number fails.
fn run(rt: &impl Abort, alloc: Global, failing: u64) {
    let Ok(calls) = [failing].to_vec(alloc) else {
        panic!(rt; "no memory")
    };
    let mut room = room_over(rt, alloc, MemoryKeeper::new(alloc).failing_at(calls));
    step(rt, alloc, &mut room, 1, failing);
    step(rt, alloc, &mut room, 2, failing);
    step(rt, alloc, &mut room, 3, failing);
    step(rt, alloc, &mut room, 4, failing);
    step(rt, alloc, &mut room, 5, failing);
    step(rt, alloc, &mut room, 6, failing);
    let keeper = room.into_keeper();
    assert_eq!(rt; keeper.fault_count(), 1);
    assert_eq!(rt; keeper.records().len(), 6);
}

/// Whichever append of a script fails, the call tells it, and done again it is as it would have been.
#[test]
fn each_append_may_fail(rt: HostRuntime) {
    let alloc = rt.alloc();
    for failing in 1..=6 {
        run(&rt, alloc, failing);
    }
}
