//! Each device call under a script of calls fails once.
ghost use Rattle.std.specs.Prelude.{◌≤◌};
ghost use Rattle.news_room.specs.Stands.{SomeBook};

use crate::given::{FLASHED, ask, named};
use news_io::{Keeper, MemoryDisk, Tear};
use news_journal::{Header, Journal, Opened};
use news_room::{Claimed, Handled, Kept, Room, Ticked};
use news_types::Reply;
use std::alloc::Global;
use std::process::Abort;
use uuid::Uuid;

/// The device calls that make a log.
const MAKING: u64 = 6;

/// The device calls of an append: a write and a sync of the record, and then of the gate before it.
const APPEND: u64 = 4;

/// The subscriber `alpha` is added at 1000 with a lag of ten minutes, as the first request of `admin`.
const LAGGED: &[u8] =
    b"\0\0\0\0\0\0\x03\xe8\x06\x05admin\0\0\0\0\0\0\0\x01\x25\x05alpha\0\0\x01\x03all\0\0\x02\x58";

/// What a call is answered, so that it can be compared.
#[derive(Clone, Copy, Debug, PartialEq, Eq)]
enum Told {
    Done(Reply),
    Kept { entry: u64 },
    Job { k: u32, front: u64 },
    Fault,
    Other,
}

fn tell(answered: Handled) -> Told {
    match answered {
        Handled::Done(reply) => Told::Done(reply),
        Handled::Fault => Told::Fault,
        _ => Told::Other,
    }
}

fn tell_kept(kept: Kept) -> Told {
    match kept {
        Kept::Done(reply) => Told::Done(reply),
        Kept::Fault => Told::Fault,
        _ => Told::Other,
    }
}

fn tell_ticked(ticked: Ticked) -> Told {
    match ticked {
        Ticked::Kept { entry } => Told::Kept { entry },
        Ticked::Fault => Told::Fault,
        _ => Told::Other,
    }
}

fn tell_claimed(claimed: Claimed) -> Told {
    match claimed {
        Claimed::Job { k, front, .. } => Told::Job { k, front },
        Claimed::Fault => Told::Fault,
        _ => Told::Other,
    }
}

/// What a receipt of `alpha` for one entry is answered at 1600.
fn receive<K: Keeper>(rt: &impl Abort, room: &mut Room<K>) -> Told
    requires { SomeBook K.keeper room.old }
    ensures { SomeBook K.keeper room.new }
{
    let alpha = named(rt, "alpha");
    tell_kept(room.receipt(1600, alpha, 1))
}

/// What a claim for `alpha` is answered at 1600.
fn claim<K: Keeper>(rt: &impl Abort, room: &mut Room<K>) -> Told
    requires { SomeBook K.keeper room.old }
    ensures { SomeBook K.keeper room.new }
{
    let alpha = named(rt, "alpha");
    tell_claimed(room.claim(1600, &[alpha]))
}

/// What a tick is answered at 1600.
fn tick<K: Keeper>(room: &mut Room<K>) -> Told
    requires { SomeBook K.keeper room.old }
    ensures { SomeBook K.keeper room.new }
{
    tell_ticked(room.tick(1600))
}

/// A script of five calls, each of which keeps an entry: a request, another, the tick at which what was flashed is
/// released for `alpha`, the claim that hands it out, and its receipt.
fn call<K: Keeper>(rt: &impl Abort, alloc: Global, room: &mut Room<K>, number: u64) -> Told
    requires { SomeBook K.keeper room.old }
    ensures { SomeBook K.keeper room.new }
{
    match number {
        1 => tell(ask(rt, alloc, room, 1, LAGGED)),
        2 => tell(ask(rt, alloc, room, 2, FLASHED)),
        3 => tick(room),
        4 => claim(rt, room),
        _ => receive(rt, room),
    }
}

/// What the calls of the script are answered.
fn want(number: u64) -> Told {
    match number {
        1 => done(1, 0, 0),
        2 => done(2, 1, 1000),
        3 => Told::Kept { entry: 3 },
        4 => Told::Job { k: 1, front: 4 },
        _ => done(5, 0, 0),
    }
}

fn done(entry: u64, item: u32, release: u64) -> Told {
    Told::Done(Reply {
        entry,
        item,
        publication: item,
        release,
    })
}

/// Makes a call of the script that comes before the one that fails.
fn before<K: Keeper>(rt: &impl Abort, alloc: Global, room: &mut Room<K>, number: u64, tried: u64)
    requires { SomeBook K.keeper room.old }
    ensures { SomeBook K.keeper room.new }
{
    if number < tried {
        assert_eq!(rt; call(rt, alloc, room, number), want(number));
    }
}

/// Makes the calls of the script up to the one that fails.
fn run_to_fault<K: Keeper>(rt: &impl Abort, alloc: Global, room: &mut Room<K>, tried: u64)
    requires { SomeBook K.keeper room.old }
    ensures { SomeBook K.keeper room.new }
{
    before(rt, alloc, room, 1, tried);
    before(rt, alloc, room, 2, tried);
    before(rt, alloc, room, 3, tried);
    before(rt, alloc, room, 4, tried);
    let front = room.front();
    assert_eq!(rt; call(rt, alloc, room, tried), Told::Fault);
    assert_eq!(rt; room.front(), front);
}

/// A new room on a disk of which one call fails.
fn room_on(rt: &impl Abort, alloc: Global, failing: u64) -> Room<Journal<MemoryDisk>>
    ensures { SomeBook ⟦<Journal<MemoryDisk> as Keeper>⟧.keeper result }
{
    let calls = [failing].to_vec(alloc).expect(rt, "memory");
    let disk = MemoryDisk::new(alloc).failing_at(calls);
    let store = Uuid::nil();
    let Ok(journal) = Journal::create(disk, &Header::Room { store }) else {
        panic!(rt; "no log")
    };
    match Room::open(alloc, journal, store, &[]) {
        Ok(room) => room,
        Err(_) => panic!(rt; "no room"),
    }
}

/// How many entries the log opens to that a crash leaves. What was written since the last sync landed whole, or not at all.
fn left(rt: &impl Abort, alloc: Global, disk: &MemoryDisk, landed: bool) -> u64 {
    let reach = if landed { u64::MAX } else { 0 };
    let tear = Tear {
        landed: reach,
        reach,
        fill: 0,
    };
    let image = disk.after_crash(tear).expect(rt, "memory");
    let found = MemoryDisk::holding(alloc, &image).expect(rt, "memory");
    let Ok(
        Opened {
            journal,
            records,
            ..
        },
    ) = Journal::open(alloc, found)
    else {
        panic!(rt; "no log")
    };
    match Room::open(alloc, journal, Uuid::nil(), records.as_slice()) {
        Ok(room) => room.front(),
        Err(_) => panic!(rt; "no room"),
    }
}

/// A device call of the script fails: only where it is the last one of its append may a crash leave what was tried.
fn fails_at(rt: &impl Abort, alloc: Global, device_call: u64)
    requires { device_call ≤ 20 }
{
    let tried = device_call.div_ceil(APPEND);
    let mut room = room_on(rt, alloc, MAKING + device_call);
    run_to_fault(rt, alloc, &mut room, tried);
    let front = room.front();
    let disk = room.into_keeper().into_disk();
    let landed = front.wrapping_add(u64::from(device_call % APPEND == 0));
    assert_eq!(rt; left(rt, alloc, &disk, false), front, "call {device_call}");
    assert_eq!(rt; left(rt, alloc, &disk, true), landed, "call {device_call}");
    assert_eq!(rt; front, tried.wrapping_sub(1), "call {device_call}");
}

/// Whichever device call fails, the call of the room tells it, and a crash leaves the list before it or with the entry that
/// was tried.
#[test]
fn each_device_call_may_fail(rt: HostRuntime) {
    let alloc = rt.alloc();
    for device_call in 1..=20 {
        fails_at(&rt, alloc, device_call);
    }
}
