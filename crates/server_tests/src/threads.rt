//! Two threads flash stories in turns of one room.
ghost use Rattle.std.specs.Prelude.{◌≡◌, List};
ghost use Rattle.std.specs.Thread.{IsSync};
ghost use Rattle.news_types.specs.declared.entry.Entry.{Entry};
ghost use Rattle.news_types.specs.Books.{onto};
ghost use Rattle.news_io.specs.Devices.{memory_keeper};
ghost use Rattle.news_room.specs.Stands.{SomeBook};
ghost use Rattle.room_lock.specs.Locks.{lock_of, id_of};

use crate::given::{FLASHED, ask, command_of, empty_room, entries_at_last, is_done, locked, named};
use news_io::MemoryKeeper;
use news_room::{Handled, Room};
use news_types::{Name, Reply};
use room_lock::{Pass, Shared, Work};
use std::alloc::Global;
use std::process::Abort;
use std::sync::Wait;
use std::test::Fail;
use std::thread::{Threads, join};

/// How many stories each thread flashes.
const TURNS: u64 = 500;

/// The entries before those of the threads: their users.
const USERS: u64 = 2;

/// The users `ana` and `ben` are added at 1000 with all privileges, as requests of `admin`.
const ANA: &[u8] = b"\0\0\0\0\0\0\x03\xe8\x06\x05admin\0\0\0\0\0\0\0\x01\x01\x03ana\x03\xff";

const BEN: &[u8] = b"\0\0\0\0\0\0\x03\xe8\x06\x05admin\0\0\0\0\0\0\0\x02\x01\x03ben\x03\xff";

/// Flashes one story in a turn, and counts the replies that are those of their place in the list: each entry makes the
/// next item and the next publication.
#[derive(Drop)]
struct Flashing {
    alloc: Global,
    caller: Name,
    number: u64,
    in_place: u64,
    places: u64,
}

impl Flashing {
    fn count(&mut self, place: u64, answered: Handled) {
        if let Handled::Done(reply) = answered {
            if is_of(reply, place) {
                self.in_place = self.in_place.wrapping_add(1);
            }
            self.places = self.places.wrapping_add(reply.entry);
        }
    }
}

/// Whether a reply is that of a flash which is the entry at this place.
fn is_of(reply: Reply, place: u64) -> bool {
    let item = place.wrapping_sub(USERS);
    reply.entry == place
        && u64::from(reply.item) == item
        && u64::from(reply.publication) == item
        && reply.release == 1000
}

impl Work<Room<MemoryKeeper>> for Flashing {
    ghost does = { λ _ before _ after. (more : List Entry) × (after.book ≡ onto more before.book) };

    fn turn(&mut self, room: &mut Room<MemoryKeeper>) {
        let place = room.front().wrapping_add(1);
        self.number = self.number.wrapping_add(1);
        if let Some(command) = command_of(self.alloc, FLASHED) {
            let answered = room.request(1000, self.caller, self.number, command);
            self.count(place, answered);
        }
    }
}

/// Takes the turns of one thread.
fn take_turns<R: Wait>(
    rt: &R,
    shared: &Shared<Room<MemoryKeeper>>,
    pass: Pass,
    flashing: Flashing,
) -> (Pass, Flashing)
    requires { lock_of pass ≡ id_of shared.now }
    ensures { lock_of result.0 ≡ lock_of pass }
{
    let mut pass = pass;
    let mut flashing = flashing;
    for _ in 0..TURNS {
        pass = shared.with_turn(rt, pass, &mut flashing);
    }
    (pass, flashing)
}

/// Takes the turns of two threads, and gives the passes back as one.
fn beside<R: Threads + Wait + Sync>(
    rt: &R,
    shared: &Shared<Room<MemoryKeeper>>,
    passes: (Pass, Pass),
    ana: Flashing,
    ben: Flashing,
) -> (Pass, Flashing, Flashing)
    requires { (lock_of passes.0 ≡ id_of shared.now) × (lock_of passes.1 ≡ id_of shared.now) }
    ensures { lock_of result.0 ≡ id_of shared.now }
{
    let (one, other) = passes;
    let ((one, ana), (other, ben)) = join(
        rt,
        || -> (Pass, Flashing)
            requires { IsSync R.row × (lock_of one ≡ id_of shared.now) }
            ensures { lock_of result.0 ≡ id_of shared.entry.now }
        { take_turns(rt, shared, one, ana) },
        || -> (Pass, Flashing)
            requires { IsSync R.row × (lock_of other ≡ id_of shared.now) }
            ensures { lock_of result.0 ≡ id_of shared.entry.now }
        { take_turns(rt, shared, other, ben) },
    );
    (shared.join(one, other), ana, ben)
}

/// A room with both users.
fn room_of_two(rt: &impl Abort, alloc: Global) -> Room<MemoryKeeper>
    ensures { SomeBook memory_keeper result }
{
    let mut room = empty_room(rt, alloc);
    assert!(rt; is_done(ask(rt, alloc, &mut room, 1, ANA)));
    assert!(rt; is_done(ask(rt, alloc, &mut room, 2, BEN)));
    room
}

fn no_flash_yet(rt: &impl Abort, alloc: Global, caller: &str) -> Flashing {
    Flashing {
        alloc,
        caller: named(rt, caller),
        number: 0,
        in_place: 0,
        places: 0,
    }
}

/// Each thread's requests are done, each at its place: all places behind the users' are taken, each once.
#[test]
fn each_reply_is_at_its_place(rt: HostRuntime) -> Result<(), Fail> {
    let alloc = rt.alloc();
    let (shared, pass) = locked(&rt, alloc, room_of_two(&rt, alloc));
    assert_eq!(rt; shared.base(), USERS);
    let Ok(passes) = shared.split(pass) else {
        return Err(Fail::from("no second pass"));
    };
    let (ana, ben) = (
        no_flash_yet(&rt, alloc, "ana"),
        no_flash_yet(&rt, alloc, "ben"),
    );
    let (pass, ana, ben) = beside(&rt, &shared, passes, ana, ben);
    assert_eq!(rt; (ana.in_place, ben.in_place), (TURNS, TURNS));
    assert_eq!(rt; entries_at_last(&rt, shared, pass), USERS + 2 * TURNS);
    // The sum of the places from 3 to 1002.
    assert_eq!(rt; ana.places.wrapping_add(ben.places), 502_500);
    Ok(())
}
