//! What several of the tests are given: requests, rooms in memory, locks, links and clocks.
ghost use Rattle.std.specs.Prelude.{◌≡◌, IfSome};
ghost use Rattle.news_types.specs.FitsCommands.{FitsCommand};
ghost use Rattle.entry_codec.specs.Fits.{FitsAct};
ghost use Rattle.news_io.specs.Devices.{memory_keeper};
ghost use Rattle.news_room.specs.Stands.{SomeBook};
ghost use Rattle.room_lock.specs.Locks.{lock_of, id_of};

use entry_codec::decode;
use feed_links::MemoryLink;
use feed_receiver::Receiver;
use news_io::{Keeper, MemoryClock, MemoryKeeper};
use news_room::{Handled, Room};
use news_types::{Act, Command, Name, Names};
use room_lock::{Pass, Shared};
use server_roles::close_at_last;
use std::alloc::{AllocError, Global};
use std::process::Abort;
use std::sync::Wait;
use uuid::Uuid;

/// A story is flashed at 1000, as the second request of `admin`.
pub(crate) const FLASHED: &[u8] =
    b"\0\0\0\0\0\0\x03\xe8\x06\x05admin\0\0\0\0\0\0\0\x02\x12\0\x03\0\0\0\x04fire\0\0\0\x04Fire\0\0\0\0\0\0\0\x02en\0\0\0\0\0\0\0\x06Smoke.\0\0\0";

/// `admin` stops the newsroom, as the first request.
pub(crate) const STOP: &[u8] =
    b"POST /requests HTTP/1.1\r\nX-User: admin\r\nContent-Length: 24\r\n\r\n{\"number\":1,\"do\":\"stop\"}";

/// A question.
pub(crate) const QUESTION: &[u8] = b"GET /queue HTTP/1.1\r\nX-User: admin\r\n\r\n";

pub(crate) fn named(rt: &impl Abort, name: &str) -> Name {
    Name::read(name).expect(rt, "a name")
}

/// All parts, one behind the other.
pub(crate) fn joined(alloc: Global, parts: &[&[u8]]) -> Result<Vec<u8>, AllocError> {
    let mut bytes = Vec::new(alloc);
    for part in parts {
        bytes.extend_from_slice(*part)?;
    }
    Ok(bytes)
}

/// The command of a request's entry.
pub(crate) fn command_of(alloc: Global, payload: &[u8]) -> Option<Command>
    ensures { IfSome result FitsCommand }
{
    match decode(alloc, payload) {
        Ok(entry) => asked(entry.act),
        Err(_) => None,
    }
}

fn asked(act: Act) -> Option<Command>
    requires { FitsAct act }
    ensures { IfSome result FitsCommand }
{
    match act {
        Act::Request { command, .. } => Some(command),
        _ => None,
    }
}

/// What the request of an entry is answered, where `admin` sends it at 1000 under this number.
pub(crate) fn ask<K: Keeper>(
    rt: &impl Abort,
    alloc: Global,
    room: &mut Room<K>,
    number: u64,
    payload: &[u8],
) -> Handled
    requires { SomeBook K.keeper room.old }
    ensures { SomeBook K.keeper room.new }
{
    let admin = named(rt, "admin");
    let command = command_of(alloc, payload).expect(rt, "a command");
    room.request(1000, admin, number, command)
}

pub(crate) fn is_done(answered: Handled) -> bool {
    matches!(answered, Handled::Done(_))
}

/// A room without an entry, whose keeper has so many bytes in use.
pub(crate) fn room_using(rt: &impl Abort, alloc: Global, used: u64) -> Room<MemoryKeeper>
    ensures { SomeBook memory_keeper result }
{
    let keeper = MemoryKeeper::starting_at(alloc, used);
    match Room::open(alloc, keeper, Uuid::nil(), &[]) {
        Ok(room) => room,
        Err(_) => panic!(rt; "no room"),
    }
}

/// A room without an entry.
pub(crate) fn empty_room(rt: &impl Abort, alloc: Global) -> Room<MemoryKeeper>
    ensures { SomeBook memory_keeper result }
{
    room_using(rt, alloc, 65)
}

/// A room behind a lock.
pub(crate) fn locked(
    rt: &impl Abort,
    alloc: Global,
    room: Room<MemoryKeeper>,
) -> (Shared<Room<MemoryKeeper>>, Pass)
    requires { SomeBook memory_keeper room }
    ensures { lock_of result.1 ≡ id_of result.0 }
{
    match Shared::new(alloc, room) {
        Ok(made) => made,
        Err(_) => panic!(rt; "no memory for the lock"),
    }
}

/// The number of entries in the end.
pub(crate) fn entries_at_last<R: Wait>(
    rt: &R,
    shared: Shared<Room<MemoryKeeper>>,
    pass: Pass,
) -> u64
    requires { lock_of pass ≡ id_of shared }
{
    close_at_last(rt, shared, pass).front()
}

/// A link to a receiver of this name that holds nothing. Of its calls those with these numbers fail.
pub(crate) fn link_to(
    rt: &impl Abort,
    alloc: Global,
    name: &str,
    failing: &[u64],
) -> MemoryLink<MemoryKeeper> {
    let name = named(rt, name);
    let Ok(receiver) = Receiver::open(alloc, MemoryKeeper::new(alloc), name, &[]) else {
        panic!(rt; "no receiver")
    };
    let Ok(names) = vec![in alloc; name] else {
        panic!(rt; "no memory")
    };
    let Ok(receivers) = vec![in alloc; receiver] else {
        panic!(rt; "no memory")
    };
    let Ok(failing) = failing.to_vec(alloc) else {
        panic!(rt; "no memory")
    };
    MemoryLink::new(alloc, Names::of(names), receivers, failing)
}

/// A clock with these two readings, of which the second comes again and again.
pub(crate) fn clock_of(rt: &impl Abort, alloc: Global, first: u64, then: u64) -> MemoryClock {
    let Ok(readings) = vec![in alloc; first, then] else {
        panic!(rt; "no memory")
    };
    MemoryClock::new(readings)
}

/// A clock that shows 1000 again and again.
pub(crate) fn steady_clock(rt: &impl Abort, alloc: Global) -> MemoryClock {
    clock_of(rt, alloc, 1000, 1000)
}
