//! Rooms over a keeper in memory, and requests of them by their entries.
ghost use Rattle.news_types.specs.FitsCommands.{FitsCommand};
ghost use Rattle.entry_codec.specs.Fits.{FitsAct};
ghost use Rattle.news_room.specs.Stands.{SomeBook};

use entry_codec::decode;
use news_io::{Keeper, MemoryKeeper};
use news_room::{Handled, Room};
use news_types::{Act, Command, Name};
use std::alloc::Global;
use std::process::Abort;
use uuid::Uuid;

/// The command of a request.
fn command_of(rt: &impl Abort, act: Act) -> Command
    requires { FitsAct act }
    ensures { FitsCommand result }
{
    match act {
        Act::Request { command, .. } => command,
        _ => panic!(rt; "no request"),
    }
}

/// The act of an entry.
fn read(rt: &impl Abort, alloc: Global, payload: &[u8]) -> Act
    ensures { FitsAct result }
{
    let Ok(entry) = decode(alloc, payload) else {
        panic!(rt; "no entry")
    };
    entry.act
}

pub(crate) fn named(rt: &impl Abort, name: &str) -> Name {
    Name::read(name).expect(rt, "a name")
}

/// Some numbers of calls.
pub(crate) fn numbers(rt: &impl Abort, alloc: Global, calls: &[u64]) -> Vec<u64> {
    match calls.to_vec(alloc) {
        Ok(calls) => calls,
        Err(_) => panic!(rt; "no memory"),
    }
}

/// Sends the request of an entry at 1000, under this number.
pub(crate) fn send(
    rt: &impl Abort,
    alloc: Global,
    room: &mut Room<MemoryKeeper>,
    number: u64,
    payload: &[u8],
)
    requires { SomeBook ⟦<MemoryKeeper as Keeper>⟧.keeper room.old }
    ensures { SomeBook ⟦<MemoryKeeper as Keeper>⟧.keeper room.new }
{
    let command = command_of(rt, read(rt, alloc, payload));
    expect_done(rt, room.request(1000, named(rt, "admin"), number, command));
}

fn expect_done(rt: &impl Abort, answered: Handled) {
    match answered {
        Handled::Done(_) => {}
        _ => panic!(rt; "not done"),
    }
}

/// A room with no entry over a keeper whose appends with these numbers fail.
pub(crate) fn room_over(rt: &impl Abort, alloc: Global, failing: &[u64]) -> Room<MemoryKeeper>
    ensures { SomeBook ⟦<MemoryKeeper as Keeper>⟧.keeper result }
{
    let keeper = MemoryKeeper::new(alloc).failing_at(numbers(rt, alloc, failing));
    match Room::open(alloc, keeper, Uuid::nil(), &[]) {
        Ok(room) => room,
        Err(_) => panic!(rt; "no room"),
    }
}
