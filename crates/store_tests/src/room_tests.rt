//! Scripts of calls to a room over a keeper in memory. What is expected is counted by hand.
ghost use Rattle.std.specs.Prelude.{IsTrue};
ghost use Rattle.news_types.specs.Fits.{FitsIncoming};
ghost use Rattle.news_types.specs.FitsCommands.{FitsCommand};
ghost use Rattle.entry_codec.specs.Fits.{FitsAct};
ghost use Rattle.news_room.specs.Stands.{SomeBook};

mod acts;
mod claims;
mod faults;
mod ingests;
mod opening;
mod requests;

use entry_codec::decode;
use news_io::{Keeper, MemoryKeeper};
use news_room::{Claimed, Handled, Kept, Room, Ticked};
use news_types::{
    Act, Answer, Command, Denial, FeedRow, FeedRows, Kind, Moment, Name, Query, Reply, Thing,
};
use std::alloc::Global;
use std::process::Abort;
use uuid::Uuid;

/// The subscriber `alpha` is added at 1000, as the first request of `admin`.
const ADDED: &[u8] =
    b"\0\0\0\0\0\0\x03\xe8\x06\x05admin\0\0\0\0\0\0\0\x01\x0c\x05alpha\0\0\x01\x03all";

/// A story is flashed at 1000, as the second request of `admin`.
const FLASHED: &[u8] =
    b"\0\0\0\0\0\0\x03\xe8\x06\x05admin\0\0\0\0\0\0\0\x02\x12\0\x03\0\0\0\x04fire\0\0\0\x04Fire\0\0\0\0\0\0\0\x02en\0\0\0\0\0\0\0\x06Smoke.\0\0\0";

/// What a call is answered, so that it can be compared.
#[derive(Clone, Copy, Debug, PartialEq, Eq)]
enum Told {
    Done(Reply),
    Unknown { thing: Thing },
    Kept { entry: u64 },
    Still,
    Job { k: u32, front: u64 },
    Idle { next: Option<Moment> },
    Fault,
    Full { size: u64, length: u64 },
    Other,
}

fn tell_denial(denial: Denial) -> Told {
    match denial {
        Denial::UnknownThing { thing } => Told::Unknown { thing },
        _ => Told::Other,
    }
}

fn tell(answered: Handled) -> Told {
    match answered {
        Handled::Done(reply) => Told::Done(reply),
        Handled::Denied(denial) => tell_denial(denial),
        Handled::Fault => Told::Fault,
        Handled::Full { size, length } => Told::Full { size, length },
        Handled::Memory | Handled::Repeat(_) => Told::Other,
    }
}

fn tell_kept(kept: Kept) -> Told {
    match kept {
        Kept::Done(reply) => Told::Done(reply),
        Kept::Denied(denial) => tell_denial(denial),
        Kept::Fault => Told::Fault,
        Kept::Full { size, length } => Told::Full { size, length },
    }
}

fn tell_ticked(ticked: Ticked) -> Told {
    match ticked {
        Ticked::Kept { entry } => Told::Kept { entry },
        Ticked::Still => Told::Still,
        Ticked::Fault => Told::Fault,
        Ticked::Full { size, length } => Told::Full { size, length },
    }
}

/// The frame of a job is to begin so.
fn tell_claimed(rt: &impl Abort, claimed: Claimed, begin: &[u8]) -> Told {
    match claimed {
        Claimed::Job {
            k,
            frame,
            front,
            ..
        } => {
            assert!(rt; frame.as_slice().starts_with(begin));
            Told::Job { k, front }
        }
        Claimed::Idle { next } => Told::Idle { next },
        Claimed::Fault => Told::Fault,
        Claimed::Full { size, length } => Told::Full { size, length },
        Claimed::Memory => Told::Other,
    }
}

/// A room with no entry over a keeper.
fn room_over(rt: &impl Abort, alloc: Global, keeper: MemoryKeeper) -> Room<MemoryKeeper>
    ensures { SomeBook ⟦<MemoryKeeper as Keeper>⟧.keeper result }
{
    match Room::open(alloc, keeper, Uuid::nil(), &[]) {
        Ok(room) => room,
        Err(_) => panic!(rt; "no room"),
    }
}

/// A room with no entry, over a keeper that uses so many bytes.
fn room_beside(rt: &impl Abort, alloc: Global, used: u64) -> Room<MemoryKeeper>
    ensures { SomeBook ⟦<MemoryKeeper as Keeper>⟧.keeper result }
{
    room_over(rt, alloc, MemoryKeeper::starting_at(alloc, used))
}

/// The command of a request.
fn command_of(rt: &impl Abort, act: Act) -> Command
    requires { FitsAct act }
    ensures { FitsCommand result }
{
    match act {
        Act::Request { command, .. } => command,
        _ => panic!(rt; "no request"),
    }
}

/// The act of an entry.
fn read(rt: &impl Abort, alloc: Global, payload: &[u8]) -> Act
    ensures { FitsAct result }
{
    let Ok(entry) = decode(alloc, payload) else {
        panic!(rt; "no entry")
    };
    entry.act
}

/// What the request of an entry is answered at a reading of the clock, under this number.
fn send(
    rt: &impl Abort,
    alloc: Global,
    room: &mut Room<MemoryKeeper>,
    now: u64,
    number: u64,
    payload: &[u8],
) -> Told
    requires { SomeBook ⟦<MemoryKeeper as Keeper>⟧.keeper room.old }
    ensures { SomeBook ⟦<MemoryKeeper as Keeper>⟧.keeper room.new }
{
    let command = command_of(rt, read(rt, alloc, payload));
    let caller = Name::read("admin").expect(rt, "a name");
    tell(room.request(now, caller, number, command))
}

/// What a receipt of `alpha` is answered.
fn receive(rt: &impl Abort, room: &mut Room<MemoryKeeper>, now: u64, n: u32) -> Told
    requires { SomeBook ⟦<MemoryKeeper as Keeper>⟧.keeper room.old }
    ensures { SomeBook ⟦<MemoryKeeper as Keeper>⟧.keeper room.new }
{
    let alpha = Name::read("alpha").expect(rt, "a name");
    tell_kept(room.receipt(now, alpha, n))
}

fn tick(room: &mut Room<MemoryKeeper>, now: u64) -> Told
    requires { SomeBook ⟦<MemoryKeeper as Keeper>⟧.keeper room.old }
    ensures { SomeBook ⟦<MemoryKeeper as Keeper>⟧.keeper room.new }
{
    tell_ticked(room.tick(now))
}

fn halt(room: &mut Room<MemoryKeeper>, now: u64) -> Told
    requires { SomeBook ⟦<MemoryKeeper as Keeper>⟧.keeper room.old }
    ensures { SomeBook ⟦<MemoryKeeper as Keeper>⟧.keeper room.new }
{
    tell_ticked(room.halt(now))
}

/// What a claim for `alpha` is answered.
fn claim(rt: &impl Abort, room: &mut Room<MemoryKeeper>, now: u64) -> Told
    requires { SomeBook ⟦<MemoryKeeper as Keeper>⟧.keeper room.old }
    ensures { SomeBook ⟦<MemoryKeeper as Keeper>⟧.keeper room.new }
{
    let alpha = Name::read("alpha").expect(rt, "a name");
    tell_claimed(rt, room.claim(now, &[alpha]), b"FRAME alpha 1 229\n")
}

/// The rows of the feed of `alpha` behind the first so many.
fn rows_of(rt: &impl Abort, room: &Room<MemoryKeeper>, after: u32) -> FeedRows
    requires { SomeBook ⟦<MemoryKeeper as Keeper>⟧.keeper room.now }
{
    let query = Query::Feed {
        subscriber: Name::read("alpha").expect(rt, "a name"),
        after,
    };
    match room.ask(&query) {
        Ok(Answer::Feed { entries, .. }) => entries,
        _ => panic!(rt; "no feed"),
    }
}

/// The reply to what makes no item and no publication.
fn reply(entry: u64) -> Reply {
    Reply {
        entry,
        item: 0,
        publication: 0,
        release: 0,
    }
}

/// The reply to a flash, which makes an item and a publication with the same number.
fn flashed(entry: u64, item: u32, release: u64) -> Reply {
    Reply {
        entry,
        item,
        publication: item,
        release,
    }
}

/// A job of entry 1 of a feed.
fn job(front: u64) -> Told {
    Told::Job { k: 1, front }
}

/// The row of a flashed story that stands in its feed at the place of its number.
fn row(k: u32, release: u64) -> FeedRow {
    FeedRow {
        k,
        item: k,
        publication: k,
        kind: Kind::First,
        version: 1,
        release,
    }
}
