//! Stories that come in.
ghost use Rattle.news_types.specs.Fits.{FitsIncoming};
ghost use Rattle.entry_codec.specs.Fits.{FitsAct};
ghost use Rattle.news_room.specs.Stands.{SomeBook};

use super::{Told, read, reply, room_beside, send, tell};
use news_io::{Keeper, MemoryKeeper};
use news_room::Room;
use news_types::{Act, Incoming, Name, Reply, Thing};
use std::alloc::Global;
use std::process::Abort;

/// The provider `wire` is added at 1000, as the first request of `admin`.
const WIRE: &[u8] = b"\0\0\0\0\0\0\x03\xe8\x06\x05admin\0\0\0\0\0\0\0\x01\x10\x04wire\0";

/// A usable story comes in from `wire` at 1000, which was made at 900.
const STORY: &[u8] =
    b"\0\0\0\0\0\0\x03\xe8\x05\x04wire\0\0\0\x04bas1\0\0\0\0\0\0\x03\x84\0\0\0\0\0\0\0\0\0\0\x03\0\0\0\x04fire\0\0\0\x04Fire\0\0\0\0\0\0\0\x02en\0\0\0\0\0\0\0\x06Smoke.\0";

/// Another story under its identity, made at 901.
const NEWER: &[u8] =
    b"\0\0\0\0\0\0\x03\xe8\x05\x04wire\0\0\0\x04bas1\0\0\0\0\0\0\x03\x85\0\0\0\0\0\0\0\0\0\0\x03\0\0\0\x04fire\0\0\0\x04Fire\0\0\0\0\0\0\0\x02en\0\0\0\0\0\0\0\x06Ashes.\0";

/// What comes in by an ingest.
fn incoming_of(rt: &impl Abort, act: Act) -> Incoming
    requires { FitsAct act }
    ensures { FitsIncoming result }
{
    match act {
        Act::Ingest { incoming, .. } => incoming,
        _ => panic!(rt; "no ingest"),
    }
}

/// What the ingest of an entry is answered at 1000.
fn bring(rt: &impl Abort, alloc: Global, room: &mut Room<MemoryKeeper>, payload: &[u8]) -> Told
    requires { SomeBook ⟦<MemoryKeeper as Keeper>⟧.keeper room.old }
    ensures { SomeBook ⟦<MemoryKeeper as Keeper>⟧.keeper room.new }
{
    let incoming = incoming_of(rt, read(rt, alloc, payload));
    let wire = Name::read("wire").expect(rt, "a name");
    tell(room.ingest(1000, wire, incoming))
}

/// The reply to an ingest that publishes nothing.
fn ingested(entry: u64) -> Told {
    Told::Done(Reply {
        item: 1,
        ..reply(entry)
    })
}

/// A story is kept once, and a later one that differs replaces it; nothing is kept of a provider that is not there.
#[test]
fn keeps_what_is_new(rt: HostRuntime) {
    let alloc = rt.alloc();
    let mut room = room_beside(&rt, alloc, 65);
    assert_eq!(rt;
        bring(&rt, alloc, &mut room, STORY),
        Told::Unknown {
            thing: Thing::Provider
        }
    );
    assert_eq!(rt; room.front(), 0);
    assert_eq!(rt;
        send(&rt, alloc, &mut room, 1000, 1, WIRE),
        Told::Done(reply(1))
    );
    assert_eq!(rt; bring(&rt, alloc, &mut room, STORY), ingested(2));
    assert_eq!(rt; bring(&rt, alloc, &mut room, STORY), ingested(0));
    assert_eq!(rt; room.front(), 2);
    assert_eq!(rt; bring(&rt, alloc, &mut room, NEWER), ingested(3));
    assert_eq!(rt; room.front(), 3);
}
