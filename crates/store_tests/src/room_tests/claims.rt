//! Claims: what is sent next.
ghost use Rattle.news_room.specs.Stands.{SomeBook};

use super::{ADDED, FLASHED, Told, claim, flashed, job, reply, room_beside, send, tell_claimed};
use news_io::{Keeper, MemoryKeeper};
use news_room::Room;
use news_types::{Moment, Name};
use std::process::Abort;

/// The subscriber `beta` is added at 1000 for the wire's format, as the second request of `admin`.
const BETA: &[u8] =
    b"\0\0\0\0\0\0\x03\xe8\x06\x05admin\0\0\0\0\0\0\0\x02\x0c\x04beta\x01\0\x01\x03all";

/// What was flashed as the whole frame of `beta`.
const MESSAGE: &[u8] =
    b"FRAME beta 1 65\n\x01NWS0001 3 n 1 FIRST\r\nfire\r\n\x02Fire\r\nSmoke.\r\n\x031970-01-01T00:16:40Z\x04";

/// The feed of `alpha` is resumed at 30000, as the fourth request of `admin`.
const RESUMED: &[u8] = b"\0\0\0\0\0\0\x75\x30\x06\x05admin\0\0\0\0\0\0\0\x04\x0e\x05alpha";

/// What a claim for both at 1000 is answered.
fn claim_both(rt: &impl Abort, room: &mut Room<MemoryKeeper>, begin: &[u8]) -> Told
    requires { SomeBook ⟦<MemoryKeeper as Keeper>⟧.keeper room.old }
    ensures { SomeBook ⟦<MemoryKeeper as Keeper>⟧.keeper room.new }
{
    let beta = Name::read("beta").expect(rt, "a name");
    let alpha = Name::read("alpha").expect(rt, "a name");
    tell_claimed(rt, room.claim(1000, &[beta, alpha]), begin)
}

/// Of two feeds that are ready since the same moment the one with the lesser name comes first. An entry that is never
/// acknowledged is sent ten times, each time a while longer after the last, and not again before its feed is resumed.
#[test]
fn ten_attempts_pause_a_feed(rt: HostRuntime) {
    let alloc = rt.alloc();
    let mut room = room_beside(&rt, alloc, 65);
    assert_eq!(rt;
        send(&rt, alloc, &mut room, 1000, 1, ADDED),
        Told::Done(reply(1))
    );
    assert_eq!(rt;
        send(&rt, alloc, &mut room, 1000, 2, BETA),
        Told::Done(reply(2))
    );
    assert_eq!(rt;
        send(&rt, alloc, &mut room, 1000, 3, FLASHED),
        Told::Done(flashed(3, 1, 1000))
    );
    assert_eq!(rt; claim_both(&rt, &mut room, b"FRAME alpha 1 229\n"), job(4));
    assert_eq!(rt; claim_both(&rt, &mut room, MESSAGE), job(5));
    assert_eq!(rt; claim(&rt, &mut room, 1059), idle(Some(1060)));
    assert_eq!(rt; claim(&rt, &mut room, 1060), job(6));
    assert_eq!(rt; claim(&rt, &mut room, 1180), job(7));
    assert_eq!(rt; claim(&rt, &mut room, 1420), job(8));
    assert_eq!(rt; claim(&rt, &mut room, 1900), job(9));
    assert_eq!(rt; claim(&rt, &mut room, 2860), job(10));
    assert_eq!(rt; claim(&rt, &mut room, 4780), job(11));
    assert_eq!(rt; claim(&rt, &mut room, 8380), job(12));
    assert_eq!(rt; claim(&rt, &mut room, 11980), job(13));
    assert_eq!(rt; claim(&rt, &mut room, 15580), job(14));
    assert_eq!(rt; claim(&rt, &mut room, 30000), idle(None));
    assert_eq!(rt;
        send(&rt, alloc, &mut room, 30000, 4, RESUMED),
        Told::Done(reply(15))
    );
    assert_eq!(rt; claim(&rt, &mut room, 30000), job(16));
    assert_eq!(rt; room.front(), 16);
}

fn idle(next: Option<Moment>) -> Told {
    Told::Idle { next }
}
