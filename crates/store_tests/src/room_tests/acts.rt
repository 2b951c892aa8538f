//! A moment never falls. Receipts are in the sessions at a desk, and ticks and halts in the script of faults.
ghost use Rattle.std.specs.Prelude.{◌≡◌};
ghost use Rattle.news_room.specs.Stands.{SomeBook};

use super::{ADDED, FLASHED, Told, claim, flashed, job, reply, room_beside, row, rows_of, send};
use news_io::{Keeper, MemoryKeeper, Record};
use news_room::Room;
use news_types::Bytes;
use std::alloc::Global;
use std::process::Abort;
use uuid::Uuid;

/// An attempt on entry 1 of `alpha` at 5000.
const ATTEMPTED: &[u8] = b"\0\0\0\0\0\0\x13\x88\x02\x05alpha\0\0\0\x01";

fn record(rt: &impl Abort, alloc: Global, payload: &[u8]) -> Record
    ensures { result.at ≡ 0 }
{
    match Bytes::copy_of(alloc, payload) {
        Ok(bytes) => Record {
            at: 0,
            side: false,
            bytes,
        },
        Err(_) => panic!(rt; "no memory"),
    }
}

/// A room that is opened over these three records.
fn opened(rt: &impl Abort, alloc: Global, payloads: [&[u8]; 3]) -> Room<MemoryKeeper>
    ensures { SomeBook ⟦<MemoryKeeper as Keeper>⟧.keeper result }
{
    let [first, second, third] = payloads;
    let records = [
        record(rt, alloc, first),
        record(rt, alloc, second),
        record(rt, alloc, third),
    ];
    match Room::open(alloc, MemoryKeeper::new(alloc), Uuid::nil(), &records) {
        Ok(room) => room,
        Err(_) => panic!(rt; "no room"),
    }
}

/// A moment never falls: where a frame was sent at 5000, and the room is opened again at 1400, a flash is released at 5000,
/// as the next entry of the feed.
#[test]
fn moments_never_fall(rt: HostRuntime) {
    let alloc = rt.alloc();
    let mut room = room_beside(&rt, alloc, 65);
    assert_eq!(rt;
        send(&rt, alloc, &mut room, 1000, 1, ADDED),
        Told::Done(reply(1))
    );
    assert_eq!(rt;
        send(&rt, alloc, &mut room, 1000, 2, FLASHED),
        Told::Done(flashed(2, 1, 1000))
    );
    assert_eq!(rt; claim(&rt, &mut room, 5000), job(3));
    let keeper = room.into_keeper();
    let kept = keeper.records();
    assert_eq!(rt; kept.len(), 3);
    let payloads = [kept[0].as_slice(), kept[1].as_slice(), kept[2].as_slice()];
    assert_eq!(rt; payloads, [ADDED, FLASHED, ATTEMPTED]);
    let mut again = opened(&rt, alloc, payloads);
    assert_eq!(rt;
        send(&rt, alloc, &mut again, 1400, 3, FLASHED),
        Told::Done(flashed(4, 2, 5000))
    );
    assert_eq!(rt;
        rows_of(&rt, &again, 1).as_slice(),
        [row(2, 5000)].as_slice()
    );
}
