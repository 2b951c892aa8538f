//! The place that is left for requests.
use super::{Told, halt, reply, room_beside, send};

/// The desk `city` is added at 1000, as the first request of `admin`.
const CITY: &[u8] = b"\0\0\0\0\0\0\x03\xe8\x06\x05admin\0\0\0\0\0\0\0\x01\x03\x04city";

/// A record of 34 bytes takes the last place below the limit, and none past it.
#[test]
fn is_full_at_the_limit(rt: HostRuntime) {
    let alloc = rt.alloc();
    let mut room = room_beside(&rt, alloc, 1073737694);
    assert_eq!(rt;
        send(&rt, alloc, &mut room, 1000, 1, CITY),
        Told::Done(reply(1))
    );
    assert_eq!(rt; room.size(), 1073737728);
    let mut full = room_beside(&rt, alloc, 1073737695);
    assert_eq!(rt;
        send(&rt, alloc, &mut full, 1000, 1, CITY),
        Told::Full {
            size: 1073737695,
            length: 29
        }
    );
    assert_eq!(rt; full.front(), 0);
}

/// The first request of `admin`, at 1000: a stop.
const STOP: &[u8] = b"\0\0\0\0\0\0\x03\xe8\x06\x05admin\0\0\0\0\0\0\0\x01\x20";

/// A stop, whose record has 29 bytes, is kept past that limit, and leaves the record of a halt its place.
#[test]
fn is_stopped_where_it_is_full(rt: HostRuntime) {
    let alloc = rt.alloc();
    let mut room = room_beside(&rt, alloc, 1073741781);
    assert!(rt; send(&rt, alloc, &mut room, 1000, 1, STOP) == Told::Done(reply(1)));
    assert!(rt; halt(&mut room, 1000) == Told::Kept { entry: 2 });
    assert!(rt; room.size() == 1073741824);
}

#[test]
fn leaves_a_halt_its_place(rt: HostRuntime) {
    let alloc = rt.alloc();
    let mut room = room_beside(&rt, alloc, 1073741782);
    let told = send(&rt, alloc, &mut room, 1000, 1, STOP);
    assert!(rt;
        told == Told::Full {
            size: 1073741782,
            length: 24
        }
    );
    assert!(rt; room.front() == 0);
}
