//! Turns over a room and receivers in memory. What is expected is counted by hand.
ghost use Rattle.news_room.specs.Stands.{SomeBook};

use crate::rooms::{named, numbers, room_over, send};
use feed_links::MemoryLink;
use feed_receiver::Receiver;
use news_io::{Keeper, MemoryClock, MemoryKeeper, MemorySink};
use news_room::Room;
use news_types::{Moment, Names};
use publish_workers::{Worked, deliver_turn, drain_links};
use std::alloc::Global;
use std::process::Abort;

/// The subscriber `alpha` is added at 1000, as the first request of `admin`.
const ALPHA: &[u8] =
    b"\0\0\0\0\0\0\x03\xe8\x06\x05admin\0\0\0\0\0\0\0\x01\x0c\x05alpha\0\0\x01\x03all";

/// The subscriber `beta` is added at 1000, as the second request of `admin`.
const BETA: &[u8] =
    b"\0\0\0\0\0\0\x03\xe8\x06\x05admin\0\0\0\0\0\0\0\x02\x0c\x04beta\0\0\x01\x03all";

/// A story is flashed at 1000, as the second request of `admin`.
const FLASHED: &[u8] =
    b"\0\0\0\0\0\0\x03\xe8\x06\x05admin\0\0\0\0\0\0\0\x02\x12\0\x03\0\0\0\x04fire\0\0\0\x04Fire\0\0\0\0\0\0\0\x02en\0\0\0\0\0\0\0\x06Smoke.\0\0\0";

/// What a turn is told as, so that it can be compared.
#[derive(Clone, Copy, Debug, PartialEq, Eq)]
enum Told {
    Delivered { k: u32, n: u32 },
    Idle { next: Option<Moment> },
    NoReceipt { k: u32, length: usize },
    LinkFault { k: u32 },
    StoreFault,
    Full { size: u64, length: u64 },
    Memory,
}

fn tell(worked: Worked) -> Told {
    match worked {
        Worked::Delivered { k, n, .. } => Told::Delivered { k, n },
        Worked::Idle { next } => Told::Idle { next },
        Worked::NoReceipt { k, reply, .. } => Told::NoReceipt {
            k,
            length: reply.as_slice().len(),
        },
        Worked::LinkFault { k, .. } => Told::LinkFault { k },
        Worked::StoreFault => Told::StoreFault,
        Worked::Full { size, length } => Told::Full { size, length },
        Worked::Memory => Told::Memory,
    }
}

/// A room in which one story is published, for `alpha` alone. Its keeper's appends with these numbers fail.
fn room_of_one(rt: &impl Abort, alloc: Global, failing: &[u64]) -> Room<MemoryKeeper>
    ensures { SomeBook ⟦<MemoryKeeper as Keeper>⟧.keeper result }
{
    let mut room = room_over(rt, alloc, failing);
    send(rt, alloc, &mut room, 1, ALPHA);
    send(rt, alloc, &mut room, 2, FLASHED);
    room
}

/// A receiver that was sent these bytes.
fn receiver_of(
    rt: &impl Abort,
    alloc: Global,
    name: &str,
    frames: &[&[u8]],
) -> Receiver<MemoryKeeper> {
    let keeper = MemoryKeeper::new(alloc);
    let Ok(mut receiver) = Receiver::open(alloc, keeper, named(rt, name), &[]) else {
        panic!(rt; "no receiver")
    };
    for frame in frames {
        drop(receiver.take(frame));
    }
    receiver
}

/// A link to `alpha` and `beta` with these receivers, whose calls with these numbers fail.
fn link_to(
    rt: &impl Abort,
    alloc: Global,
    alpha: Receiver<MemoryKeeper>,
    beta: Receiver<MemoryKeeper>,
    failing: &[u64],
) -> MemoryLink<MemoryKeeper> {
    let Ok(names) = [named(rt, "alpha"), named(rt, "beta")].to_vec(alloc) else {
        panic!(rt; "no memory")
    };
    let Ok(receivers) = Vec::from_array(alloc, [alpha, beta]) else {
        panic!(rt; "no memory")
    };
    MemoryLink::new(
        alloc,
        Names::of(names),
        receivers,
        numbers(rt, alloc, failing),
    )
}

/// A link to receivers that hold nothing, whose calls with these numbers fail.
fn empty_link(rt: &impl Abort, alloc: Global, failing: &[u64]) -> MemoryLink<MemoryKeeper> {
    let alpha = receiver_of(rt, alloc, "alpha", &[]);
    let beta = receiver_of(rt, alloc, "beta", &[]);
    link_to(rt, alloc, alpha, beta, failing)
}

/// A link to one receiver that holds nothing, whose calls with these numbers fail.
fn link_of_one(
    rt: &impl Abort,
    alloc: Global,
    name: &str,
    failing: &[u64],
) -> MemoryLink<MemoryKeeper> {
    let Ok(names) = [named(rt, name)].to_vec(alloc) else {
        panic!(rt; "no memory")
    };
    let Ok(receivers) = Vec::from_array(alloc, [receiver_of(rt, alloc, name, &[])]) else {
        panic!(rt; "no memory")
    };
    MemoryLink::new(
        alloc,
        Names::of(names),
        receivers,
        numbers(rt, alloc, failing),
    )
}

/// What a turn at a moment is told as.
fn turn(
    rt: &impl Abort,
    alloc: Global,
    room: &mut Room<MemoryKeeper>,
    link: &mut MemoryLink<MemoryKeeper>,
    now: u64,
) -> Told
    requires { SomeBook ⟦<MemoryKeeper as Keeper>⟧.keeper room.old }
    ensures { SomeBook ⟦<MemoryKeeper as Keeper>⟧.keeper room.new }
{
    let Ok(readings) = vec![in alloc; now] else {
        panic!(rt; "no memory")
    };
    let mut clock = MemoryClock::new(readings);
    tell(deliver_turn(room, &mut clock, link))
}

// Whether the frame that was sent at this place begins so.
fn begins(link: &MemoryLink<MemoryKeeper>, place: usize, front: &[u8]) -> bool {
    match link.sent().get(place) {
        Some(sent) => sent.1.as_slice().starts_with(front),
        None => false,
    }
}

/// Two feeds, of two entries and of one, all released at 1000: the one that fails is tried again half a minute later.
#[test]
fn feeds_go_out_in_turn(rt: HostRuntime) {
    let alloc = rt.alloc();
    let mut room = room_of_one(&rt, alloc, &[]);
    send(&rt, alloc, &mut room, 3, BETA);
    send(&rt, alloc, &mut room, 4, FLASHED);
    // The fifth call sends to `beta`.
    let mut link = empty_link(&rt, alloc, &[5]);
    assert_eq!(rt;
        turn(&rt, alloc, &mut room, &mut link, 1000),
        Told::Delivered { k: 1, n: 1 }
    );
    assert_eq!(rt;
        turn(&rt, alloc, &mut room, &mut link, 1000),
        Told::Delivered { k: 2, n: 2 }
    );
    assert_eq!(rt;
        turn(&rt, alloc, &mut room, &mut link, 1000),
        Told::LinkFault { k: 1 }
    );
    assert_eq!(rt;
        turn(&rt, alloc, &mut room, &mut link, 1059),
        Told::Idle { next: Some(1060) }
    );
    assert_eq!(rt;
        turn(&rt, alloc, &mut room, &mut link, 1060),
        Told::Delivered { k: 1, n: 1 }
    );
    assert_eq!(rt;
        turn(&rt, alloc, &mut room, &mut link, 1060),
        Told::Idle { next: None }
    );
    assert_eq!(rt; link.count(&named(&rt, "alpha")), Some(2));
    assert_eq!(rt; link.count(&named(&rt, "beta")), Some(1));
    // Four requests, four attempts, three receipts.
    assert_eq!(rt; room.front(), 11);
    assert_eq!(rt; (link.sent().len(), link.said().len()), (3, 3));
    assert!(rt; begins(&link, 0, b"FRAME alpha 1 229\n{\"body_text\":\"Smoke.\""));
    assert!(rt; begins(&link, 1, b"FRAME alpha 2 229\n"));
    assert!(rt; begins(&link, 2, b"FRAME beta 1 229\n"));
}

/// A frame is lost, and then a receipt: the frame that comes again is held once.
#[test]
fn what_is_lost_comes_again(rt: HostRuntime) {
    let alloc = rt.alloc();
    let mut room = room_of_one(&rt, alloc, &[]);
    let mut link = empty_link(&rt, alloc, &[1, 3]);
    let alpha = named(&rt, "alpha");
    assert_eq!(rt;
        turn(&rt, alloc, &mut room, &mut link, 1000),
        Told::LinkFault { k: 1 }
    );
    assert_eq!(rt; link.count(&alpha), Some(0));
    assert_eq!(rt;
        turn(&rt, alloc, &mut room, &mut link, 1060),
        Told::LinkFault { k: 1 }
    );
    assert_eq!(rt; link.count(&alpha), Some(1));
    assert_eq!(rt;
        turn(&rt, alloc, &mut room, &mut link, 1179),
        Told::Idle { next: Some(1180) }
    );
    assert_eq!(rt;
        turn(&rt, alloc, &mut room, &mut link, 1180),
        Told::Delivered { k: 1, n: 1 }
    );
    assert_eq!(rt; link.count(&alpha), Some(1));
    assert_eq!(rt;
        (link.sent().len(), link.said().len(), link.fault_count()),
        (2, 1, 2)
    );
}

/// A receiver that has had frames 1, 1, 3 and 2 already acknowledges two entries at once; one that holds three of a
/// feed of two, and one of another name, acknowledge nothing.
#[test]
fn receipts_are_for_entries_of_the_feed(rt: HostRuntime) {
    let alloc = rt.alloc();
    let mut room = room_of_one(&rt, alloc, &[]);
    send(&rt, alloc, &mut room, 3, FLASHED);
    let frames: [&[u8]; 4] = [
        b"FRAME alpha 1 0\n",
        b"FRAME alpha 1 0\n",
        b"FRAME alpha 3 0\n",
        b"FRAME alpha 2 0\n",
    ];
    let ahead: [&[u8]; 3] = [
        b"FRAME alpha 1 0\n",
        b"FRAME alpha 2 0\n",
        b"FRAME alpha 3 0\n",
    ];
    let other = receiver_of(&rt, alloc, "beta", &[]);
    let mut link = link_to(&rt, alloc, other, receiver_of(&rt, alloc, "beta", &[]), &[]);
    assert_eq!(rt;
        turn(&rt, alloc, &mut room, &mut link, 1000),
        Told::NoReceipt { k: 1, length: 15 }
    );
    let past = receiver_of(&rt, alloc, "alpha", &ahead);
    let mut link = link_to(&rt, alloc, past, receiver_of(&rt, alloc, "beta", &[]), &[]);
    assert_eq!(rt;
        turn(&rt, alloc, &mut room, &mut link, 1060),
        Told::NoReceipt { k: 1, length: 16 }
    );
    let two = receiver_of(&rt, alloc, "alpha", &frames);
    let mut link = link_to(&rt, alloc, two, receiver_of(&rt, alloc, "beta", &[]), &[]);
    assert_eq!(rt;
        turn(&rt, alloc, &mut room, &mut link, 1180),
        Told::Delivered { k: 1, n: 2 }
    );
    assert_eq!(rt;
        turn(&rt, alloc, &mut room, &mut link, 1180),
        Told::Idle { next: None }
    );
}

/// A keeper that fails at the attempt, and then at the receipt: nothing is sent before the attempt is kept, and the frame
/// whose receipt was not kept goes out again.
#[test]
fn a_frame_is_sent_behind_its_attempt(rt: HostRuntime) {
    let alloc = rt.alloc();
    let mut room = room_of_one(&rt, alloc, &[3, 5]);
    let mut link = empty_link(&rt, alloc, &[]);
    let alpha = named(&rt, "alpha");
    assert_eq!(rt;
        turn(&rt, alloc, &mut room, &mut link, 1000),
        Told::StoreFault
    );
    assert_eq!(rt; (link.sent().len(), room.front()), (0, 2));
    assert_eq!(rt;
        turn(&rt, alloc, &mut room, &mut link, 1000),
        Told::StoreFault
    );
    assert_eq!(rt; (link.sent().len(), room.front()), (1, 3));
    assert_eq!(rt;
        turn(&rt, alloc, &mut room, &mut link, 1060),
        Told::Delivered { k: 1, n: 1 }
    );
    assert_eq!(rt; link.count(&alpha), Some(1));
    assert_eq!(rt; (link.sent().len(), room.front()), (2, 5));
}

/// Of two links the first fails at its attempt: the second is drained all the same, and the status tells of the first.
#[test]
fn links_are_drained_in_turn(rt: HostRuntime) {
    let alloc = rt.alloc();
    let mut room = room_over(&rt, alloc, &[]);
    send(&rt, alloc, &mut room, 1, ALPHA);
    send(&rt, alloc, &mut room, 2, BETA);
    send(&rt, alloc, &mut room, 3, FLASHED);
    let Ok(readings) = vec![in alloc; 1000] else {
        panic!(rt; "no memory")
    };
    let mut clock = MemoryClock::new(readings);
    let mut links = [
        link_of_one(&rt, alloc, "alpha", &[1]),
        link_of_one(&rt, alloc, "beta", &[]),
    ];
    let mut output = MemorySink::new(alloc);
    assert_eq!(rt;
        drain_links(alloc, &mut room, &mut clock, &mut links, &mut output),
        10
    );
    assert_eq!(rt;
        output.passed(),
        b"alpha 1 link-fault\nbeta 1 delivered\n{\"status\":10}\n".as_slice()
    );
    // Three requests, two attempts, one receipt.
    assert_eq!(rt; room.front(), 6);
}
