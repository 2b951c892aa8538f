//! A server runs to its end: two workers and a connection that have to overlap, and each way to end. What is expected is
//! written by hand.
ghost use Rattle.std.specs.Prelude.{IfOk};
ghost use Rattle.news_room.specs.Stands.{SomeBook};

use crate::given::{STOP, joined, link_to, room_using, steady_clock};
use crate::meeting::{MeetDoor, MeetLink};
use news_io::{Keeper, Link, MemoryDisk, MemorySink, MemorySource};
use news_pair::Pair;
use news_room::Room;
use newsdesk_server::{Setup, open_store, run_serve};
use run_status::Status;
use server_doors::MemoryDoor;
use std::alloc::Global;
use std::process::Abort;
use std::str;
use std::sync::Wait;
use std::sync::atomic::AtomicBool;
use std::test::Fail;
use std::thread::Threads;

/// The header of a room's log, for the store 6ba7b810-9dad-11d1-80b4-00c04fd430c8.
const HEADER: &[u8] =
    b"NEWSDESK\x02\x01\0\0\0\0\0\0\x6b\xa7\xb8\x10\x9d\xad\x11\xd1\x80\xb4\0\xc0\x4f\xd4\x30\xc8\0\0\0\0\0\0\0\0\0\0\0\0\0\0\0\0\0\0\0\0\0\0\0\0\0\0\0\0\0\0\0\0";

/// The gate behind the last record.
const CLOSED: &[u8] = b"\0";

/// The record of the desk `city`: its gate, its length, and 29 bytes. It is added at 1000, as the first request of `admin`.
const CITY: &[u8] =
    b"\x01\0\0\0\x1d\0\0\0\0\0\0\x03\xe8\x06\x05admin\0\0\0\0\0\0\0\x01\x03\x04city";

/// The same with a length of one byte more than it has.
const LONGER: &[u8] =
    b"\x01\0\0\0\x1e\0\0\0\0\0\0\x03\xe8\x06\x05admin\0\0\0\0\0\0\0\x01\x03\x04city";

/// The subscribers `alpha` and `beta` are added, each for all stories, as the first two requests of `admin`.
const ALPHA: &[u8] =
    b"\x01\0\0\0\x25\0\0\0\0\0\0\x03\xe8\x06\x05admin\0\0\0\0\0\0\0\x01\x0c\x05alpha\0\0\x01\x03all";

const BETA: &[u8] =
    b"\x01\0\0\0\x24\0\0\0\0\0\0\x03\xe8\x06\x05admin\0\0\0\0\0\0\0\x02\x0c\x04beta\0\0\x01\x03all";

/// A story is flashed, as the third.
const FLASHED: &[u8] =
    b"\x01\0\0\0\x45\0\0\0\0\0\0\x03\xe8\x06\x05admin\0\0\0\0\0\0\0\x03\x12\0\x03\0\0\0\x04fire\0\0\0\x04Fire\0\0\0\0\0\0\0\x02en\0\0\0\0\0\0\0\x06Smoke.\0\0\0";

/// `admin` stops the newsroom, as the fourth request.
const FOURTH_STOP: &[u8] =
    b"POST /requests HTTP/1.1\r\nX-User: admin\r\nContent-Length: 24\r\n\r\n{\"number\":4,\"do\":\"stop\"}";

/// What is printed behind the three requests, an attempt and a receipt for each subscriber, and the stop.
const ALL_DELIVERED: &str =
    "entries 8\nalpha length 1 acked 1 tries 0 success\nbeta length 1 acked 1 tries 0 success\n";

/// Opens a log with these parts, one behind the other, and a side without a byte.
fn open(alloc: Global, log: &[&[u8]]) -> Result<Room<Pair<MemoryDisk>>, Status>
    ensures { IfOk result (SomeBook ⟦<Pair<MemoryDisk> as Keeper>⟧.keeper) }
{
    let Ok(bytes) = joined(alloc, log) else {
        return Err(Status::Memory);
    };
    let Ok(log) = MemoryDisk::holding(alloc, &bytes) else {
        return Err(Status::Memory);
    };
    match open_store(alloc, log, MemoryDisk::new(alloc)) {
        Ok(room) => Ok(room),
        Err((status, _, _)) => Err(status),
    }
}

/// How a server over a room without an entry ends, at 1000.
struct Row {
    /// The bytes in use before.
    used: u64,
    /// The inputs of its connections.
    inputs: &'static [&'static [u8]],
    /// The calls of its output that fail, by their numbers from 1.
    failing: &'static [u64],
    status: Status,
    /// What has been printed, and has passed on.
    printed: &'static str,
}

/// A stop, a door that fails, an output that fails, and a room that is too full for a halt.
const ENDS: [Row; 4] = [
    Row {
        used: 65,
        inputs: &[STOP],
        failing: &[],
        status: Status::Done,
        printed: "entries 1\n",
    },
    Row {
        used: 1_073_741_810,
        inputs: &[],
        failing: &[],
        status: Status::Input,
        printed: "entries 1\n{\"status\":4}\n",
    },
    Row {
        used: 65,
        inputs: &[STOP],
        failing: &[1],
        status: Status::Output,
        printed: "",
    },
    Row {
        used: 1_073_741_811,
        inputs: &[],
        failing: &[],
        status: Status::Full,
        printed: "{\"status\":8}\n",
    },
];

/// Runs a server with one worker.
fn ended<R: Threads + Wait + Abort + Sync>(
    rt: &R,
    alloc: Global,
    row: &Row,
) -> Result<(Status, MemorySink), Fail> {
    let mut inputs = Vec::new(alloc);
    for input in row.inputs {
        inputs.push(MemorySource::new(input.to_vec(alloc)?))?;
    }
    let setup = Setup {
        room: room_using(rt, alloc, row.used),
        door: MemoryDoor::new(alloc, inputs, Vec::new(alloc)),
        clocks: vec![in alloc; steady_clock(rt, alloc), steady_clock(rt, alloc)]?,
        links: vec![in alloc; link_to(rt, alloc, "alpha", &[])]?,
    };
    let mut output = MemorySink::new(alloc).failing_at(row.failing.to_vec(alloc)?);
    let served = run_serve(rt, alloc, setup, &mut output);
    Ok((served.status, output))
}

#[test]
fn a_server_ends_with_its_status(rt: HostRuntime) -> Result<(), Fail> {
    for row in &ENDS {
        let (status, output) = ended(&rt, rt.alloc(), row)?;
        assert_eq!(rt; status, row.status);
        assert_eq!(rt; str::from_utf8(output.passed())?, row.printed);
    }
    Ok(())
}

/// Neither link replies before both have sent, and no request is read before that either. So both workers have to be at it
/// beside each other and beside the connection, and no turn of the lock may last while a frame is sent.
#[test]
fn two_workers_and_a_connection_overlap(rt: HostRuntime) -> Result<(), Fail> {
    let alloc = rt.alloc();
    let Ok(room) = open(alloc, &[HEADER, ALPHA, BETA, FLASHED, CLOSED]) else {
        return Err(Fail::new("no room"));
    };
    let (alpha, beta) = (AtomicBool::new(false), AtomicBool::new(false));
    let to_alpha = MeetLink::new(&rt, link_to(&rt, alloc, "alpha", &[]), &alpha, &beta);
    let to_beta = MeetLink::new(&rt, link_to(&rt, alloc, "beta", &[]), &beta, &alpha);
    let stop = FOURTH_STOP.to_vec(alloc)?;
    let setup = Setup {
        room,
        door: MeetDoor::new(&rt, alloc, stop, (&alpha, &beta)),
        clocks: vec![in alloc;
            steady_clock(&rt, alloc),
            steady_clock(&rt, alloc),
            steady_clock(&rt, alloc),
        ]?,
        links: vec![in alloc; to_alpha, to_beta]?,
    };
    let mut output = MemorySink::new(alloc);
    let served = run_serve(&rt, alloc, setup, &mut output);
    assert_eq!(rt; served.status, Status::Done);
    assert_eq!(rt; str::from_utf8(output.passed())?, ALL_DELIVERED);
    assert_eq!(rt; served.links.len(), 2);
    for link in &served.links {
        for name in link.names() {
            assert_eq!(rt; link.inner.count(name), Some(1));
        }
    }
    Ok(())
}

#[test]
fn a_store_opens_or_is_damaged(rt: HostRuntime) -> Result<(), Fail> {
    let alloc = rt.alloc();
    match open(alloc, &[HEADER, CITY, CLOSED]) {
        Ok(room) => assert_eq!(rt; room.front(), 1),
        Err(_) => return Err(Fail::new("no room")),
    }
    match open(alloc, &[HEADER, LONGER, CLOSED]) {
        Ok(_) => return Err(Fail::new("a room")),
        Err(status) => {
            assert_eq!(rt;
                status,
                Status::Damaged {
                    at: 65,
                    found: Some(0)
                }
            );
            assert_eq!(rt; status.number(), 7);
        }
    }
    Ok(())
}
