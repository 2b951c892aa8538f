//! Connections to a shared room in memory, from bytes to bytes. What is expected is written by hand.
ghost use Rattle.std.specs.Prelude.{◌≡◌, ◌<◌};
ghost use Rattle.std.specs.Thread.{IsSync};
ghost use Rattle.room_lock.specs.Locks.{lock_of, id_of};

use crate::given::{QUESTION, STOP, empty_room, joined, locked, room_using, steady_clock};
use desk_routes::Routes;
use feed_http::Ended;
use news_io::{MemoryClock, MemoryKeeper, MemorySink, MemorySource};
use news_room::Room;
use room_lock::{Pass, Shared};
use server_watch::Watch;
use shared_connections::serve_connection;
use std::alloc::{AllocError, Global};
use std::process::Abort;
use std::sync::Wait;
use std::test::Fail;
use std::thread::{Threads, join};

/// The desk `city` is added.
const DESK: &[u8] =
    b"POST /requests HTTP/1.1\r\nHost: n\r\nX-User: admin\r\nContent-Length: 42\r\n\r\n{\"number\":1,\"do\":\"add_desk\",\"desk\":\"city\"}";

const DONE: &[u8] =
    b"HTTP/1.1 200 \r\nContent-Type: application/json\r\nContent-Length: 27\r\n\r\n{\"answer\":\"done\",\"entry\":1}";

/// The subscriber `alpha` is added, a story is flashed, and the subscriber reads its feed and acknowledges it.
const DAY: &[&[u8]] = &[
    b"POST /requests HTTP/1.1\r\nX-User: admin\r\nContent-Length: 91\r\n\r\n",
    br#"{"number":1,"do":"add_subscriber","subscriber":"alpha","format":"ninjs","products":["all"]}"#,
    b"POST /requests HTTP/1.1\r\nX-User: admin\r\nContent-Length: 115\r\n\r\n",
    br#"{"number":2,"do":"flash","story":{"headline":"Fire","slugline":"fire","language":"en","urgency":3,"body":"Smoke."}}"#,
    b"GET /feeds/alpha/after/0 HTTP/1.1\r\nX-User: alpha\r\n\r\n",
    b"POST /feeds/alpha/receipts HTTP/1.1\r\nX-User: alpha\r\nContent-Length: 7\r\n\r\n{\"n\":1}",
    b"GET /feeds/alpha/frames/2 HTTP/1.1\r\nX-User: alpha\r\n\r\n",
];

const DAY_ANSWERED: &[&[u8]] = &[
    DONE,
    b"HTTP/1.1 200 \r\nContent-Type: application/json\r\nContent-Length: 67\r\n\r\n",
    br#"{"answer":"done","entry":2,"item":1,"publication":1,"release":1000}"#,
    b"HTTP/1.1 200 \r\nContent-Type: application/json\r\nContent-Length: 136\r\n\r\n",
    br#"{"answer":"feed","entries":[{"item":1,"k":1,"kind":"first","publication":1,"release":1000,"version":1}],"length":1,"subscriber":"alpha"}"#,
    b"HTTP/1.1 200 \r\nContent-Type: application/json\r\nContent-Length: 27\r\n\r\n{\"answer\":\"done\",\"entry\":3}",
    NOTHING,
];

/// What is refused: an item that is not there, a path without a route, no caller, another's receipt.
const REFUSED: &[&[u8]] = &[
    b"GET /items/9 HTTP/1.1\r\nX-User: admin\r\n\r\n",
    b"GET /nothing HTTP/1.1\r\n\r\n",
    b"GET /queue HTTP/1.1\r\n\r\n",
    b"POST /feeds/alpha/receipts HTTP/1.1\r\nX-User: beta\r\nContent-Length: 7\r\n\r\n{\"n\":0}",
    b"POST /requests HTTP/1.1\r\nTransfer-Encoding: chunked\r\n\r\n",
];

const REFUSED_ANSWERED: &[&[u8]] = &[
    b"HTTP/1.1 404 \r\nContent-Type: application/json\r\nContent-Length: 69\r\n\r\n",
    br#"{"answer":"denied","denial":"UnknownThing","number":5,"thing":"item"}"#,
    NOTHING,
    b"HTTP/1.1 400 \r\nContent-Type: application/json\r\nContent-Length: 0\r\n\r\n",
    b"HTTP/1.1 403 \r\nContent-Type: application/json\r\nContent-Length: 0\r\n\r\n",
    b"HTTP/1.1 501 \r\nContent-Type: application/json\r\nContent-Length: 0\r\n\r\n",
];

/// A provider is added, and sends a wire of two stories and a message without a number.
const WIRE: &[&[u8]] = &[
    b"POST /requests HTTP/1.1\r\nX-User: admin\r\nContent-Length: 50\r\n\r\n",
    br#"{"number":1,"do":"add_provider","provider":"wire"}"#,
    b"POST /ingest/wire/7901 HTTP/1.1\r\nX-User: admin\r\nContent-Length: 54\r\n\r\n",
    b"\x01abc0001 3 pol\r\n\x02A\r\na\r\n\x03\x04\x01abc0002 3 pol\r\n\x02B\r\nb\r\n\x03\x04\x01abc",
];

const WIRE_ANSWERED: &[&[u8]] = &[
    DONE,
    b"HTTP/1.1 200 \r\nContent-Type: application/json\r\nContent-Length: 145\r\n\r\n",
    br#"{"answer":"wire","rows":[{"answer":"done","entry":2,"item":1},{"answer":"done","entry":3,"item":2},{"answer":"fault","at":54,"what":"NoHeader"}]}"#,
];

/// A request that closes, and one behind it.
const CLOSE: &[&[u8]] = &[b"GET /nothing HTTP/1.1\r\nConnection: close\r\n\r\n", DESK];

const NOTHING: &[u8] =
    b"HTTP/1.1 404 \r\nContent-Type: application/json\r\nContent-Length: 0\r\n\r\n";

const FULL: &[u8] = b"HTTP/1.1 508 \r\nContent-Type: application/json\r\nContent-Length: 0\r\n\r\n";

/// Two questions, and between them a request without a route.
const QUESTIONS: &[&[u8]] = &[QUESTION, b"GET /nothing HTTP/1.1\r\n\r\n", QUESTION];

const TOLD: &[&[u8]] = &[
    b"HTTP/1.1 200 \r\nContent-Type: application/json\r\nContent-Length: 29\r\n\r\n{\"answer\":\"queue\",\"feeds\":[]}",
    NOTHING,
    b"HTTP/1.1 200 \r\nContent-Type: application/json\r\nContent-Length: 29\r\n\r\n{\"answer\":\"queue\",\"feeds\":[]}",
];

/// What a connection sends to a room without an entry, what it is answered, and how it ends.
struct Row {
    title: &'static str,
    input: &'static [&'static [u8]],
    output: &'static [&'static [u8]],
    ended: Ended,
}

const ANSWERED: [Row; 5] = [
    Row {
        title: "a day",
        input: DAY,
        output: DAY_ANSWERED,
        ended: Ended::Closed,
    },
    Row {
        title: "a wire",
        input: WIRE,
        output: WIRE_ANSWERED,
        ended: Ended::Closed,
    },
    Row {
        title: "what is refused",
        input: REFUSED,
        output: REFUSED_ANSWERED,
        ended: Ended::Chunked,
    },
    Row {
        title: "nothing is answered behind a stop",
        input: &[STOP, QUESTION],
        output: &[DONE],
        ended: Ended::Stopped { place: 1 },
    },
    Row {
        title: "nothing is answered behind a request that closes",
        input: CLOSE,
        output: &[NOTHING],
        ended: Ended::Closed,
    },
];

/// How a connection to a room without an entry ends, at 1000. The room's keeper has so many bytes in use.
fn served(
    rt: &(impl Abort + Wait),
    alloc: Global,
    used: u64,
    source: &mut MemorySource,
    sink: &mut MemorySink,
) -> Ended {
    let Ok(routes) = Routes::new(alloc) else {
        panic!(rt; "no routes")
    };
    let (shared, pass) = locked(rt, alloc, room_using(rt, alloc, used));
    let mut clock = steady_clock(rt, alloc);
    let watch = Watch::new(alloc);
    let (ended, _pass) = serve_connection(
        rt, &routes, &watch, &shared, pass, &mut clock, source, sink,
    );
    ended
}

/// Whether a connection, whose bytes come so many at a time, is answered and ends as its row says, and all of its answers
/// have passed on.
fn is_answered(
    rt: &(impl Abort + Wait),
    alloc: Global,
    most: usize,
    row: &Row,
) -> Result<bool, AllocError>
    requires { 0 < most }
{
    let mut source = MemorySource::new(joined(alloc, row.input)?).in_pieces_of(most);
    let mut sink = MemorySink::new(alloc);
    let ended = served(rt, alloc, 65, &mut source, &mut sink);
    let wanted = joined(alloc, row.output)?;
    Ok(ended == row.ended && sink.passed() == wanted.as_slice())
}

#[test]
fn requests_are_answered(rt: HostRuntime) -> Result<(), Fail> {
    for row in &ANSWERED {
        let title = row.title;
        assert!(rt; is_answered(&rt, rt.alloc(), 4096, row)?, "{title}");
        assert!(rt;
            is_answered(&rt, rt.alloc(), 1, row)?,
            "{title}, byte by byte"
        );
    }
    Ok(())
}

/// Each response counts once, and each story that was taken in for its provider.
#[test]
fn a_wire_counts_its_stories(rt: HostRuntime) -> Result<(), Fail> {
    let alloc = rt.alloc();
    let Ok(routes) = Routes::new(alloc) else {
        return Err(Fail::new("no routes"));
    };
    let (shared, pass) = locked(&rt, alloc, empty_room(&rt, alloc));
    let mut clock = steady_clock(&rt, alloc);
    let mut source = MemorySource::new(joined(alloc, WIRE)?);
    let mut sink = MemorySink::new(alloc);
    let watch = Watch::new(alloc);
    let (ended, _pass) = serve_connection(
        &rt,
        &routes,
        &watch,
        &shared,
        pass,
        &mut clock,
        &mut source,
        &mut sink,
    );
    assert_eq!(rt; ended, Ended::Closed);
    let Ok(counts) = watch.counts(&rt) else {
        return Err(Fail::new("no memory"));
    };
    let [answered] = counts.requests() else {
        return Err(Fail::new("other statuses"));
    };
    assert_eq!(rt; answered.status, 200);
    assert_eq!(rt; answered.count, 2);
    let [taken] = counts.ingests() else {
        return Err(Fail::new("other providers"));
    };
    assert_eq!(rt; taken.count, 2);
    Ok(())
}

/// The third call of the output fails; and the second one of the input, where a record of 34 bytes passes the limit by one.
#[test]
fn troubles(rt: HostRuntime) -> Result<(), Fail> {
    let alloc = rt.alloc();
    let mut source = MemorySource::new(joined(alloc, REFUSED)?);
    let mut sink = MemorySink::new(alloc).failing_at(vec![in alloc; 3]?);
    let ended = served(&rt, alloc, 65, &mut source, &mut sink);
    assert_eq!(rt; ended, Ended::WriteFault);
    assert_eq!(rt; sink.fault_count(), 1);
    let mut source = MemorySource::new(DESK.to_vec(alloc)?).failing_at(vec![in alloc; 2]?);
    let mut sink = MemorySink::new(alloc);
    let ended = served(&rt, alloc, 1073737695, &mut source, &mut sink);
    assert_eq!(rt; ended, Ended::ReadFault);
    assert!(rt; sink.passed() == FULL);
    Ok(())
}

/// The questions, in a thread, with bytes that come one at a time.
fn asks<R: Wait>(
    rt: &R,
    alloc: Global,
    shared: &Shared<Room<MemoryKeeper>>,
    pass: Pass,
) -> (Pass, bool)
    requires { lock_of pass ≡ id_of shared.now }
    ensures { lock_of result.0 ≡ lock_of pass }
{
    let (Ok(input), Ok(output)) = (joined(alloc, QUESTIONS), joined(alloc, TOLD)) else {
        return (pass, false);
    };
    let (Ok(routes), Ok(readings)) = (Routes::new(alloc), vec![in alloc; 1000]) else {
        return (pass, false);
    };
    let mut clock = MemoryClock::new(readings);
    let mut source = MemorySource::new(input).in_pieces_of(1);
    let mut sink = MemorySink::new(alloc);
    let watch = Watch::new(alloc);
    let (ended, pass) = serve_connection(
        rt,
        &routes,
        &watch,
        shared,
        pass,
        &mut clock,
        &mut source,
        &mut sink,
    );
    let is_so = ended == Ended::Closed && sink.passed() == output.as_slice();
    (pass, is_so)
}

/// The questions, in each of two threads.
fn beside<R: Threads + Wait + Sync>(
    rt: &R,
    alloc: Global,
    shared: &Shared<Room<MemoryKeeper>>,
    passes: (Pass, Pass),
) -> (Pass, bool)
    requires { (lock_of passes.0 ≡ id_of shared.now) × (lock_of passes.1 ≡ id_of shared.now) }
    ensures { lock_of result.0 ≡ id_of shared.now }
{
    let (one, other) = passes;
    let ((one, first), (other, second)) = join(
        rt,
        || -> (Pass, bool)
            requires { IsSync R.row × (lock_of one ≡ id_of shared.now) }
            ensures { lock_of result.0 ≡ id_of shared.entry.now }
        { asks(rt, alloc, shared, one) },
        || -> (Pass, bool)
            requires { IsSync R.row × (lock_of other ≡ id_of shared.now) }
            ensures { lock_of result.0 ≡ id_of shared.entry.now }
        { asks(rt, alloc, shared, other) },
    );
    (shared.join(one, other), first && second)
}

#[test]
fn two_threads_are_answered(rt: HostRuntime) -> Result<(), Fail> {
    let alloc = rt.alloc();
    let (shared, pass) = locked(&rt, alloc, empty_room(&rt, alloc));
    let Ok(passes) = shared.split(pass) else {
        return Err(Fail::new("no second pass"));
    };
    let (_, is_so) = beside(&rt, alloc, &shared, passes);
    assert!(rt; is_so);
    Ok(())
}
