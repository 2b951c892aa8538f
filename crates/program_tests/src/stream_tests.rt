//! Each send, reply, read and write of a run fails once: the run tells it by its status or its end, and no other answer changes.
ghost use Rattle.news_room.specs.Stands.{SomeBook};

use crate::commands::{Left, NEW, done_at, done_with, number, source_of};
use desk_routes::Routes;
use feed_http::{Ended, serve_plain};
use feed_links::MemoryLink;
use feed_receiver::Receiver;
use news_io::{Keeper, MemoryClock, MemoryDisk, MemoryKeeper, MemorySink, MemorySource};
use news_room::Room;
use news_types::{Memory, Name, Names};
use std::alloc::Global;
use std::process::Abort;
use std::test::Fail;
use uuid::Uuid;

/// More calls than any run here makes.
const ALL: u64 = 1000;

/// A subscriber is added, a story flashed, and the feed read.
const LINES: &[u8] =
    b"{\"by\":\"admin\",\"number\":1,\"do\":\"add_subscriber\",\"subscriber\":\"alpha\",\"format\":\"ninjs\",\"products\":[\"all\"]}\n{\"by\":\"admin\",\"number\":2,\"do\":\"flash\",\"story\":{\"headline\":\"Fire\"}}\n{\"ask\":\"feed\",\"subscriber\":\"alpha\",\"after\":0}\n";

const LINES_ANSWERED: &[u8] =
    b"{\"answer\":\"done\",\"entry\":1}\n{\"answer\":\"done\",\"entry\":2,\"item\":1,\"publication\":1,\"release\":1000}\n{\"answer\":\"feed\",\"entries\":[{\"item\":1,\"k\":1,\"kind\":\"first\",\"publication\":1,\"release\":1000,\"version\":1}],\"length\":1,\"subscriber\":\"alpha\"}\n";

/// Two frames of `alpha`.
const FRAMES: &[u8] = b"FRAME alpha 1 2\nhiFRAME alpha 2 0\n";

const FRAMES_ANSWERED: &[u8] = b"RECEIPT alpha 1\nRECEIPT alpha 2\n";

/// Two subscribers are added, and two stories flashed.
const TWO_FEEDS: &[u8] =
    b"{\"by\":\"admin\",\"number\":1,\"do\":\"add_subscriber\",\"subscriber\":\"alpha\",\"format\":\"ninjs\",\"products\":[\"all\"]}\n{\"by\":\"admin\",\"number\":2,\"do\":\"add_subscriber\",\"subscriber\":\"beta\",\"format\":\"7901\",\"products\":[\"all\"]}\n{\"by\":\"admin\",\"number\":3,\"do\":\"flash\",\"story\":{\"headline\":\"Fire\"}}\n{\"by\":\"admin\",\"number\":4,\"do\":\"flash\",\"story\":{\"headline\":\"Rain\"}}\n";

const DRAINED_WHOLE: &[u8] =
    b"alpha 1 delivered\nalpha 2 delivered\nbeta 1 delivered\nbeta 2 delivered\n";

/// Over HTTP the subscriber `alpha` is added, a story is flashed, and the subscriber reads its feed and acknowledges it.
const DAY: &[u8] =
    b"POST /requests HTTP/1.1\r\nX-User: admin\r\nContent-Length: 91\r\n\r\n{\"number\":1,\"do\":\"add_subscriber\",\"subscriber\":\"alpha\",\"format\":\"ninjs\",\"products\":[\"all\"]}POST /requests HTTP/1.1\r\nX-User: admin\r\nContent-Length: 115\r\n\r\n{\"number\":2,\"do\":\"flash\",\"story\":{\"headline\":\"Fire\",\"slugline\":\"fire\",\"language\":\"en\",\"urgency\":3,\"body\":\"Smoke.\"}}GET /feeds/alpha/after/0 HTTP/1.1\r\nX-User: alpha\r\n\r\nPOST /feeds/alpha/receipts HTTP/1.1\r\nX-User: alpha\r\nContent-Length: 7\r\n\r\n{\"n\":1}GET /feeds/alpha/frames/2 HTTP/1.1\r\nX-User: alpha\r\n\r\n";

const DAY_ANSWERED: &[u8] =
    b"HTTP/1.1 200 \r\nContent-Type: application/json\r\nContent-Length: 27\r\n\r\n{\"answer\":\"done\",\"entry\":1}HTTP/1.1 200 \r\nContent-Type: application/json\r\nContent-Length: 67\r\n\r\n{\"answer\":\"done\",\"entry\":2,\"item\":1,\"publication\":1,\"release\":1000}HTTP/1.1 200 \r\nContent-Type: application/json\r\nContent-Length: 136\r\n\r\n{\"answer\":\"feed\",\"entries\":[{\"item\":1,\"k\":1,\"kind\":\"first\",\"publication\":1,\"release\":1000,\"version\":1}],\"length\":1,\"subscriber\":\"alpha\"}HTTP/1.1 200 \r\nContent-Type: application/json\r\nContent-Length: 27\r\n\r\n{\"answer\":\"done\",\"entry\":3}HTTP/1.1 404 \r\nContent-Type: application/json\r\nContent-Length: 0\r\n\r\n";

/// A run of a command over a log and an input: what it is answered.
#[derive(Clone, Copy)]
struct Run {
    words: &'static str,
    log: &'static [u8],
    input: &'static [u8],
    answers: &'static [u8],
}

const BATCH: Run = Run {
    words: "batch s",
    log: NEW,
    input: LINES,
    answers: LINES_ANSWERED,
};

const RECEIVE: Run = Run {
    words: "receive s alpha",
    log: b"",
    input: FRAMES,
    answers: FRAMES_ANSWERED,
};

/// A link to the receivers `alpha` and `beta`, which hold nothing, of which one call fails.
fn link_to_two(alloc: Global, failing: u64) -> Result<MemoryLink<MemoryKeeper>, Memory> {
    let mut names = Vec::new(alloc);
    let mut receivers = Vec::new(alloc);
    for name in ["alpha", "beta"] {
        let Some(name) = Name::read(name) else {
            return Err(Memory);
        };
        let Ok(receiver) = Receiver::open(alloc, MemoryKeeper::new(alloc), name, &[]) else {
            return Err(Memory);
        };
        names.push(name)?;
        receivers.push(receiver)?;
    }
    Ok(MemoryLink::new(alloc, Names::of(names), receivers, number(alloc, failing)?))
}

/// What a command leaves at a moment, over these links.
fn over_links(
    alloc: Global,
    words: &str,
    streams: (MemorySource, MemorySink),
    log: MemoryDisk,
    now: u64,
    links: &mut Vec<MemoryLink<MemoryKeeper>>,
) -> Result<Left, Memory> {
    let clock = MemoryClock::new(vec![in alloc; now]?);
    let disks = (log, MemoryDisk::new(alloc));
    done_at(alloc, words, streams, disks, clock, links)
}

/// What a run leaves where one read, or one call of the output, fails. The input comes in pieces.
fn run_with(alloc: Global, run: &Run, log: &[u8], read: u64, write: u64) -> Result<Left, Memory> {
    let input = source_of(alloc, run.input)?
        .in_pieces_of(20)
        .failing_at(number(alloc, read)?);
    let output = MemorySink::new(alloc).failing_at(number(alloc, write)?);
    let log = MemoryDisk::holding(alloc, log)?;
    let link = link_to_two(alloc, 0)?;
    let mut links = vec![in alloc; link]?;
    over_links(alloc, run.words, (input, output), log, 1000, &mut links)
}

/// Whether an output has the first of these answers, each whole, and then this line.
fn ends_with(output: &[u8], answers: &[u8], line: &[u8]) -> bool {
    let count = output.len().saturating_sub(line.len());
    let told = output.get(..count).unwrap_or(&[]);
    output.ends_with(line)
        && answers.starts_with(told)
        && (told.is_empty() || told.ends_with(b"\n"))
}

/// How many reads a run does without a fault; nothing where one that fails is told otherwise than by status 4.
fn reads_of(alloc: Global, run: &Run) -> Result<Option<u64>, Memory> {
    for call in 1..ALL {
        let left = run_with(alloc, run, run.log, call, 0)?;
        if left.status == 0 && left.output.as_bytes() == run.answers {
            return Ok(Some(call - 1));
        }
        if left.status != 4
            || !ends_with(left.output.as_bytes(), run.answers, b"{\"status\":4}\n")
        {
            return Ok(None);
        }
    }
    Ok(None)
}

/// How many calls of the output it does without a fault; nothing where one that fails is told otherwise than by status 5.
fn writes_of(alloc: Global, run: &Run, log: &[u8]) -> Result<Option<u64>, Memory> {
    for call in 1..ALL {
        let left = run_with(alloc, run, log, 0, call)?;
        if left.status == 0 && left.output.passed() == run.answers {
            return Ok(Some(call - 1));
        }
        if left.status != 5 || !run.answers.starts_with(left.output.as_bytes()) {
            return Ok(None);
        }
    }
    Ok(None)
}

/// Each read: one for each twenty bytes, and one at the end.
#[test]
fn each_read_may_fail(rt: HostRuntime) -> Result<(), Fail> {
    let alloc = rt.alloc();
    let least = LINES.len() as u64 / 20;
    assert!(rt; reads_of(alloc, &BATCH)?.ok_or("told otherwise")? > least);
    assert!(rt; reads_of(alloc, &RECEIVE)?.ok_or("told otherwise")? > 1);
    Ok(())
}

/// The log that two subscribers and two stories leave.
fn two_feeds(alloc: Global) -> Result<MemoryDisk, Memory> {
    let log = MemoryDisk::holding(alloc, NEW)?;
    let left = done_with(alloc, "batch s", TWO_FEEDS, log)?;
    Ok(left.log)
}

const DRAIN: Run = Run {
    words: "drain s",
    log: b"",
    input: b"",
    answers: DRAINED_WHOLE,
};

/// Each write and flush: two or more for each answer.
#[test]
fn each_write_may_fail(rt: HostRuntime) -> Result<(), Fail> {
    let alloc = rt.alloc();
    assert!(rt; writes_of(alloc, &BATCH, BATCH.log)?.ok_or("told otherwise")? >= 6);
    assert!(rt; writes_of(alloc, &RECEIVE, RECEIVE.log)?.ok_or("told otherwise")? >= 4);
    let log = two_feeds(alloc)?;
    assert!(rt; writes_of(alloc, &DRAIN, log.as_bytes())?.ok_or("told otherwise")? >= 8);
    Ok(())
}

/// A drain of two feeds where one call of the link fails, and a second one a minute later: the status of the first, and what
/// both are answered.
const DRAINED: [(u8, &[u8], &[u8]); 5] = [
    (
        10,
        b"alpha 1 link-fault\nbeta 1 delivered\nbeta 2 delivered\n{\"status\":10}\n",
        b"alpha 1 delivered\nalpha 2 delivered\n",
    ),
    (
        10,
        b"alpha 1 delivered\nalpha 2 link-fault\nbeta 1 delivered\nbeta 2 delivered\n{\"status\":10}\n",
        b"alpha 2 delivered\n",
    ),
    (
        10,
        b"alpha 1 delivered\nalpha 2 delivered\nbeta 1 link-fault\n{\"status\":10}\n",
        b"beta 1 delivered\nbeta 2 delivered\n",
    ),
    (
        10,
        b"alpha 1 delivered\nalpha 2 delivered\nbeta 1 delivered\nbeta 2 link-fault\n{\"status\":10}\n",
        b"beta 2 delivered\n",
    ),
    (0, DRAINED_WHOLE, b""),
];

/// Whether two drains are answered so where this call of the link fails, and each receiver then holds both frames.
fn is_drained(alloc: Global, call: u64, row: (u8, &[u8], &[u8])) -> Result<bool, Memory> {
    let (status, first, second) = row;
    let link = link_to_two(alloc, call)?;
    let mut links = vec![in alloc; link]?;
    let streams = (source_of(alloc, b"")?, MemorySink::new(alloc));
    let left = over_links(
        alloc,
        "drain s",
        streams,
        two_feeds(alloc)?,
        1000,
        &mut links,
    )?;
    let streams = (source_of(alloc, b"")?, MemorySink::new(alloc));
    let again = over_links(alloc, "drain s", streams, left.log, 1060, &mut links)?;
    let is_held = links.iter().all(|link| hold_two(link));
    Ok(
        left.status == status
            && left.output.as_bytes() == first
            && again.status == 0
            && again.output.as_bytes() == second
            && is_held,
    )
}

/// Whether each receiver of a link holds two frames.
fn hold_two(link: &MemoryLink<MemoryKeeper>) -> bool {
    ["alpha", "beta"].iter().all(|name| match Name::read(*name) {
        Some(name) => link.count(&name) == Some(2),
        None => false,
    })
}

/// Each frame is sent and replied to: eight calls.
#[test]
fn each_send_and_reply_may_fail(rt: HostRuntime) -> Result<(), Fail> {
    for call in 1..=9u64 {
        let row = DRAINED.get((call - 1) as usize / 2).ok_or("no row")?;
        assert!(rt; is_drained(rt.alloc(), call, *row)?, "{call}");
    }
    Ok(())
}

/// A room with no entry.
fn new_room(rt: &impl Abort, alloc: Global) -> Room<MemoryKeeper>
    ensures { SomeBook ⟦<MemoryKeeper as Keeper>⟧.keeper result }
{
    match Room::open(alloc, MemoryKeeper::new(alloc), Uuid::nil(), &[]) {
        Ok(room) => room,
        Err(_) => panic!(rt; "no room"),
    }
}

/// How a connection with the requests of a day ends where one read, or one call of the sink, fails; and what it was answered.
fn served(
    rt: &impl Abort,
    alloc: Global,
    read: u64,
    write: u64,
) -> Result<(Ended, MemorySink), Memory> {
    let Ok(routes) = Routes::new(alloc) else {
        return Err(Memory);
    };
    let mut room = new_room(rt, alloc);
    let mut clock = MemoryClock::new(vec![in alloc; 1000]?);
    let mut source = source_of(alloc, DAY)?
        .in_pieces_of(50)
        .failing_at(number(alloc, read)?);
    let mut sink = MemorySink::new(alloc).failing_at(number(alloc, write)?);
    let ended = serve_plain(&routes, &mut room, &mut clock, &mut source, &mut sink);
    if ended == Ended::Memory {
        return Err(Memory);
    }
    Ok((ended, sink))
}

/// How many reads or calls of the sink a connection does without a fault; nothing where one that fails ends it otherwise.
fn calls_of(rt: &impl Abort, alloc: Global, writes: bool) -> Result<Option<u64>, Memory> {
    let cause = if writes {
        Ended::WriteFault
    } else {
        Ended::ReadFault
    };
    for call in 1..ALL {
        let (read, write) = if writes { (0, call) } else { (call, 0) };
        let (ended, sink) = served(rt, alloc, read, write)?;
        if ended == Ended::Closed && sink.passed() == DAY_ANSWERED {
            return Ok(Some(call - 1));
        }
        if ended != cause || !DAY_ANSWERED.starts_with(sink.as_bytes()) {
            return Ok(None);
        }
    }
    Ok(None)
}

/// Each read and each write of a connection.
#[test]
fn each_call_of_a_connection_may_fail(rt: HostRuntime) -> Result<(), Fail> {
    let alloc = rt.alloc();
    let reads = calls_of(&rt, alloc, false)?.ok_or("ended otherwise")?;
    let writes = calls_of(&rt, alloc, true)?.ok_or("ended otherwise")?;
    assert!(rt;
        reads > DAY.len() as u64 / 50 && writes >= 10,
        "{reads} {writes}"
    );
    Ok(())
}
