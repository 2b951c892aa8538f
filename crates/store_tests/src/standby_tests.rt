//! A standby over a keeper in memory and over a log: the first two records of a store are shipped to it, each answer has its
//! reply, and a stop after each device call leaves what was said to be kept. What is expected is counted by hand.
ghost use Rattle.std.specs.Prelude.{◌≡◌, ◌≤◌, ◌<◌, ◌^◌, All, IfOk, length, take};
ghost use Rattle.news_io.specs.Faults.{Counts};
ghost use Rattle.news_io.specs.Link.{IsReply};
ghost use Rattle.room_standby.specs.Holds.{Followed, Holds};
ghost use Rattle.room_standby.specs.Ships.{HasLine};

use news_io::{Failed, Faults, Keeper, Link, MemoryDisk, MemoryKeeper, Record};
use news_journal::{Header, Journal};
use news_types::{Bytes, Name, Names};
use room_standby::{Ship, Shipped, Standby, ship};
use std::alloc::Global;
use std::process::Abort;
use std::test::Fail;
use uuid::Uuid;

/// The subscriber `alpha` is added at 1000, as the first request of `admin`: 37 bytes.
const ADDED: &[u8] =
    b"\0\0\0\0\0\0\x03\xe8\x06\x05admin\0\0\0\0\0\0\0\x01\x0c\x05alpha\0\0\x01\x03all";

/// A story is flashed at 1000, as the second request of `admin`: 69 bytes.
const FLASHED: &[u8] =
    b"\0\0\0\0\0\0\x03\xe8\x06\x05admin\0\0\0\0\0\0\0\x02\x12\0\x03\0\0\0\x04fire\0\0\0\x04Fire\0\0\0\0\0\0\0\x02en\0\0\0\0\0\0\0\x06Smoke.\0\0\0";

/// The record line of the first.
const FIRST_LINE: &[u8] =
    b"RECORD 1 37\n\0\0\0\0\0\0\x03\xe8\x06\x05admin\0\0\0\0\0\0\0\x01\x0c\x05alpha\0\0\x01\x03all";

/// The record line of the second.
const SECOND_LINE: &[u8] =
    b"RECORD 2 69\n\0\0\0\0\0\0\x03\xe8\x06\x05admin\0\0\0\0\0\0\0\x02\x12\0\x03\0\0\0\x04fire\0\0\0\x04Fire\0\0\0\0\0\0\0\x02en\0\0\0\0\0\0\0\x06Smoke.\0\0\0";

/// What passes as both are shipped to a standby that has none, and as they are shipped once more.
const PASSED: &[u8] =
    b"RECORD 1 37\n\0\0\0\0\0\0\x03\xe8\x06\x05admin\0\0\0\0\0\0\0\x01\x0c\x05alpha\0\0\x01\x03allKEPT 1\nRECORD 2 69\n\0\0\0\0\0\0\x03\xe8\x06\x05admin\0\0\0\0\0\0\0\x02\x12\0\x03\0\0\0\x04fire\0\0\0\x04Fire\0\0\0\0\0\0\0\x02en\0\0\0\0\0\0\0\x06Smoke.\0\0\0KEPT 2\nRECORD 1 37\n\0\0\0\0\0\0\x03\xe8\x06\x05admin\0\0\0\0\0\0\0\x01\x0c\x05alpha\0\0\x01\x03allKEPT 2\n";

/// A standby with no record, over a keeper.
fn standby_over(rt: &impl Abort, alloc: Global, keeper: MemoryKeeper) -> Standby<MemoryKeeper>
    ensures { (b : Followed) × Holds ⟦<MemoryKeeper as Keeper>⟧.keeper result b }
{
    match Standby::open(alloc, keeper, &[]) {
        Ok(standby) => standby,
        Err(_) => panic!(rt; "no standby"),
    }
}

/// What a standby answers to a line. It stands for a list as before.
fn answer(standby: &mut Standby<MemoryKeeper>, line: &[u8]) -> Shipped
    requires { (b : Followed) × Holds ⟦<MemoryKeeper as Keeper>⟧.keeper standby.old b }
    ensures { (b : Followed) × Holds ⟦<MemoryKeeper as Keeper>⟧.keeper standby.new b }
{
    standby.take(line)
}

/// Lines 1, 1, 3, what is no line, and a second record that is no entry; and a first one past the limit.
#[test]
fn answers_by_number(rt: HostRuntime) -> Result<(), Fail> {
    let alloc = rt.alloc();
    let mut standby = standby_over(&rt, alloc, MemoryKeeper::new(alloc));
    let mut full = standby_over(&rt, alloc, MemoryKeeper::starting_at(alloc, 1073741783));
    let answers = [
        standby.take(FIRST_LINE),
        standby.take(FIRST_LINE),
        standby.take(b"RECORD 3 2\nhi"),
        standby.take(b"RECORD 01"),
        standby.take(b"RECORD 2 2\nhi"),
        full.take(FIRST_LINE),
    ];
    assert_eq!(rt;
        answers,
        [
            Shipped::Accepted { n: 1 },
            Shipped::Known { count: 1 },
            Shipped::Ahead { count: 1 },
            Shipped::BadRecord { at: 7 },
            Shipped::NoEntry { at: 0 },
            Shipped::Full {
                size: 1073741783,
                length: 37
            },
        ]
    );
    Ok(())
}

/// A link to one standby, with the bytes that passed over it. It tells nothing.
#[derive(Drop)]
struct StandbyLink {
    names: Names,
    standby: Standby<MemoryKeeper>,
    passed: Vec<u8>,
    faults: Faults,
}

/// Notes bytes that pass, or fails for want of memory.
fn note(passed: &mut Vec<u8>, bytes: &[u8], faults: &mut Faults) -> Result<(), Failed>
    ensures { Counts faults.old faults.new result }
{
    match passed.extend_from_slice(bytes) {
        Ok(()) => Ok(()),
        Err(_) => Err(faults.fail()),
    }
}

/// Puts the first line of a reply into a piece, if it fits, and gives its length.
fn put_line(reply: &[u8], into: &mut [u8; 128]) -> usize
    ensures within { result ≤ 128 }
    ensures reply { IsReply (take result into.new) }
{
    let Some(at) = reply.iter().position(|byte| *byte == b'\n') else {
        return 0;
    };
    if at >= 128 {
        return 0;
    }
    into[..at + 1].copy_from_slice(&reply[..at + 1]);
    at + 1
}

impl Link for StandbyLink {
    ghost use Rattle.std.specs.Prelude.{[]};

    ghost link = { record { faults = λ l. l.faults; serves = λ l. l.names; tells = λ l. ⊥; sent = λ l. []; said = λ l. []; step = λ old new p. ⊥ } };

    fn names(&self) -> &[Name] {
        self.names.as_slice()
    }

    fn send(&mut self, _subscriber: &Name, frame: &[u8]) -> Result<(), Failed> {
        let _ = self.standby.take(frame);
        note(&mut self.passed, frame, &mut self.faults)
    }

    fn receipt(&mut self, _subscriber: &Name, into: &mut [u8; 128]) -> Result<usize, Failed> {
        let reply = self.standby.kept();
        note(&mut self.passed, reply.as_slice(), &mut self.faults)?;
        Ok(put_line(reply.as_slice(), into))
    }
}

/// The record of a payload, at this place of a log.
fn record(alloc: Global, at: u64, payload: &[u8]) -> Result<Record, Fail>
    requires { (1 ≤ length payload.now) × (length payload.now ≤ 4194304) }
    ensures { IfOk result HasLine }
{
    match Bytes::copy_of(alloc, payload) {
        Ok(bytes) => Ok(Record {
            at,
            side: false,
            bytes,
        }),
        Err(_) => Err(Fail::new("no memory")),
    }
}

/// Ships the records, and tells how many the standby is then said to have, if it is said to have all.
fn level_of(alloc: Global, records: &[Record], name: &Name, link: &mut StandbyLink) -> Option<u64>
    requires sizes { All HasLine records.now }
    requires few { length records.now < 2 ^ 48 }
{
    if !name.is_among(link.names()) {
        return None;
    }
    match ship(alloc, records, name, link) {
        Ship::Level { count } => Some(count),
        Ship::LinkFault { .. } | Ship::NoKept { .. } | Ship::Memory => None,
    }
}

/// Two records are shipped one after the other; once more, the first alone is sent.
#[test]
fn ships_until_all_are_kept(rt: HostRuntime) -> Result<(), Fail> {
    let alloc = rt.alloc();
    let name = Name::read("second").ok_or("no name")?;
    let mut names = Vec::new(alloc);
    names.push(name)?;
    let mut link = StandbyLink {
        names: Names::of(names),
        standby: standby_over(&rt, alloc, MemoryKeeper::new(alloc)),
        passed: Vec::new(alloc),
        faults: Faults::none(),
    };
    let records = [record(alloc, 64, ADDED)?, record(alloc, 106, FLASHED)?];
    let first = level_of(alloc, &records, &name, &mut link);
    let second = level_of(alloc, &records, &name, &mut link);
    assert_eq!(rt; (first, second), (Some(2), Some(2)));
    assert_eq!(rt; link.passed.as_slice(), PASSED);
    Ok(())
}

/// A standby that took both records is a room with both.
#[test]
fn is_promoted(rt: HostRuntime) -> Result<(), Fail> {
    let mut standby = standby_over(&rt, rt.alloc(), MemoryKeeper::new(rt.alloc()));
    let answers = [
        answer(&mut standby, FIRST_LINE),
        answer(&mut standby, SECOND_LINE),
    ];
    assert_eq!(rt;
        answers,
        [Shipped::Accepted { n: 1 }, Shipped::Accepted { n: 2 }]
    );
    match standby.promote(Uuid::nil()) {
        Ok(room) => assert_eq!(rt; room.into_keeper().records().len(), 2),
        Err(_) => return Err(Fail::new("not promoted")),
    }
    Ok(())
}

/// How many records a standby has that is opened from a log with these bytes.
fn reopened(alloc: Global, log: &[u8]) -> Result<u64, Fail> {
    let Ok(opened) = Journal::open(alloc, MemoryDisk::holding(alloc, log)?) else {
        return Err(Fail::new("no log"));
    };
    match Standby::open(alloc, opened.journal, opened.records.as_slice()) {
        Ok(standby) => Ok(standby.count()),
        Err(_) => Err(Fail::new("not opened")),
    }
}

/// What a first record is answered by a standby whose disk stops after so many of the device calls, how many records it
/// then says that are kept, and how many it has as it is opened again.
fn stopped_after(alloc: Global, calls: u64) -> Result<(Shipped, u64, u64), Fail> {
    let disk = MemoryDisk::new(alloc).stopped_after(CREATING.saturating_add(calls));
    let header = Header::Room { store: Uuid::nil() };
    let Ok(journal) = Journal::create(disk, &header) else {
        return Err(Fail::new("no log"));
    };
    let Ok(mut standby) = Standby::open(alloc, journal, &[]) else {
        return Err(Fail::new("not opened"));
    };
    let answer = standby.take(FIRST_LINE);
    let kept = standby.count();
    let disk = standby.into_keeper().into_disk();
    Ok((answer, kept, reopened(alloc, disk.as_bytes())?))
}

/// The device calls that making a log takes.
const CREATING: u64 = 6;

/// Writing and syncing the record, opening its gate, and syncing that: it is kept, and said to be, behind the last alone.
#[test]
fn stops_within_one_take(rt: HostRuntime) -> Result<(), Fail> {
    let alloc = rt.alloc();
    let mut left = [(Shipped::Memory, 0, 0); 5];
    for (calls, here) in left.iter_mut().enumerate() {
        *here = stopped_after(alloc, calls as u64)?;
    }
    assert_eq!(rt;
        left,
        [
            (Shipped::Fault, 0, 0),
            (Shipped::Fault, 0, 0),
            (Shipped::Fault, 0, 0),
            (Shipped::Fault, 0, 1),
            (Shipped::Accepted { n: 1 }, 1, 1),
        ]
    );
    Ok(())
}
