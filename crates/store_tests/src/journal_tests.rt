//! Logs on a disk in memory: their bytes, where they are damaged, and what a crash leaves of them.
use news_io::{AppendFault, Keeper, MemoryDisk};
use news_journal::{Header, Journal, OpenFault, Opened};
use news_types::Name;
use std::alloc::Global;
use std::test::Fail;
use uuid::Uuid;

/// The log of the store 6ba7b810-9dad-11d1-80b4-00c04fd430c8 without a record.
const EMPTY: [u8; 65] =
    *b"NEWSDESK\x02\x01\0\0\0\0\0\0\x6b\xa7\xb8\x10\x9d\xad\x11\xd1\x80\xb4\0\xc0\x4f\xd4\x30\xc8\0\0\0\0\0\0\0\0\0\0\0\0\0\0\0\0\0\0\0\0\0\0\0\0\0\0\0\0\0\0\0\0\0";

/// The most bytes of a log.
const LAST: u64 = 1 << 30;

/// The log of the receiver `alpha` without a record.
const ALPHA: [u8; 65] =
    *b"NEWSDESK\x02\x02\0\0\0\0\0\0\0\0\0\0\0\0\0\0\0\0\0\0\0\0\0\0alpha\0\0\0\0\0\0\0\0\0\0\0\0\0\0\0\0\0\0\0\0\0\0\0\0\0\0\0\0";

/// The device calls that opening a short log makes: a sync, and reads up to the end.
const OPENING: u64 = 4;

/// More bytes than a log of these tests has.
const LONG: usize = 1000;

const HI: [u8; 7] = [0, 0, 0, 2, b'h', b'i', 0];

const YOU: [u8; 8] = [0, 0, 0, 3, b'y', b'o', b'u', 0];

fn room() -> Header {
    Header::Room {
        store: Uuid::NAMESPACE_DNS,
    }
}

fn receiver(name: &str) -> Result<Header, Fail> {
    Ok(Header::Receiver {
        name: Name::read(name).ok_or("no name")?,
    })
}

/// A new log, and how it was made.
fn created(alloc: Global, header: &Header) -> Result<Journal<MemoryDisk>, Fail> {
    match Journal::create(MemoryDisk::new(alloc), header) {
        Ok(journal) => Ok(journal),
        Err(_) => Err(Fail::new("no memory")),
    }
}

/// Opens a log, which is to be one.
fn opened(alloc: Global, disk: MemoryDisk) -> Result<Journal<MemoryDisk>, Fail> {
    match Journal::open(alloc, disk) {
        Ok(opened) => Ok(opened.journal),
        Err(_) => Err(Fail::new("no memory")),
    }
}

/// What these bytes open to.
fn opened_from(alloc: Global, bytes: &[u8]) -> Result<Result<Opened<MemoryDisk>, OpenFault>, Fail> {
    let disk = MemoryDisk::holding(alloc, bytes)?;
    Ok(Journal::open(alloc, disk).map_err(|(_, fault)| fault))
}

/// The payloads that a log opens to, each with a space behind it; `none` where it is damaged.
fn text_of(alloc: Global, bytes: &[u8]) -> Result<Vec<u8>, Fail> {
    let mut text = Vec::new(alloc);
    match opened_from(alloc, bytes)? {
        Ok(opened) => {
            for record in opened.records.as_slice() {
                text.extend_from_slice(record.bytes.as_slice())?;
                text.push(b' ')?;
            }
        }
        Err(OpenFault::Damaged { .. }) => text.extend_from_slice(b"none")?,
        Err(_) => return Err(Fail::new("no memory")),
    }
    Ok(text)
}

/// Where a log is damaged, with the byte there.
fn damage_of(alloc: Global, bytes: &[u8]) -> Result<Option<(u64, Option<u8>)>, Fail> {
    match opened_from(alloc, bytes)? {
        Ok(_) => Ok(None),
        Err(OpenFault::Damaged { at, found }) => Ok(Some((at, found))),
        Err(_) => Err(Fail::new("no memory")),
    }
}

/// The bytes behind a call of which a crash left so many, with other bytes where they changed.
fn torn(alloc: Global, before: &[u8], after: &[u8], fill: u8) -> Result<Vec<u8>, Fail> {
    let mut image = Vec::new(alloc);
    for (place, byte) in after.iter().enumerate() {
        let is_old = before.get(place) == Some(byte);
        image.push(if is_old { *byte } else { fill })?;
    }
    Ok(image)
}

/// Whether what a crash may leave of a call opens to one of two texts: other bytes where it wrote, and another length.
fn are_allowed(
    alloc: Global,
    before: &[u8],
    after: &[u8],
    allowed: (&[u8], &[u8]),
) -> Result<bool, Fail> {
    let text = text_of(alloc, after)?;
    let mut is_allowed = text.as_slice() == allowed.0 || text.as_slice() == allowed.1;
    if before == after {
        return Ok(is_allowed);
    }
    for (fill, length) in [(0, LONG), (1, LONG), (255, LONG), (1, before.len())] {
        let mut image = torn(alloc, before, after, fill)?;
        image.truncate(length);
        let text = text_of(alloc, &image)?;
        is_allowed &= text.as_slice() == allowed.0 || text.as_slice() == allowed.1;
    }
    Ok(is_allowed)
}

#[test]
fn a_new_log_is_its_header_and_a_gate(rt: HostRuntime) -> Result<(), Fail> {
    let alloc = rt.alloc();
    let disk = created(alloc, &room())?.into_disk();
    assert_eq!(rt; disk.as_bytes(), EMPTY.as_slice());
    assert_eq!(rt; disk.call_count(), 6);
    let disk = created(alloc, &receiver("alpha")?)?.into_disk();
    assert_eq!(rt; disk.as_bytes(), ALPHA.as_slice());
    Ok(())
}

#[test]
fn a_record_stands_behind_its_gate(rt: HostRuntime) -> Result<(), Fail> {
    let alloc = rt.alloc();
    let mut journal = created(alloc, &room())?;
    assert_eq!(rt; journal.size(), 65);
    assert_eq!(rt;
        journal.append(&HI, 71),
        Err(AppendFault::Full {
            size: 65,
            length: 2
        })
    );
    if journal.append(&HI, 72).is_err() {
        return Err(Fail::new("no memory"));
    }
    assert_eq!(rt; journal.size(), 72);
    let disk = journal.into_disk();
    assert_eq!(rt; disk.call_count(), 10);
    assert_eq!(rt; disk.as_bytes().len(), 72);
    assert!(rt;
        disk.as_bytes().ends_with(
            b"\xc8\0\0\0\0\0\0\0\0\0\0\0\0\0\0\0\0\0\0\0\0\0\0\0\0\0\0\0\0\0\0\0\0\x01\0\0\0\x02hi\0"
        )
    );
    let opened = match Journal::open(alloc, disk) {
        Ok(opened) => opened,
        Err(_) => return Err(Fail::new("no memory")),
    };
    assert!(rt; opened.header == room());
    assert_eq!(rt; opened.records.as_slice().len(), 1);
    assert_eq!(rt; opened.records.as_slice()[0].at, 64);
    assert_eq!(rt;
        opened.records.as_slice()[0].bytes.as_slice(),
        b"hi".as_slice()
    );
    assert_eq!(rt; opened.journal.size(), 72);
    assert_eq!(rt; opened.journal.into_disk().call_count(), 10 + OPENING);
    Ok(())
}

/// Changed bytes of a log with one record: the place, the byte, and where this is damage; the byte there.
const CHANGED: [(usize, u8, u64, u8); 11] = [
    (0, b'M', 0, b'M'),
    (8, 3, 8, 3),
    (9, 3, 9, 3),
    (9, 2, 16, 0x6b),
    (32, 1, 32, 1),
    (63, b'a', 63, b'a'),
    (65, 1, 65, 1),
    (66, 0x40, 65, 0),
    (68, 0x1e, 65, 0),
    (68, 3, 65, 0),
    (68, 4, 65, 0),
];

/// The same of a receiver's log.
const CHANGED_NAME: [(usize, u8, u64, u8); 5] = [
    (16, 1, 16, 1),
    (32, 0, 32, 0),
    (33, b'A', 33, b'A'),
    (38, b'x', 38, b'x'),
    (9, 1, 32, b'a'),
];

/// Lengths to which a log with one record was cut, and where this is damage; the byte there.
const CUT: [(usize, u64, Option<u8>); 6] = [
    (0, 0, None),
    (8, 8, None),
    (64, 64, None),
    (65, 65, None),
    (66, 65, Some(0)),
    (71, 65, Some(0)),
];

/// A log with the record `hi`.
fn with_record(alloc: Global, header: &Header) -> Result<Vec<u8>, Fail> {
    let mut journal = created(alloc, header)?;
    if journal.append(&HI, LAST).is_err() {
        return Err(Fail::new("no memory"));
    }
    Ok(journal.into_disk().as_bytes().to_vec(alloc)?)
}

/// The log with another byte at a place.
fn changed(alloc: Global, log: &[u8], place: usize, byte: u8) -> Result<Vec<u8>, Fail> {
    let mut bytes = log.to_vec(alloc)?;
    if let Some(old) = bytes.get_mut(place) {
        *old = byte;
    }
    Ok(bytes)
}

#[test]
fn damage_is_told_with_its_place_and_byte(rt: HostRuntime) -> Result<(), Fail> {
    let alloc = rt.alloc();
    let log = with_record(alloc, &room())?;
    for (place, byte, at, found) in CHANGED {
        let damage = damage_of(alloc, &changed(alloc, &log, place, byte)?)?;
        assert_eq!(rt; damage, Some((at, Some(found))), "{place}");
    }
    for (length, at, found) in CUT {
        let damage = damage_of(alloc, &log[..length.min(log.len())])?;
        assert_eq!(rt; damage, Some((at, found)), "{length}");
    }
    // What stands behind a closed gate is no part of the log.
    assert_eq!(rt; damage_of(alloc, &changed(alloc, &log, 71, 7)?)?, None);
    let log = with_record(alloc, &receiver("alpha")?)?;
    for (place, byte, at, found) in CHANGED_NAME {
        let damage = damage_of(alloc, &changed(alloc, &log, place, byte)?)?;
        assert_eq!(rt; damage, Some((at, Some(found))), "{place}");
    }
    Ok(())
}

/// What a crash may leave after each device call of: create, append `hi`, append `you`.
const KEPT: [(&[u8], &[u8]); 15] = [
    (b"none", b"none"),
    (b"none", b"none"),
    (b"none", b"none"),
    (b"none", b"none"),
    (b"none", b"none"),
    (b"none", b""),
    (b"", b""),
    (b"", b""),
    (b"", b""),
    (b"", b"hi "),
    (b"hi ", b"hi "),
    (b"hi ", b"hi "),
    (b"hi ", b"hi "),
    (b"hi ", b"hi you "),
    (b"hi you ", b"hi you "),
];

/// The disk that stops after so many of these calls.
fn stopped(alloc: Global, calls: u64) -> MemoryDisk {
    match Journal::create(MemoryDisk::new(alloc).stopped_after(calls), &room()) {
        Err((disk, _)) => disk,
        Ok(mut journal) => {
            if journal.append(&HI, LAST).is_ok() {
                drop(journal.append(&YOU, LAST));
            }
            journal.into_disk()
        }
    }
}

#[test]
fn a_crash_leaves_what_was_kept(rt: HostRuntime) -> Result<(), Fail> {
    let alloc = rt.alloc();
    let mut before = Vec::new(alloc);
    for (calls, allowed) in KEPT.iter().enumerate() {
        let disk = stopped(alloc, calls as u64);
        assert!(rt;
            are_allowed(alloc, &before, disk.as_bytes(), *allowed)?,
            "{calls}"
        );
        before = disk.as_bytes().to_vec(alloc)?;
    }
    Ok(())
}

/// The same where the last call of `hi` fails, after each call behind those of opening.
const QUIETED: [(&[u8], &[u8]); 11] = [
    (b"", b""),
    (b"", b""),
    (b"", b""),
    (b"", b"hi "),
    (b"hi ", b"hi "),
    (b"", b"hi "),
    (b"", b""),
    (b"", b""),
    (b"", b""),
    (b"", b"you "),
    (b"you ", b"you "),
];

/// The disk of which the fourth call behind opening fails, and each behind so many.
fn stopped_behind_fault(alloc: Global, calls: u64) -> Result<MemoryDisk, Fail> {
    let mut failing = Vec::new(alloc);
    failing.push(OPENING + 4)?;
    for call in calls..10 {
        failing.push(OPENING + call + 1)?;
    }
    let disk = created(alloc, &room())?.into_disk().failing_at(failing);
    let mut journal = opened(alloc, disk)?;
    if journal.append(&HI, LAST).is_ok() {
        return Err(Fail::new("kept"));
    }
    drop(journal.append(&YOU, LAST));
    Ok(journal.into_disk())
}

#[test]
fn a_gate_that_failed_is_closed_first(rt: HostRuntime) -> Result<(), Fail> {
    let alloc = rt.alloc();
    let mut before = EMPTY.to_vec(alloc)?;
    for (calls, allowed) in QUIETED.iter().enumerate() {
        let disk = stopped_behind_fault(alloc, calls as u64)?;
        assert!(rt;
            are_allowed(alloc, &before, disk.as_bytes(), *allowed)?,
            "{calls}"
        );
        before = disk.as_bytes().to_vec(alloc)?;
    }
    Ok(())
}

/// A log whose record at a place has this payload's length, and its bytes are zero.
fn add_zeros(log: &mut Vec<u8>, length: u32) -> Result<(), Fail> {
    log.pop();
    log.push(1)?;
    log.extend_from_slice(&length.to_be_bytes())?;
    let size = log.len().saturating_add(length as usize + 1);
    log.resize(size, 0)?;
    Ok(())
}

#[test]
fn records_are_not_read_one_by_one(rt: HostRuntime) -> Result<(), Fail> {
    let alloc = rt.alloc();
    let mut log = EMPTY.to_vec(alloc)?;
    for length in 0..300 {
        add_zeros(&mut log, length)?;
    }
    add_zeros(&mut log, 4194304)?;
    let opened = match Journal::open(alloc, MemoryDisk::holding(alloc, &log)?) {
        Ok(opened) => opened,
        Err(_) => return Err(Fail::new("no memory")),
    };
    assert_eq!(rt; opened.records.as_slice().len(), 301);
    assert_eq!(rt; opened.records.as_slice()[300].at, 46414);
    assert_eq!(rt;
        opened.records.as_slice()[300].bytes.as_slice().len(),
        4194304
    );
    assert_eq!(rt; opened.journal.size(), 4240724);
    assert!(rt; opened.journal.into_disk().call_count() < 10);
    log.pop();
    assert_eq!(rt; damage_of(alloc, &log)?, Some((46415, Some(0))));
    Ok(())
}

#[test]
fn a_header_is_read_whatever_stands_behind_it(rt: HostRuntime) -> Result<(), Fail> {
    let alloc = rt.alloc();
    let mut whole = MemoryDisk::holding(alloc, &ALPHA[..64])?;
    assert!(rt; Header::read_from(&mut whole) == Ok(Some(receiver("alpha")?)));
    assert_eq!(rt; damage_of(alloc, &ALPHA[..64])?, Some((64, None)));
    let mut cut = MemoryDisk::holding(alloc, &ALPHA[..63])?;
    assert!(rt; Header::read_from(&mut cut) == Ok(None));
    // A room of the first edition, with two entries before its first record.
    let early = changed(alloc, &changed(alloc, &EMPTY, 8, 1)?, 15, 2)?;
    assert_eq!(rt; damage_of(alloc, &early)?, None);
    let mut early = MemoryDisk::holding(alloc, &early)?;
    assert!(rt; Header::read_from(&mut early) == Ok(Some(room())));
    Ok(())
}
