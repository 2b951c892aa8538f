//! Pairs of files in memory: the list that both hold, the base that opening puts right, and where they are no pair.
mod packing;

use news_io::{Keeper, MemoryDisk};
use news_journal::Header;
use news_pair::{OpenedPair, Pair, PairFault};
use std::alloc::Global;
use std::test::Fail;
use uuid::Uuid;

/// The log of the store 6ba7b810-9dad-11d1-80b4-00c04fd430c8 without a record, behind two entries.
const LOG: [u8; 65] =
    *b"NEWSDESK\x02\x01\0\0\0\0\0\x02\x6b\xa7\xb8\x10\x9d\xad\x11\xd1\x80\xb4\0\xc0\x4f\xd4\x30\xc8\0\0\0\0\0\0\0\0\0\0\0\0\0\0\0\0\0\0\0\0\0\0\0\0\0\0\0\0\0\0\0\0\0";

/// Its side with one segment: a subscriber is added and a story flashed, both at 1000.
const SIDE: [u8; 185] =
    *b"NEWSDESK\x01\x03\0\0\0\0\0\0\x6b\xa7\xb8\x10\x9d\xad\x11\xd1\x80\xb4\0\xc0\x4f\xd4\x30\xc8\0\0\0\0\0\0\0\0\0\0\0\0\0\0\0\0\0\0\0\0\0\0\0\0\0\0\0\0\0\0\0\0\x01\0\0\0\x73\0\0\0\0\0\0\0\0\0\0\0\x02\0\0\xe8\x07\x06\0\0\0\x1c\x05admin\0\0\0\0\0\0\0\x01\x0c\x05alpha\0\0\x01\x03all\0\x06\0\0\0\x3c\x05admin\0\0\0\0\0\0\0\x02\x12\0\x03\0\0\0\x04fire\0\0\0\x04Fire\0\0\0\0\0\0\0\x02en\0\0\0\0\0\0\0\x06Smoke.\0\0\0\0";

/// The framed record of a halt at 1000.
const HALT: [u8; 14] = *b"\0\0\0\x09\0\0\0\0\0\0\x03\xe8\x04\0";

/// The most bytes in use.
const LAST: u64 = 1 << 30;

/// What these files open to.
fn opened_from(
    alloc: Global,
    log: &[u8],
    side: &[u8],
) -> Result<Result<OpenedPair<MemoryDisk>, PairFault>, Fail> {
    let log = MemoryDisk::holding(alloc, log)?;
    let side = MemoryDisk::holding(alloc, side)?;
    Ok(Pair::open(alloc, log, side).map_err(|(_, _, fault)| fault))
}

/// These bytes with another byte at a place.
fn with_byte(alloc: Global, bytes: &[u8], place: usize, byte: u8) -> Result<Vec<u8>, Fail> {
    let mut changed = Vec::from_slice(alloc, bytes)?;
    if let Some(old) = changed.get_mut(place) {
        *old = byte;
    }
    Ok(changed)
}

/// The log with this base and this framed record.
fn log_with(alloc: Global, base: u8, framed: &[u8]) -> Result<Vec<u8>, Fail> {
    let mut log = with_byte(alloc, &LOG[..64], 15, base)?;
    log.push(1)?;
    log.extend_from_slice(framed)?;
    Ok(log)
}

#[test]
fn a_side_holds_the_first_entries(rt: HostRuntime) -> Result<(), Fail> {
    let alloc = rt.alloc();
    match opened_from(alloc, &LOG, &SIDE)? {
        Ok(opened) => {
            assert_eq!(rt; opened.records.as_slice().len(), 2);
            // In one log the two records would take 42 and 74 bytes.
            assert_eq!(rt; opened.pair.size(), 181);
            let (log, side) = opened.pair.into_disks();
            assert_eq!(rt; log.as_bytes(), LOG.as_slice());
            assert_eq!(rt; side.as_bytes(), SIDE.as_slice());
        }
        Err(fault) => assert!(rt; false, "no pair: {fault:?}"),
    }
    Ok(())
}

#[test]
fn the_log_goes_on(rt: HostRuntime) -> Result<(), Fail> {
    let alloc = rt.alloc();
    match opened_from(alloc, &LOG, &SIDE)? {
        Ok(mut opened) => {
            assert_eq!(rt; opened.pair.append(&HALT, LAST), Ok(()));
            let (log, side) = opened.pair.into_disks();
            assert_eq!(rt; log.as_bytes(), log_with(alloc, 2, &HALT)?.as_slice());
            assert_eq!(rt; side.as_bytes(), SIDE.as_slice());
            match opened_from(alloc, log.as_bytes(), side.as_bytes())? {
                Ok(again) => assert_eq!(rt; again.records.as_slice().len(), 3),
                Err(fault) => assert!(rt; false, "no pair: {fault:?}"),
            }
        }
        Err(fault) => assert!(rt; false, "no pair: {fault:?}"),
    }
    Ok(())
}

#[test]
fn the_base_is_put_right(rt: HostRuntime) -> Result<(), Fail> {
    let alloc = rt.alloc();
    let log = with_byte(alloc, &LOG, 12, 7)?;
    match opened_from(alloc, &log, &SIDE)? {
        Ok(opened) => {
            let (log, _) = opened.pair.into_disks();
            assert_eq!(rt; log.as_bytes(), LOG.as_slice());
        }
        Err(fault) => assert!(rt; false, "no pair: {fault:?}"),
    }
    Ok(())
}

#[test]
fn a_new_pair_has_no_entry(rt: HostRuntime) -> Result<(), Fail> {
    let alloc = rt.alloc();
    let header = Header::Room {
        store: Uuid::NAMESPACE_DNS,
    };
    match Pair::create(MemoryDisk::new(alloc), MemoryDisk::new(alloc), &header) {
        Ok(pair) => {
            assert_eq!(rt; pair.size(), 65);
            let (log, side) = pair.into_disks();
            assert_eq!(rt; log.as_bytes(), with_byte(alloc, &LOG, 15, 0)?.as_slice());
            assert_eq!(rt; side.as_bytes().len(), 0);
        }
        Err((_log, _side, fault)) => assert!(rt; false, "no pair: {fault:?}"),
    }
    Ok(())
}

/// The side of another kind. Other rows of damage are in the sessions at a desk.
#[test]
fn tells_where_files_are_no_pair(rt: HostRuntime) -> Result<(), Fail> {
    let alloc = rt.alloc();
    let side = with_byte(alloc, &SIDE, 9, 1)?;
    match opened_from(alloc, &LOG, &side)? {
        Ok(_) => assert!(rt; false, "a pair"),
        Err(fault) => assert_eq!(rt;
            fault,
            PairFault::DamagedSide {
                at: 9,
                found: Some(1)
            }
        ),
    }
    Ok(())
}
