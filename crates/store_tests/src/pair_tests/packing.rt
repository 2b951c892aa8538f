//! Packing: the files that it makes, and the list after a stop at each device call.
use super::{HALT, LOG, SIDE, log_with, opened_from};
use news_io::{Keeper, MemoryDisk, Tear};
use news_pair::{PackFault, Pair};
use std::alloc::Global;
use std::test::Fail;

/// The framed record of the side's first entry.
const ADDED: [u8; 42] =
    *b"\0\0\0\x25\0\0\0\0\0\0\x03\xe8\x06\x05admin\0\0\0\0\0\0\0\x01\x0c\x05alpha\0\0\x01\x03all\0";

/// The framed record of its second entry.
const FLASHED: [u8; 74] =
    *b"\0\0\0\x45\0\0\0\0\0\0\x03\xe8\x06\x05admin\0\0\0\0\0\0\0\x02\x12\0\x03\0\0\0\x04fire\0\0\0\x04Fire\0\0\0\0\0\0\0\x02en\0\0\0\0\0\0\0\x06Smoke.\0\0\0\0";

/// What a crash leaves of the writes since the last sync.
const TEARS: [Tear; 7] = [
    // nothing, and all
    Tear {
        landed: 0,
        reach: 0,
        fill: 0,
    },
    Tear {
        landed: u64::MAX,
        reach: u64::MAX,
        fill: 0,
    },
    // other bytes
    Tear {
        landed: 0,
        reach: u64::MAX,
        fill: 1,
    },
    Tear {
        landed: 0,
        reach: u64::MAX,
        fill: 78,
    },
    // the first bytes of a base, of a header, of a record
    Tear {
        landed: 13,
        reach: 13,
        fill: 0,
    },
    Tear {
        landed: 33,
        reach: u64::MAX,
        fill: 255,
    },
    Tear {
        landed: 71,
        reach: 80,
        fill: 1,
    },
];

/// The log of both entries, with no side.
fn both(alloc: Global) -> Result<Vec<u8>, Fail> {
    let mut log = log_with(alloc, 0, &ADDED[..41])?;
    log.push(1)?;
    log.extend_from_slice(&FLASHED)?;
    Ok(log)
}

/// What packing the pair of these files gives.
fn packed_from(
    alloc: Global,
    log: &[u8],
    side: &[u8],
) -> Result<Result<(Pair<MemoryDisk>, u64), PackFault>, Fail> {
    let log = MemoryDisk::holding(alloc, log)?;
    let side = MemoryDisk::holding(alloc, side)?;
    match Pair::open(alloc, log, side) {
        Ok(opened) => Ok(opened.pair.pack(alloc).map_err(|(_, _, fault)| fault)),
        Err(_) => Err(Fail::from("no pair")),
    }
}

#[test]
fn the_side_takes_the_entries(rt: HostRuntime) -> Result<(), Fail> {
    let alloc = rt.alloc();
    match packed_from(alloc, &both(alloc)?, b"")? {
        Ok((pair, count)) => {
            assert_eq!(rt; count, 2);
            assert_eq!(rt; pair.size(), 181);
            let (log, side) = pair.into_disks();
            assert_eq!(rt;
                &log.as_bytes()[..log.as_bytes().len().min(65)],
                LOG.as_slice()
            );
            assert_eq!(rt; side.as_bytes(), SIDE.as_slice());
        }
        Err(fault) => assert!(rt; false, "not packed: {fault:?}"),
    }
    Ok(())
}

/// An entry at 999 behind one at 1000.
#[test]
fn tells_where_a_moment_falls(rt: HostRuntime) -> Result<(), Fail> {
    let alloc = rt.alloc();
    let mut log = log_with(alloc, 0, &HALT[..13])?;
    log.push(1)?;
    log.extend_from_slice(b"\0\0\0\x09\0\0\0\0\0\0\x03\xe7\x04\0")?;
    match packed_from(alloc, &log, b"")? {
        Ok(_) => assert!(rt; false, "packed"),
        Err(fault) => assert_eq!(rt;
            fault,
            PackFault::Damaged {
                at: 78,
                found: Some(1)
            }
        ),
    }
    Ok(())
}

/// The files that a run of calls left, and whether it came to its end.
#[derive(Drop)]
struct Left {
    log: MemoryDisk,
    side: MemoryDisk,
    ended: bool,
}

/// More calls than any run here makes.
const ALL: u64 = 100;

/// Opens the pair of these files, whose disks stop after so many calls.
fn open_stopped(alloc: Global, log: &[u8], side: &[u8], stops: (u64, u64)) -> Result<Left, Fail> {
    let log = MemoryDisk::holding(alloc, log)?.stopped_after(stops.0);
    let side = MemoryDisk::holding(alloc, side)?.stopped_after(stops.1);
    match Pair::open(alloc, log, side) {
        Ok(opened) => {
            let (log, side) = opened.pair.into_disks();
            Ok(Left {
                log,
                side,
                ended: true,
            })
        }
        Err((log, side, _)) => Ok(Left {
            log,
            side,
            ended: false,
        }),
    }
}

/// Opens it, and packs it.
fn pack_stopped(alloc: Global, log: &[u8], side: &[u8], stops: (u64, u64)) -> Result<Left, Fail> {
    let log = MemoryDisk::holding(alloc, log)?.stopped_after(stops.0);
    let side = MemoryDisk::holding(alloc, side)?.stopped_after(stops.1);
    let packed = match Pair::open(alloc, log, side) {
        Ok(opened) => opened
            .pair
            .pack(alloc)
            .map_err(|(log, side, _)| (log, side)),
        Err((log, side, _)) => Err((log, side)),
    };
    match packed {
        Ok((pair, _)) => {
            let (log, side) = pair.into_disks();
            Ok(Left {
                log,
                side,
                ended: true,
            })
        }
        Err((log, side)) => Ok(Left {
            log,
            side,
            ended: false,
        }),
    }
}

/// Whether these files open to these payloads.
fn opens_to(alloc: Global, log: &[u8], side: &[u8], payloads: &[&[u8]]) -> Result<bool, Fail> {
    let Ok(opened) = opened_from(alloc, log, side)? else {
        return Ok(false);
    };
    let records = opened.records.as_slice();
    let same = records.len() == payloads.len()
        && records
            .iter()
            .zip(payloads)
            .all(|(record, payload)| record.bytes.as_slice() == *payload);
    Ok(same)
}

/// Whether a crash now leaves one file: all that was written is synced.
fn is_synced(disk: &MemoryDisk) -> Result<bool, Fail> {
    let one = disk.after_crash(TEARS[2])?;
    let other = disk.after_crash(TEARS[3])?;
    Ok(one.as_slice() == other.as_slice())
}

/// How many of the tears may leave different files.
fn tears_of(left: &Left) -> Result<usize, Fail> {
    if is_synced(&left.log)? && is_synced(&left.side)? {
        return Ok(1);
    }
    Ok(TEARS.len())
}

/// Whether what a crash now leaves are these files, or opens to these payloads. Only one of the disks has writes that are not synced.
fn crash_keeps(
    alloc: Global,
    left: &Left,
    log: &[u8],
    side: &[u8],
    payloads: &[&[u8]],
) -> Result<bool, Fail> {
    for tear in TEARS.iter().take(tears_of(left)?) {
        let log_left = left.log.after_crash(*tear)?;
        let side_left = left.side.after_crash(*tear)?;
        let same = log_left.as_slice() == log && side_left.as_slice() == side;
        if !same && !opens_to(alloc, &log_left, &side_left, payloads)? {
            return Ok(false);
        }
    }
    Ok(true)
}

/// Whether these files open to these payloads, and so does what a crash after each call of that leaves.
fn opening_keeps(alloc: Global, log: &[u8], side: &[u8], payloads: &[&[u8]]) -> Result<bool, Fail> {
    if !opens_to(alloc, log, side, payloads)? {
        return Ok(false);
    }
    for calls in 0..ALL {
        let log_left = open_stopped(alloc, log, side, (calls, ALL))?;
        let side_left = open_stopped(alloc, log, side, (ALL, calls))?;
        if !crash_keeps(alloc, &log_left, log, side, payloads)?
            || !crash_keeps(alloc, &side_left, log, side, payloads)?
        {
            return Ok(false);
        }
        if log_left.ended && side_left.ended {
            return Ok(true);
        }
    }
    Ok(false)
}

/// Whether a crash after a run that was left so leaves these payloads; where all writes landed, also one in the opening that follows.
fn all_keep(alloc: Global, left: &Left, payloads: &[&[u8]]) -> Result<bool, Fail> {
    for (i, tear) in TEARS.iter().take(tears_of(left)?).enumerate() {
        let log = left.log.after_crash(*tear)?;
        let side = left.side.after_crash(*tear)?;
        let keeps = if i == 1 {
            opening_keeps(alloc, &log, &side, payloads)?
        } else {
            opens_to(alloc, &log, &side, payloads)?
        };
        if !keeps {
            return Ok(false);
        }
    }
    Ok(true)
}

/// Whether a crash after each call of one disk leaves these payloads, where packing these files makes so many calls of it or more.
fn packing_keeps(
    alloc: Global,
    files: (&[u8], &[u8]),
    payloads: &[&[u8]],
    on_side: bool,
    least: u64,
) -> Result<bool, Fail> {
    for calls in 0..ALL {
        let stops = if on_side { (ALL, calls) } else { (calls, ALL) };
        let left = pack_stopped(alloc, files.0, files.1, stops)?;
        if !all_keep(alloc, &left, payloads)? {
            return Ok(false);
        }
        if left.ended {
            return Ok(calls >= least);
        }
    }
    Ok(false)
}

/// A stop after each call of the log, torn in several ways. Emptying it makes four.
#[test]
fn each_stop_of_the_log_keeps_the_list(rt: HostRuntime) -> Result<(), Fail> {
    let alloc = rt.alloc();
    let payloads: [&[u8]; 2] = [&ADDED[4..41], &FLASHED[4..73]];
    let log = both(alloc)?;
    assert!(rt; packing_keeps(alloc, (&log, &SIDE), &payloads, false, 4)?);
    Ok(())
}

/// The same of a side. Making it makes six, or seven, and adding a segment four.
#[test]
fn each_stop_of_the_side_keeps_the_list(rt: HostRuntime) -> Result<(), Fail> {
    let alloc = rt.alloc();
    let payloads: [&[u8]; 2] = [&ADDED[4..41], &FLASHED[4..73]];
    let log = both(alloc)?;
    assert!(rt; packing_keeps(alloc, (&log, b"N"), &payloads, true, 10)?);
    Ok(())
}

/// A second time, behind one entry more.
#[test]
fn each_stop_of_a_second_packing_keeps_the_list(rt: HostRuntime) -> Result<(), Fail> {
    let alloc = rt.alloc();
    let payloads: [&[u8]; 3] = [&ADDED[4..41], &FLASHED[4..73], &HALT[4..13]];
    let log = log_with(alloc, 2, &HALT)?;
    assert!(rt; packing_keeps(alloc, (&log, &SIDE), &payloads, true, 4)?);
    Ok(())
}
