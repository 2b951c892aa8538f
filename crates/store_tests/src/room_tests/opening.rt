//! Records that open to a room, and records that do not: places counted by hand.
ghost use Rattle.std.specs.Prelude.{◌≡◌, ◌<◌, length, All, IfOk};

use super::{ADDED, FLASHED};
use news_io::{MemoryKeeper, Record};
use news_room::{Room, RoomFault};
use news_types::Bytes;
use std::alloc::Global;
use std::test::Fail;
use uuid::Uuid;

/// `ADDED` with an act that there is none of.
const NO_ACT: &[u8] =
    b"\0\0\0\0\0\0\x03\xe8\x09\x05admin\0\0\0\0\0\0\0\x01\x0c\x05alpha\0\0\x01\x03all";

fn record(alloc: Global, side: bool, at: u64, payload: &[u8]) -> Result<Record, Fail>
    ensures { IfOk result (λ r. r.at ≡ at) }
{
    match Bytes::copy_of(alloc, payload) {
        Ok(bytes) => Ok(Record { at, side, bytes }),
        Err(_) => Err(Fail::new("no memory")),
    }
}

/// How many entries a room over these records has, or what is wrong with them.
fn opens_to(alloc: Global, records: &[Record]) -> Result<Result<u64, RoomFault>, Fail>
    requires few { length records.now < 2147483648 }
    requires places { All (λ r. r.at < 4294967296) records.now }
{
    match Room::open(alloc, MemoryKeeper::new(alloc), Uuid::nil(), records) {
        Ok(room) => Ok(Ok(room.front())),
        Err((_, RoomFault::Memory)) => Err(Fail::new("no memory")),
        Err((_, fault)) => Ok(Err(fault)),
    }
}

/// The same for two records, of which the first has the length of `ADDED`.
fn both_open_to(
    alloc: Global,
    first: &[u8],
    second: &[u8],
) -> Result<Result<u64, RoomFault>, Fail> {
    let records = [
        record(alloc, false, 64, first)?,
        record(alloc, false, 106, second)?,
    ];
    opens_to(alloc, &records)
}

/// The same where the first record is of the side.
fn side_and_log_open_to(
    alloc: Global,
    first: &[u8],
    second: &[u8],
) -> Result<Result<u64, RoomFault>, Fail> {
    let records = [
        record(alloc, true, 64, first)?,
        record(alloc, false, 64, second)?,
    ];
    opens_to(alloc, &records)
}

fn damaged(at: u64, found: Option<u8>) -> Result<u64, RoomFault> {
    Err(RoomFault::Damaged { at, found })
}

fn damaged_side(at: u64, found: Option<u8>) -> Result<u64, RoomFault> {
    Err(RoomFault::DamagedSide { at, found })
}

/// The first record that is no entry, or whose entry may not follow, is where the records are damaged.
#[test]
fn opens_or_tells_the_damage(rt: HostRuntime) -> Result<(), Fail> {
    let alloc = rt.alloc();
    assert_eq!(rt; opens_to(alloc, &[])?, Ok(0));
    let rows: [(&[u8], &[u8], Result<u64, RoomFault>); 5] = [
        (ADDED, FLASHED, Ok(2)),
        (NO_ACT, FLASHED, damaged(77, Some(9))),
        (&ADDED[..36], FLASHED, damaged(105, None)),
        (ADDED, ADDED, damaged(106, Some(1))),
        (FLASHED, ADDED, damaged(64, Some(1))),
    ];
    for (first, second, want) in rows {
        let opened = both_open_to(alloc, first, second)?;
        assert_eq!(rt; opened, want, "at {want:?}");
    }
    Ok(())
}

/// Damage is told of the file that the record is of.
#[test]
fn tells_which_file_is_damaged(rt: HostRuntime) -> Result<(), Fail> {
    let alloc = rt.alloc();
    let rows: [(&[u8], &[u8], Result<u64, RoomFault>); 4] = [
        (ADDED, FLASHED, Ok(2)),
        (ADDED, ADDED, damaged(64, Some(1))),
        (FLASHED, ADDED, damaged_side(64, Some(1))),
        (NO_ACT, FLASHED, damaged_side(77, Some(9))),
    ];
    for (first, second, want) in rows {
        let opened = side_and_log_open_to(alloc, first, second)?;
        assert_eq!(rt; opened, want, "at {want:?}");
    }
    Ok(())
}
