//! Disks.
use super::numbers;
use crate::{Access, Disk, Failed, FileDisk, Lock, MemoryDisk, NotOpened, Tear};
use std::fs::{self, File};
use std::process::Abort;
use std::rt::Files;
use std::test::Fail;

const FOLDER: &str = "news_io_disk";

/// Writes over and past the end, and reads back.
fn writes_and_reads<D: Disk>(rt: &impl Abort, disk: &mut D) -> Result<(), Failed> {
    assert_eq!(rt; disk.size()?, 0);
    disk.write_at(0, b"newsroom")?;
    disk.write_at(4, b"desk")?;
    disk.write_at(8, b"!")?;
    disk.sync()?;
    assert_eq!(rt; disk.size()?, 9);
    let mut back = [b'-'; 12];
    assert_eq!(rt; disk.read(2, &mut back)?, 7);
    assert_eq!(rt; back.as_slice(), b"wsdesk!-----".as_slice());
    assert_eq!(rt; disk.read(9, &mut back)?, 0);
    Ok(())
}

#[test]
fn a_disk_in_memory_is_written_and_read(rt: HostRuntime) -> Result<(), Fail> {
    let mut disk = MemoryDisk::new(rt.alloc());
    if writes_and_reads(&rt, &mut disk).is_err() {
        assert_eq!(rt; disk.fault_count(), 1, "refused growth counts");
        return Err(Fail::new("no memory"));
    }
    assert_eq!(rt; disk.as_bytes(), b"newsdesk!".as_slice());
    assert_eq!(rt; disk.call_count(), 8);
    Ok(())
}

#[test]
fn calls_of_a_disk_fail_by_their_numbers(rt: HostRuntime) -> Result<(), Fail> {
    let alloc = rt.alloc();
    let mut disk = MemoryDisk::holding(alloc, b"newsroom")?.failing_at(numbers(alloc, &[1, 3])?);
    let mut back = [0; 4];
    assert_eq!(rt; disk.write_at(0, b"x"), Err(Failed));
    assert_eq!(rt; disk.read(4, &mut back), Ok(4));
    assert_eq!(rt; back, *b"room");
    assert_eq!(rt; disk.sync(), Err(Failed));
    let mut disk = disk.stopped_after(1);
    assert_eq!(rt; disk.size(), Ok(8));
    assert_eq!(rt; disk.size(), Err(Failed));
    assert_eq!(rt; disk.read(0, &mut back), Err(Failed));
    assert_eq!(rt; disk.fault_count(), 2);
    assert_eq!(rt; disk.as_bytes(), b"newsroom".as_slice());
    Ok(())
}

/// Of `newsroom`, over which `desks!` was written from byte 4 on: how a crash tears that, and what it leaves.
const TORN: [(u64, u64, &[u8]); 7] = [
    (0, 0, b"newsroom"),
    (0, 8, b"news----"),
    (0, 9, b"news-----"),
    (5, 10, b"newsd-----"),
    (9, 10, b"newsdesks-"),
    (9, 9, b"newsdesks"),
    (20, 20, b"newsdesks!"),
];

#[test]
fn a_crash_tears_what_was_not_synced(rt: HostRuntime) -> Result<(), Fail> {
    let alloc = rt.alloc();
    let mut disk = MemoryDisk::holding(alloc, b"newsroom")?;
    assert_eq!(rt; disk.write_at(4, b"desks!"), Ok(()));
    for (landed, reach, left) in TORN {
        let tear = Tear {
            landed,
            reach,
            fill: b'-',
        };
        assert_eq!(rt;
            disk.after_crash(tear)?.as_slice(),
            left,
            "{landed} {reach}"
        );
    }
    assert_eq!(rt; disk.sync(), Ok(()));
    let none = Tear {
        landed: 0,
        reach: 0,
        fill: b'-',
    };
    assert_eq!(rt;
        disk.after_crash(none)?.as_slice(),
        b"newsdesks!".as_slice()
    );
    Ok(())
}

/// A disk over a file, if there is memory for it.
fn file_of<R: Files<File = File> + AllocGlobal + Clone + Drop>(
    rt: &R,
    path: &str,
    access: Access,
) -> Option<FileDisk<R>> {
    let path = String::from_str(rt.alloc(), path).ok()?;
    Some(FileDisk::new(rt.clone().ok()?, path, access))
}

/// A missing file counts as empty, and is made by the first write and read back: how many calls failed.
fn makes_a_file<R: Files<File = File> + AllocGlobal + Clone + Drop + Abort>(rt: &R) -> Option<u64> {
    let mut disk = file_of(rt, "news_io_disk/log", Access::Write)?;
    let early = disk.sync();
    let failed = writes_and_reads(rt, &mut disk).is_err();
    assert!(rt; early == Ok(()) && !failed && !disk.has_refused_write());
    let faults = disk.fault_count();
    drop(disk);
    Some(faults)
}

/// What a file that is only to be read answers: its size and a write, and whether it refused that.
fn reads_a_file<R: Files<File = File> + AllocGlobal + Clone + Drop>(
    rt: &R,
) -> Option<(Result<u64, Failed>, Result<(), Failed>, bool)> {
    let mut disk = file_of(rt, "news_io_disk/log", Access::Read)?;
    let answers = (
        disk.size(),
        disk.write_at(0, b"x"),
        disk.has_refused_write(),
    );
    drop(disk);
    Some(answers)
}

/// How many faults a write into a folder counts that is not there.
fn misses_a_folder<R: Files<File = File> + AllocGlobal + Clone + Drop>(rt: &R) -> Option<u64> {
    let mut disk = file_of(rt, "news_io_disk/none/log", Access::Write)?;
    let _ = disk.write_at(0, b"x");
    let faults = disk.fault_count();
    drop(disk);
    Some(faults)
}

#[test]
fn a_file_is_made_written_and_read(rt: HostRuntime) -> Result<(), Fail> {
    let _ = fs::remove_dir_all(&rt, FOLDER);
    fs::create_dir(&rt, FOLDER)?;
    assert_eq!(rt; makes_a_file(&rt), Some(0));
    assert!(rt; fs::read_to_string(&rt, "news_io_disk/log")?.as_str() == "newsdesk!");
    assert!(rt; reads_a_file(&rt) == Some((Ok(9), Err(Failed), true)));
    assert_eq!(rt; misses_a_folder(&rt), Some(1));
    fs::remove_dir_all(&rt, FOLDER)?;
    Ok(())
}

/// The folder of the file that is locked, and that file.
const LOCKS: &str = "news_io_locks";

const LOCKED: &str = "news_io_locks/log";

/// What taking a lock on the file comes to, which is given back again.
fn tried<R: Files<File = File> + AllocGlobal + Clone + Drop>(
    rt: &R,
    access: Access,
    lock: Lock,
) -> Option<Result<(), NotOpened>> {
    let mut disk = file_of(rt, LOCKED, access)?;
    let taken = disk.open(lock, false);
    drop(disk);
    Some(taken)
}

/// What this lock on the file comes to, and an exclusive and a shared one beside it.
fn beside<R: Files<File = File> + AllocGlobal + Clone + Drop>(
    rt: &R,
    held: Lock,
) -> Option<
    (
        Result<(), NotOpened>,
        Option<Result<(), NotOpened>>,
        Option<Result<(), NotOpened>>,
    ),
> {
    let mut disk = file_of(rt, LOCKED, Access::Make)?;
    let taken = disk.open(held, false);
    let exclusive = tried(rt, Access::Write, Lock::Exclusive);
    let shared = tried(rt, Access::Read, Lock::Shared);
    drop(disk);
    Some((taken, exclusive, shared))
}

#[test]
fn two_opens_of_a_file_exclude_each_other(rt: HostRuntime) -> Result<(), Fail> {
    let _ = fs::remove_dir_all(&rt, LOCKS);
    fs::create_dir(&rt, LOCKS)?;
    let missing = tried(&rt, Access::Write, Lock::Exclusive);
    assert!(rt; missing == Some(Err(NotOpened::Missing)) && !fs::exists(&rt, LOCKED)?);
    let (taken, held) = (Some(Ok(())), Some(Err(NotOpened::Held)));
    assert!(rt; beside(&rt, Lock::Exclusive) == Some((Ok(()), held, held)));
    assert!(rt; beside(&rt, Lock::Shared) == Some((Ok(()), held, taken)));
    assert!(rt; beside(&rt, Lock::Unlocked) == Some((Ok(()), taken, taken)));
    fs::remove_dir_all(&rt, LOCKS)?;
    Ok(())
}
