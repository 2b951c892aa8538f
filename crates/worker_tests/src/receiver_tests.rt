//! `receive` over disks that fail, and the receivers that logs open to. What a run does without a fault is in the sessions at a desk.
use news_io::{MemoryDisk, MemorySink, MemorySource};
use news_types::Name;
use receiver_files::{Refusal, open_receiver, opened_law, receive_frames};
use std::alloc::Global;
use std::test::Fail;

/// The header of the receiver `alpha`, as a new log is given it.
const ALPHA: &[u8] =
    b"NEWSDESK\x02\x02\0\0\0\0\0\0\0\0\0\0\0\0\0\0\0\0\0\0\0\0\0\0alpha\0\0\0\0\0\0\0\0\0\0\0\0\0\0\0\0\0\0\0\0\0\0\0\0\0\0\0";

/// The header of the receiver `beta`, of the first edition.
const BETA: &[u8] =
    b"NEWSDESK\x01\x02\0\0\0\0\0\0\0\0\0\0\0\0\0\0\0\0\0\0\0\0\0\0beta\0\0\0\0\0\0\0\0\0\0\0\0\0\0\0\0\0\0\0\0\0\0\0\0\0\0\0\0";

/// The record of frame 1: its gate, its length and 18 bytes.
const FIRST: &[u8] = b"\x01\0\0\0\x12FRAME alpha 1 2\nhi";

/// The record of frame 2: its gate, its length and 16 bytes.
const SECOND: &[u8] = b"\x01\0\0\0\x10FRAME alpha 2 0\n";

/// The gate behind the last record.
const CLOSED: &[u8] = b"\0";

/// What a run left.
#[derive(Drop)]
struct Left {
    status: u8,
    output: MemorySink,
}

/// A disk with these parts, one behind the other.
fn disk_of(alloc: Global, parts: &[&[u8]]) -> Result<MemoryDisk, Fail> {
    let mut bytes = Vec::new(alloc);
    for part in parts {
        bytes.extend_from_slice(*part)?;
    }
    Ok(MemoryDisk::holding(alloc, &bytes)?)
}

/// The run of `alpha` over this input.
fn received(alloc: Global, log: MemoryDisk, bytes: &[u8]) -> Result<Left, Fail> {
    let mut copy = Vec::new(alloc);
    copy.extend_from_slice(bytes)?;
    let mut input = MemorySource::new(copy);
    let mut output = MemorySink::new(alloc);
    let name = Name::read("alpha").ok_or("no name")?;
    let (status, _) = receive_frames(alloc, &mut input, &mut output, log, name);
    if status == 9 {
        return Err(Fail::new("no memory"));
    }
    Ok(Left { status, output })
}

/// A disk that fails at its first call, and at the first write of a log in the making.
#[test]
fn disks_that_fail(rt: HostRuntime) -> Result<(), Fail> {
    for call in 1..=2u64 {
        let mut calls = Vec::new(rt.alloc());
        calls.push(call)?;
        let log = MemoryDisk::new(rt.alloc()).failing_at(calls);
        let left = received(rt.alloc(), log, b"FRAME alpha 1 0\n")?;
        assert_eq!(rt; left.status, 6);
        assert_eq!(rt; left.output.passed(), b"{\"status\":6}\n".as_slice());
    }
    Ok(())
}

/// The receiver of a log knows how many frames it holds, and another's is none.
#[test]
fn receivers_of_logs(rt: HostRuntime) -> Result<(), Fail> {
    opened_law();
    let name = Name::read("alpha").ok_or("no name")?;
    let log = disk_of(rt.alloc(), &[ALPHA, FIRST, SECOND, CLOSED])?;
    match open_receiver(rt.alloc(), log, name) {
        Ok(receiver) => assert_eq!(rt; receiver.count(), 2),
        Err((_, refusal)) => {
            assert_eq!(rt; refusal, Refusal::Memory);
            return Err(Fail::new("no memory"));
        }
    }
    let other = disk_of(rt.alloc(), &[BETA, CLOSED])?;
    if let Err((_, refusal)) = open_receiver(rt.alloc(), other, name) {
        assert_eq!(rt; refusal, Refusal::WrongStore);
        return Ok(());
    }
    Err(Fail::new("another's log was opened"))
}
