//! Commands whose input, output or files fail, and a batch in pieces. What they do without a fault is in the sessions at a desk.

use crate::commands::{Left, NEW, done, done_at, done_with, number, source_of};
use news_io::{MemoryClock, MemoryDisk, MemorySink, UnreachableLink};
use news_types::Memory;
use std::alloc::Global;
use std::test::Fail;

/// The log with the record of `SUBSCRIBER` at 1000.
const ONE: &[u8] =
    b"NEWSDESK\x02\x01\0\0\0\0\0\0\x6b\xa7\xb8\x10\x9d\xad\x11\xd1\x80\xb4\0\xc0\x4f\xd4\x30\xc8\0\0\0\0\0\0\0\0\0\0\0\0\0\0\0\0\0\0\0\0\0\0\0\0\0\0\0\0\0\0\0\0\x01\0\0\0\x25\0\0\0\0\0\0\x03\xe8\x06\x05admin\0\0\0\0\0\0\0\x01\x0c\x05alpha\0\0\x01\x03all\0";

/// The log with the records of both lines at 1000.
const TWO: &[u8] =
    b"NEWSDESK\x02\x01\0\0\0\0\0\0\x6b\xa7\xb8\x10\x9d\xad\x11\xd1\x80\xb4\0\xc0\x4f\xd4\x30\xc8\0\0\0\0\0\0\0\0\0\0\0\0\0\0\0\0\0\0\0\0\0\0\0\0\0\0\0\0\0\0\0\0\x01\0\0\0\x25\0\0\0\0\0\0\x03\xe8\x06\x05admin\0\0\0\0\0\0\0\x01\x0c\x05alpha\0\0\x01\x03all\x01\0\0\0\x45\0\0\0\0\0\0\x03\xe8\x06\x05admin\0\0\0\0\0\0\0\x02\x12\0\x03\0\0\0\x04fire\0\0\0\x04Fire\0\0\0\0\0\0\0\x02en\0\0\0\0\0\0\0\x06Smoke.\0\0\0\0";

/// The log without a record, behind the two entries of its side.
const PACKED_LOG: &[u8] =
    b"NEWSDESK\x02\x01\0\0\0\0\0\x02\x6b\xa7\xb8\x10\x9d\xad\x11\xd1\x80\xb4\0\xc0\x4f\xd4\x30\xc8\0\0\0\0\0\0\0\0\0\0\0\0\0\0\0\0\0\0\0\0\0\0\0\0\0\0\0\0\0\0\0\0\0";

/// A side with one segment of both entries.
const SIDE: &[u8] =
    b"NEWSDESK\x01\x03\0\0\0\0\0\0\x6b\xa7\xb8\x10\x9d\xad\x11\xd1\x80\xb4\0\xc0\x4f\xd4\x30\xc8\0\0\0\0\0\0\0\0\0\0\0\0\0\0\0\0\0\0\0\0\0\0\0\0\0\0\0\0\0\0\0\0\x01\0\0\0\x73\0\0\0\0\0\0\0\0\0\0\0\x02\0\0\xe8\x07\x06\0\0\0\x1c\x05admin\0\0\0\0\0\0\0\x01\x0c\x05alpha\0\0\x01\x03all\0\x06\0\0\0\x3c\x05admin\0\0\0\0\0\0\0\x02\x12\0\x03\0\0\0\x04fire\0\0\0\x04Fire\0\0\0\0\0\0\0\x02en\0\0\0\0\0\0\0\x06Smoke.\0\0\0\0";

const INIT: &str = "init s 6ba7b810-9dad-11d1-80b4-00c04fd430c8";

/// The subscriber `alpha` is added.
const SUBSCRIBER: &[u8] =
    b"{\"by\":\"admin\",\"number\":1,\"do\":\"add_subscriber\",\"subscriber\":\"alpha\",\"format\":\"ninjs\",\"products\":[\"all\"]}\n";

/// It is added, and a story is flashed.
const BOTH: &[u8] =
    b"{\"by\":\"admin\",\"number\":1,\"do\":\"add_subscriber\",\"subscriber\":\"alpha\",\"format\":\"ninjs\",\"products\":[\"all\"]}\n{\"by\":\"admin\",\"number\":2,\"do\":\"flash\",\"story\":{\"headline\":\"Fire\",\"slugline\":\"fire\",\"language\":\"en\",\"urgency\":3,\"body\":\"Smoke.\"}}\n";

/// The same with ends of lines as a terminal may send them, an empty line, and a question without an end.
const ODD_ENDS: &[u8] =
    b"{\"by\":\"admin\",\"number\":1,\"do\":\"add_subscriber\",\"subscriber\":\"alpha\",\"format\":\"ninjs\",\"products\":[\"all\"]}\r\n\r\n{\"by\":\"admin\",\"number\":2,\"do\":\"flash\",\"story\":{\"headline\":\"Fire\",\"slugline\":\"fire\",\"language\":\"en\",\"urgency\":3,\"body\":\"Smoke.\"}}\n{\"ask\":\"check\"}";

const ADDED: &[u8] = b"{\"answer\":\"done\",\"entry\":1}\n";

const FLASHED: &[u8] =
    b"{\"answer\":\"done\",\"entry\":2,\"item\":1,\"publication\":1,\"release\":1000}\n";

const FLASHED_AGAIN: &[u8] =
    b"{\"answer\":\"repeat\",\"entry\":2,\"item\":1,\"publication\":1,\"release\":1000}\n";

const BOTH_ANSWERED: &[u8] =
    b"{\"answer\":\"done\",\"entry\":1}\n{\"answer\":\"done\",\"entry\":2,\"item\":1,\"publication\":1,\"release\":1000}\n";

const ODD_ANSWERED: &[u8] =
    b"{\"answer\":\"done\",\"entry\":1}\n{\"answer\":\"done\",\"entry\":2,\"item\":1,\"publication\":1,\"release\":1000}\n{\"answer\":\"check\",\"entries\":2,\"moment\":1000,\"publications\":1}\n";

const INPUT_FAILED: &[u8] = b"{\"status\":4}\n";

const ADDED_AND_INPUT_FAILED: &[u8] = b"{\"answer\":\"done\",\"entry\":1}\n{\"status\":4}\n";

const STORE_FAILED: &[u8] = b"{\"status\":6}\n";

/// Whether that status, those bytes of the output and that log were left, and a side without a byte.
fn is_left(left: &Left, status: u8, output: &[u8], log: &[u8]) -> bool {
    left.status == status
        && left.output.as_bytes() == output
        && left.log.as_bytes() == log
        && left.side.as_bytes().is_empty()
}

/// What the first line leaves where this call of the input, the output or the log fails, of each counted from 1.
fn with_faults(alloc: Global, read: u64, write: u64, store: u64) -> Result<Left, Memory> {
    let input = source_of(alloc, SUBSCRIBER)?.failing_at(number(alloc, read)?);
    let output = MemorySink::new(alloc).failing_at(number(alloc, write)?);
    let log = MemoryDisk::holding(alloc, NEW)?.failing_at(number(alloc, store)?);
    done(
        alloc,
        "batch s",
        (input, output),
        (log, MemoryDisk::new(alloc)),
    )
}

#[test]
fn faults_end_a_batch(rt: HostRuntime) -> Result<(), Fail> {
    let alloc = rt.alloc();
    let left = with_faults(alloc, 1, 0, 0)?;
    assert!(rt; is_left(&left, 4, INPUT_FAILED, NEW));
    let left = with_faults(alloc, 2, 0, 0)?;
    assert!(rt; is_left(&left, 4, ADDED_AND_INPUT_FAILED, ONE));
    let left = with_faults(alloc, 0, 1, 0)?;
    assert!(rt; is_left(&left, 5, b"", NEW));
    // The answer is lost, and what it answers is kept.
    let left = with_faults(alloc, 0, 2, 0)?;
    assert!(rt; is_left(&left, 5, b"", ONE));
    let left = with_faults(alloc, 0, 0, 1)?;
    assert!(rt; is_left(&left, 6, STORE_FAILED, NEW));
    Ok(())
}

/// The first call of the log fails, in its making and where it is read; and the first call of the side.
#[test]
fn faults_end_other_commands(rt: HostRuntime) -> Result<(), Fail> {
    let alloc = rt.alloc();
    let log = MemoryDisk::new(alloc).failing_at(number(alloc, 1)?);
    assert!(rt; is_left(&done_with(alloc, INIT, b"", log)?, 6, STORE_FAILED, b""));
    let log = MemoryDisk::holding(alloc, ONE)?.failing_at(number(alloc, 1)?);
    assert!(rt;
        is_left(
            &done_with(alloc, "check s", b"", log)?,
            6,
            STORE_FAILED,
            ONE
        )
    );
    for words in ["batch s", "check s"] {
        let left = beside_a_faulty_side(alloc, words)?;
        assert!(rt; left.status == 6 && left.output.as_bytes() == STORE_FAILED);
    }
    Ok(())
}

/// What a command leaves of a log and its side, whose first call fails.
fn beside_a_faulty_side(alloc: Global, words: &str) -> Result<Left, Memory> {
    let log = MemoryDisk::holding(alloc, PACKED_LOG)?;
    let side = MemoryDisk::holding(alloc, SIDE)?.failing_at(number(alloc, 1)?);
    let streams = (source_of(alloc, SUBSCRIBER)?, MemorySink::new(alloc));
    done(alloc, words, streams, (log, side))
}

/// Whether a command that has to write a line has this status where the output fails, and leaves the log as it was.
fn is_unsaid(alloc: Global, words: &str, log: &[u8], status: u8) -> Result<bool, Memory> {
    let output = MemorySink::new(alloc).failing_at(number(alloc, 1)?);
    let disks = (MemoryDisk::holding(alloc, log)?, MemoryDisk::new(alloc));
    let left = done(alloc, words, (source_of(alloc, b"")?, output), disks)?;
    Ok(is_left(&left, status, b"", log))
}

#[test]
fn a_status_is_told_without_an_output(rt: HostRuntime) -> Result<(), Fail> {
    let alloc = rt.alloc();
    assert!(rt; is_unsaid(alloc, "batch s", b"", 3)?);
    assert!(rt; is_unsaid(alloc, "check s", TWO, 5)?);
    assert!(rt; is_unsaid(alloc, "check s", &NEW[..64], 7)?);
    assert!(rt; is_unsaid(alloc, "check", TWO, 2)?);
    Ok(())
}

/// A batch whose input comes byte by byte, and whose output goes so. The clock goes back behind its first reading, and then
/// far on.
#[test]
fn a_batch_in_pieces_at_a_clock_that_goes_back(rt: HostRuntime) -> Result<(), Fail> {
    let alloc = rt.alloc();
    let input = source_of(alloc, ODD_ENDS)?.in_pieces_of(1);
    let output = MemorySink::new(alloc).in_pieces_of(1);
    let disks = (MemoryDisk::holding(alloc, NEW)?, MemoryDisk::new(alloc));
    let clock = MemoryClock::new(vec![in alloc; 1000, 900, 5000]?);
    let mut links: Vec<UnreachableLink> = Vec::new(alloc);
    let left = done_at(alloc, "batch s", (input, output), disks, clock, &mut links)?;
    assert!(rt; is_left(&left, 0, ODD_ANSWERED, TWO));
    Ok(())
}

/// A new log of which the call behind so many fails; or each from there on.
fn cut_off(alloc: Global, calls: u64, always: bool) -> Result<MemoryDisk, Memory> {
    let log = MemoryDisk::holding(alloc, NEW)?;
    if always {
        return Ok(log.stopped_after(calls));
    }
    Ok(log.failing_at(number(alloc, calls.saturating_add(1))?))
}

/// Whether the lines, sent again, are answered as they have to be: what was answered is kept, and nothing is done twice.
fn goes_on(alloc: Global, before: &Left) -> Result<bool, Memory> {
    let log = MemoryDisk::holding(alloc, before.log.as_bytes())?;
    let left = done_with(alloc, "batch s", BOTH, log)?;
    let answers = left.output.as_bytes();
    let is_lost = before.output.as_bytes().starts_with(ADDED) && answers.starts_with(ADDED);
    let is_answered = answers.ends_with(FLASHED) || answers.ends_with(FLASHED_AGAIN);
    Ok(left.status == 0 && is_answered && !is_lost && left.log.as_bytes() == TWO)
}

/// Whether the two lines were answered to their end, or the log failed and they go on from there.
fn is_whole_or_goes_on(alloc: Global, left: &Left) -> Result<bool, Memory> {
    if left.status == 0 {
        return Ok(is_left(left, 0, BOTH_ANSWERED, TWO));
    }
    let is_told = left.output.as_bytes().ends_with(STORE_FAILED);
    Ok(left.status == 6 && is_told && goes_on(alloc, left)?)
}

/// How many of the first forty calls the two lines do without, where each fails, or each from there on; none where one of them
/// is told otherwise.
fn whole_batches(alloc: Global, always: bool) -> Result<Option<u64>, Memory> {
    let mut whole = 0u64;
    for calls in 0..40 {
        let left = done_with(alloc, "batch s", BOTH, cut_off(alloc, calls, always)?)?;
        if !is_whole_or_goes_on(alloc, &left)? {
            return Ok(None);
        }
        whole = whole.saturating_add(u64::from(left.status == 0));
    }
    Ok(Some(whole))
}

/// Opening takes calls, and so does each of the two records.
#[test]
fn a_batch_goes_on_where_its_log_failed(rt: HostRuntime) -> Result<(), Fail> {
    let alloc = rt.alloc();
    let once = whole_batches(alloc, false)?.ok_or("told otherwise")?;
    let always = whole_batches(alloc, true)?.ok_or("told otherwise")?;
    let whole = once.saturating_add(always);
    assert!(rt; whole > 0 && whole < 2 * 32);
    Ok(())
}
