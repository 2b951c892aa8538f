//! A long report, page by page, and a report behind a tick that is not kept at once. Short ones are in the sessions at a desk.

use crate::commands::{Left, NEW, done_at, done_with, number, source_of};
use news_io::{MemoryClock, MemoryDisk, MemorySink, UnreachableLink};
use news_types::Memory;
use std::alloc::Global;
use std::test::Fail;

const ALPHA: &[u8] =
    b"{\"by\":\"admin\",\"number\":1,\"do\":\"add_subscriber\",\"subscriber\":\"alpha\",\"format\":\"ninjs\",\"products\":[\"all\"]}\n";

/// The subscriber has a lag of ten minutes, and a story is flashed.
const LAGGED: &[u8] =
    b"{\"by\":\"admin\",\"number\":1,\"do\":\"add_subscriber\",\"subscriber\":\"alpha\",\"format\":\"ninjs\",\"products\":[\"all\"],\"lag\":600}\n{\"by\":\"admin\",\"number\":2,\"do\":\"flash\",\"story\":{\"headline\":\"Fire\"}}\n";

/// The first row of the feed.
const FIRST: &[u8] = b"1 1 1 1 first 1970-01-01T00:16:40Z\n";

/// The last one of 250.
const LAST: &[u8] = b"250 250 250 1 first 1970-01-01T00:16:40Z\n";

const PENDING: &[u8] = b"alpha length 1 acked 0 tries 0 pending\n";

const STORE_FAILED: &[u8] = b"{\"status\":6}\n";

/// The story is released.
const CHECKED: &[u8] = b"{\"answer\":\"check\",\"entries\":3,\"moment\":1600,\"publications\":1}\n";

/// Lines by which `alpha` is added, and so many stories are flashed.
fn day_of(alloc: Global, stories: u64) -> Result<Vec<u8>, Memory> {
    let mut lines = ALPHA.to_vec(alloc)?;
    for request in 2..stories.saturating_add(2) {
        let line = format!(in alloc;
            "{{\"by\":\"admin\",\"number\":{request},\"do\":\"flash\",\"story\":{{}}}}\n"
        )?;
        lines.extend_from_slice(line.as_bytes())?;
    }
    Ok(lines)
}

/// What a report on this log leaves at a moment, where one call of the output, or of the log, fails.
fn reported(
    alloc: Global,
    words: &str,
    log: &[u8],
    now: u64,
    failing: (u64, u64),
) -> Result<Left, Memory> {
    let output = MemorySink::new(alloc).failing_at(number(alloc, failing.0)?);
    let log = MemoryDisk::holding(alloc, log)?.failing_at(number(alloc, failing.1)?);
    let clock = MemoryClock::new(vec![in alloc; now]?);
    let mut links: Vec<UnreachableLink> = Vec::new(alloc);
    let streams = (source_of(alloc, b"")?, output);
    let disks = (log, MemoryDisk::new(alloc));
    done_at(alloc, words, streams, disks, clock, &mut links)
}

/// How many lines there are.
fn lines(bytes: &[u8]) -> usize {
    bytes.iter().filter(|byte| **byte == b'\n').count()
}

/// A feed of 250 entries is written whole, in three pages.
#[test]
fn a_long_feed_is_written_page_by_page(rt: HostRuntime) -> Result<(), Fail> {
    let alloc = rt.alloc();
    let new = MemoryDisk::holding(alloc, NEW)?;
    let day = day_of(alloc, 250)?;
    let store = done_with(alloc, "batch s", &day, new)?;
    let log = store.log.as_bytes();
    let whole = reported(alloc, "feed s alpha 0", log, 1000, (0, 0))?;
    let output = whole.output.as_bytes();
    assert_eq!(rt; (whole.status, lines(output)), (0, 250));
    assert!(rt; output.starts_with(FIRST));
    assert!(rt; output.ends_with(b"Z\n250 250 250 1 first 1970-01-01T00:16:40Z\n"));
    assert_eq!(rt; whole.output.passed().len(), output.len());
    // Each page is written and passed on: the sixth call passes the last of them on.
    let failing = reported(alloc, "feed s alpha 0", log, 1000, (6, 0))?;
    assert_eq!(rt;
        (failing.status, lines(failing.output.as_bytes())),
        (5, 250)
    );
    assert_eq!(rt; lines(failing.output.passed()), 200);
    // The second write fails.
    let cut = reported(alloc, "feed s alpha 0", log, 1000, (3, 0))?;
    assert_eq!(rt; (cut.status, lines(cut.output.as_bytes())), (5, 100));
    assert_eq!(rt; cut.output.fault_count(), 1);
    // Behind entry 249 there is one more, and behind the end there is none.
    let last = reported(alloc, "feed s alpha 249", log, 1000, (0, 0))?;
    assert!(rt; last.output.as_bytes() == LAST);
    let none = reported(alloc, "feed s alpha 4294967295", log, 1000, (0, 0))?;
    assert!(rt; none.status == 0 && none.output.as_bytes().is_empty());
    Ok(())
}

/// How many calls of the log the report on all feeds does without a fault at 1600; nothing where one that fails is told
/// otherwise.
fn queue_calls(alloc: Global, log: &[u8]) -> Result<Option<u64>, Memory> {
    for call in 1..100 {
        let left = reported(alloc, "queue s", log, 1600, (0, call))?;
        if left.status == 0 {
            if left.output.as_bytes() != PENDING {
                return Ok(None);
            }
            return Ok(Some(call - 1));
        }
        if left.status != 6 || left.output.as_bytes() != STORE_FAILED {
            return Ok(None);
        }
    }
    Ok(None)
}

/// What waits for `alpha` is released by the tick before the report, each of whose calls may fail: the report is then not told.
#[test]
fn a_report_stands_behind_its_tick(rt: HostRuntime) -> Result<(), Fail> {
    let alloc = rt.alloc();
    let new = MemoryDisk::holding(alloc, NEW)?;
    let store = done_with(alloc, "batch s", LAGGED, new)?;
    let log = store.log.as_bytes();
    let early = reported(alloc, "feed s alpha 0", log, 1000, (0, 0))?;
    assert!(rt; early.status == 0 && early.output.as_bytes().is_empty());
    let calls = queue_calls(alloc, log)?.ok_or("told otherwise")?;
    assert!(rt; calls > 4);
    let told = reported(alloc, "queue s", log, 1600, (0, 0))?;
    let checked = reported(alloc, "check s", told.log.as_bytes(), 1600, (0, 0))?;
    assert!(rt; checked.output.as_bytes() == CHECKED);
    Ok(())
}
