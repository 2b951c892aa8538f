//! Each image that a crash may leave of a batch, behind each call of its log.

use crate::commands::{Left, NEW, done_with};
use news_io::{MemoryDisk, Tear};
use news_types::Memory;
use std::alloc::Global;
use std::test::Fail;

/// Ten requests, each of which is kept. The last story's body has the bytes of an open and of a closed gate.
const SCRIPT: &[u8] =
    br#"{"by":"admin","number":1,"do":"add_subscriber","subscriber":"alpha","format":"ninjs","products":["all"]}
{"by":"admin","number":2,"do":"flash","story":{"headline":"Fire","slugline":"fire","language":"en","urgency":3,"body":"Smoke."}}
{"by":"admin","number":3,"do":"add_subscriber","subscriber":"beta","format":"7901","products":["all"]}
{"by":"admin","number":4,"do":"flash","story":{}}
{"by":"admin","number":5,"do":"flash","story":{"headline":"Rain"}}
{"by":"admin","number":6,"do":"add_subscriber","subscriber":"gamma","format":"ninjs","products":["all"]}
{"by":"admin","number":7,"do":"flash","story":{"body":"Water. Water."}}
{"by":"admin","number":8,"do":"flash","story":{"headline":"Fire out","html":true}}
{"by":"admin","number":9,"do":"flash","story":{"kind":"video","category":"pol"}}
{"by":"admin","number":10,"do":"flash","story":{"body":"\u0001\u0000\u0001"}}
"#;

/// The place of the gate behind so many of their records.
const GATES: [usize; 11] = [64, 106, 180, 221, 279, 341, 383, 454, 520, 581, 642];

/// More bytes than any of their records has.
const LONGEST: u64 = 80;

/// What `check` says of so many of them.
const CHECKS: [&[u8]; 11] = [
    b"{\"answer\":\"check\",\"entries\":0,\"moment\":0,\"publications\":0}\n",
    b"{\"answer\":\"check\",\"entries\":1,\"moment\":1000,\"publications\":0}\n",
    b"{\"answer\":\"check\",\"entries\":2,\"moment\":1000,\"publications\":1}\n",
    b"{\"answer\":\"check\",\"entries\":3,\"moment\":1000,\"publications\":1}\n",
    b"{\"answer\":\"check\",\"entries\":4,\"moment\":1000,\"publications\":2}\n",
    b"{\"answer\":\"check\",\"entries\":5,\"moment\":1000,\"publications\":3}\n",
    b"{\"answer\":\"check\",\"entries\":6,\"moment\":1000,\"publications\":3}\n",
    b"{\"answer\":\"check\",\"entries\":7,\"moment\":1000,\"publications\":4}\n",
    b"{\"answer\":\"check\",\"entries\":8,\"moment\":1000,\"publications\":5}\n",
    b"{\"answer\":\"check\",\"entries\":9,\"moment\":1000,\"publications\":6}\n",
    b"{\"answer\":\"check\",\"entries\":10,\"moment\":1000,\"publications\":7}\n",
];

/// What the script leaves of a new log that stops after so many calls.
fn stopped_after(alloc: Global, calls: u64) -> Result<Left, Memory> {
    let log = MemoryDisk::holding(alloc, NEW)?.stopped_after(calls);
    done_with(alloc, "batch s", SCRIPT, log)
}

/// How many requests were answered.
fn answered(left: &Left) -> usize {
    let lines = left
        .output
        .as_bytes()
        .iter()
        .filter(|byte| **byte == b'\n')
        .count();
    lines.saturating_sub(usize::from(left.status != 0))
}

/// Whether an image opens to the first so many records of the whole log.
fn opens_to(alloc: Global, image: &[u8], whole: &[u8], count: usize) -> Result<bool, Memory> {
    let (Some(line), Some(gate)) = (CHECKS.get(count), GATES.get(count)) else {
        return Ok(false);
    };
    let left = done_with(alloc, "check s", b"", MemoryDisk::holding(alloc, image)?)?;
    let is_told = left.status == 0 && left.output.as_bytes() == *line;
    Ok(is_told && image.get(..*gate) == whole.get(..*gate))
}

/// How a crash may tear the end of a log: the last write reached so far, or all of it did, and what did not land is one byte.
fn tears(alloc: Global, log: &[u8]) -> Result<Vec<Tear>, Memory> {
    let end = log.len() as u64;
    let start = end.saturating_sub(LONGEST);
    let mut tears = Vec::new(alloc);
    for reach in start..end {
        tears.push(Tear {
            landed: end,
            reach,
            fill: 0,
        })?;
    }
    for fill in [0, 1, 255] {
        for landed in start..end + 1 {
            tears.push(Tear {
                landed,
                reach: end,
                fill,
            })?;
        }
    }
    Ok(tears)
}

/// Whether each image that a crash may leave has what was answered, perhaps with the next request.
fn leaves_answered(alloc: Global, left: &Left, whole: &[u8]) -> Result<bool, Memory> {
    let count = answered(left);
    let mut before = Vec::new(alloc);
    for tear in tears(alloc, left.log.as_bytes())?.iter() {
        let image = left.log.after_crash(*tear)?;
        if image.as_slice() != before.as_slice()
            && !opens_to(alloc, &image, whole, count)?
            && !opens_to(alloc, &image, whole, count.saturating_add(1))?
        {
            return Ok(false);
        }
        before = image;
    }
    Ok(true)
}

/// The script's calls are tried in so many parts, since each of their tests has a minute.
const PARTS: u64 = 3;

/// The first call of a part behind which some image does not open to what was answered.
fn first_lost(alloc: Global, part: u64) -> Result<Option<u64>, Memory> {
    let whole = stopped_after(alloc, u64::MAX)?;
    let log = whole.log.as_bytes();
    if whole.status != 0 || answered(&whole) != 10 || !opens_to(alloc, log, log, 10)? {
        return Ok(Some(whole.log.call_count()));
    }
    for calls in 0..whole.log.call_count() {
        if calls % PARTS != part {
            continue;
        }
        let left = stopped_after(alloc, calls)?;
        if left.status != 6 || !leaves_answered(alloc, &left, log)? {
            return Ok(Some(calls));
        }
    }
    Ok(None)
}

#[test]
fn each_image_of_a_crash_opens_to_what_was_answered(rt: HostRuntime) -> Result<(), Fail> {
    assert_eq!(rt; first_lost(rt.alloc(), 0)?, None);
    Ok(())
}

#[test]
fn each_image_behind_the_next_calls(rt: HostRuntime) -> Result<(), Fail> {
    assert_eq!(rt; first_lost(rt.alloc(), 1)?, None);
    Ok(())
}

#[test]
fn each_image_behind_the_calls_between(rt: HostRuntime) -> Result<(), Fail> {
    assert_eq!(rt; first_lost(rt.alloc(), 2)?, None);
    Ok(())
}
