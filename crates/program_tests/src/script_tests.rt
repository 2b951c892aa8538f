//! One script of commands over a store, of which each device call fails once, or is the last one before a stop.
//!
//! Whatever comes of it, the list is a beginning of the script's with each entry that was acknowledged, and perhaps the one that
//! was tried; and the script goes on from there to its own end.

use crate::commands::{Left, NEW, done_at, number, source_of};
use news_io::{MemoryClock, MemoryDisk, MemorySink, Tear, UnreachableLink};
use news_pair::Pair;
use news_types::{Memory, Name, Names};
use std::alloc::Global;
use std::test::Fail;

/// A command at a moment, with the line of its input.
#[derive(Clone, Copy)]
struct Step {
    now: u64,
    words: &'static str,
    line: &'static [u8],
    /// What it is answered.
    answer: &'static [u8],
    /// How many entries the list has then: at most one more than before.
    entries: usize,
}

/// A second user and two subscribers are added, and each user flashes a story. The first is claimed for `alpha`, and its receipt
/// comes; the second cannot be taken back. The list is packed, what waits for `beta` is let into its feed, and the list is packed
/// again.
const SCRIPT: [Step; 11] = [
    Step {
        now: 1000,
        words: "batch s",
        line: b"{\"by\":\"admin\",\"number\":1,\"do\":\"add_user\",\"user\":\"ana\",\"privileges\":[\"publish\"]}\n",
        answer: b"{\"answer\":\"done\",\"entry\":1}\n",
        entries: 1,
    },
    Step {
        now: 1000,
        words: "batch s",
        line: b"{\"by\":\"admin\",\"number\":2,\"do\":\"add_subscriber\",\"subscriber\":\"alpha\",\"format\":\"ninjs\",\"products\":[\"all\"]}\n",
        answer: b"{\"answer\":\"done\",\"entry\":2}\n",
        entries: 2,
    },
    Step {
        now: 1000,
        words: "batch s",
        line: b"{\"by\":\"admin\",\"number\":3,\"do\":\"add_subscriber\",\"subscriber\":\"beta\",\"format\":\"7901\",\"products\":[\"all\"],\"lag\":600}\n",
        answer: b"{\"answer\":\"done\",\"entry\":3}\n",
        entries: 3,
    },
    Step {
        now: 1000,
        words: "batch s",
        line: b"{\"by\":\"admin\",\"number\":4,\"do\":\"flash\",\"story\":{\"headline\":\"Fire\",\"body\":\"Smoke.\"}}\n",
        answer: b"{\"answer\":\"done\",\"entry\":4,\"item\":1,\"publication\":1,\"release\":1000}\n",
        entries: 4,
    },
    Step {
        now: 1000,
        words: "batch s",
        line: b"{\"by\":\"ana\",\"number\":1,\"do\":\"flash\",\"story\":{\"headline\":\"Rain\",\"body\":\"Water.\"}}\n",
        answer: b"{\"answer\":\"done\",\"entry\":5,\"item\":2,\"publication\":2,\"release\":1000}\n",
        entries: 5,
    },
    Step {
        now: 1000,
        words: "drain s",
        line: b"",
        answer: b"alpha 1 link-fault\n{\"status\":10}\n",
        entries: 6,
    },
    Step {
        now: 1000,
        words: "batch s",
        line: b"{\"receipt\":{\"subscriber\":\"alpha\",\"n\":1}}\n",
        answer: b"{\"answer\":\"done\",\"entry\":7}\n",
        entries: 7,
    },
    Step {
        now: 1000,
        words: "batch s",
        line: b"{\"by\":\"admin\",\"number\":5,\"do\":\"deschedule\",\"item\":2}\n",
        answer: b"{\"answer\":\"denied\",\"denial\":\"AlreadyReleased\",\"number\":12,\"release\":1000}\n",
        entries: 7,
    },
    Step {
        now: 1000,
        words: "pack s",
        line: b"",
        answer: b"{\"answer\":\"packed\",\"entries\":7}\n",
        entries: 7,
    },
    Step {
        now: 1600,
        words: "batch s",
        line: b"{\"ask\":\"check\"}\n",
        answer: b"{\"answer\":\"check\",\"entries\":8,\"moment\":1600,\"publications\":2}\n",
        entries: 8,
    },
    Step {
        now: 1600,
        words: "pack s",
        line: b"",
        answer: b"{\"answer\":\"packed\",\"entries\":8}\n",
        entries: 8,
    },
];

/// Of the device calls that the script makes of the log and of the side, at least so many.
const LEAST: u64 = 30;

/// More device calls than it makes.
const ALL: u64 = 1000;

/// What a crash leaves of what was not synced: all of it, or nothing.
const TEARS: [Tear; 2] = [
    Tear {
        landed: u64::MAX,
        reach: u64::MAX,
        fill: 0,
    },
    Tear {
        landed: 0,
        reach: 0,
        fill: 0,
    },
];

/// Does a step. The receivers cannot be reached.
fn do_step(alloc: Global, step: &Step, disks: (MemoryDisk, MemoryDisk)) -> Result<Left, Memory> {
    let Some(alpha) = Name::read("alpha") else {
        return Err(Memory);
    };
    let link = UnreachableLink::new(Names::of(vec![in alloc; alpha]?));
    let mut links = vec![in alloc; link]?;
    let clock = MemoryClock::new(vec![in alloc; step.now]?);
    let streams = (source_of(alloc, step.line)?, MemorySink::new(alloc));
    done_at(alloc, step.words, streams, disks, clock, &mut links)
}

/// How far the script came, and what it left.
#[derive(Drop)]
struct Played {
    /// The place of the step whose disk failed, or behind the last.
    place: usize,
    /// How many of the steps before it were answered otherwise.
    strays: usize,
    log: MemoryDisk,
    side: MemoryDisk,
}

/// Does the steps from a place on, up to the first whose disk fails.
fn play(alloc: Global, disks: (MemoryDisk, MemoryDisk), from: usize) -> Result<Played, Memory> {
    let (mut log, mut side) = disks;
    let mut place = from;
    let mut strays = 0usize;
    for step in SCRIPT.iter().skip(from) {
        let left = do_step(alloc, step, (log, side))?;
        let has_failed = left.status == 6;
        let is_stray = left.output.as_bytes() != step.answer;
        log = left.log;
        side = left.side;
        if has_failed {
            break;
        }
        place = place.saturating_add(1);
        strays = strays.saturating_add(usize::from(is_stray));
    }
    Ok(Played {
        place,
        strays,
        log,
        side,
    })
}

/// How many entries two files open to, and the bytes of their records; nothing where they are no pair.
fn list_of(alloc: Global, log: &[u8], side: &[u8]) -> Result<Option<(usize, Vec<u8>)>, Memory> {
    let log = MemoryDisk::holding(alloc, log)?;
    let side = MemoryDisk::holding(alloc, side)?;
    let Ok(opened) = Pair::open(alloc, log, side) else {
        return Ok(None);
    };
    let mut bytes = Vec::new(alloc);
    for record in opened.records.as_slice() {
        bytes.extend_from_slice(record.bytes.as_slice())?;
    }
    Ok(Some((opened.records.as_slice().len(), bytes)))
}

/// How many entries are acknowledged before the step at a place.
fn entries_before(place: usize) -> usize {
    match SCRIPT.get(place.wrapping_sub(1)) {
        Some(step) => step.entries,
        None => 0,
    }
}

/// How many entries the list has behind the step at a place, at most.
fn entries_behind(place: usize) -> usize {
    entries_before(place.saturating_add(1).min(SCRIPT.len()))
}

/// Whether these files open to a beginning of the whole list, with each acknowledged entry and none behind the step that failed.
fn holds(alloc: Global, files: (&[u8], &[u8]), place: usize, whole: &[u8]) -> Result<bool, Memory> {
    match list_of(alloc, files.0, files.1)? {
        Some((count, bytes)) => Ok(
            whole.starts_with(&bytes)
                && count >= entries_before(place)
                && count <= entries_behind(place),
        ),
        None => Ok(false),
    }
}

/// Whether the script goes on over these files: it comes to its end and to the whole list. The step that failed may find its work
/// done, and the later ones are answered as ever.
fn goes_on(
    alloc: Global,
    files: (&[u8], &[u8]),
    place: usize,
    whole: &[u8],
) -> Result<bool, Memory> {
    let log = MemoryDisk::holding(alloc, files.0)?;
    let side = MemoryDisk::holding(alloc, files.1)?;
    let played = play(alloc, (log, side), place)?;
    let bytes = match list_of(alloc, played.log.as_bytes(), played.side.as_bytes())? {
        Some((_, bytes)) => bytes,
        None => return Ok(false),
    };
    Ok(played.place == SCRIPT.len() && played.strays <= 1 && bytes.as_slice() == whole)
}

/// Whether what is left has the list: behind a fault as it is, and the script goes on over it; behind a stop as a crash leaves it.
fn is_kept(alloc: Global, played: &Played, whole: &[u8], stops: bool) -> Result<bool, Memory> {
    if !stops {
        let files = (played.log.as_bytes(), played.side.as_bytes());
        let is_held = holds(alloc, files, played.place, whole)?;
        return Ok(is_held && goes_on(alloc, files, played.place, whole)?);
    }
    for tear in TEARS {
        let log = played.log.after_crash(tear)?;
        let side = played.side.after_crash(tear)?;
        if !holds(alloc, (&log, &side), played.place, whole)? {
            return Ok(false);
        }
    }
    Ok(true)
}

/// What the script is tried on: the log or the side, of which one call fails or each behind it.
#[derive(Clone, Copy)]
struct Trial {
    on_side: bool,
    stops: bool,
}

/// The disk that fails so behind so many calls.
fn armed(alloc: Global, disk: MemoryDisk, calls: u64, stops: bool) -> Result<MemoryDisk, Memory> {
    if stops {
        return Ok(disk.stopped_after(calls));
    }
    Ok(disk.failing_at(number(alloc, calls.saturating_add(1))?))
}

/// Plays the script over a new store, of which one disk fails behind so many calls.
fn tried(alloc: Global, trial: Trial, calls: u64) -> Result<Played, Memory> {
    let log = MemoryDisk::holding(alloc, NEW)?;
    let side = MemoryDisk::new(alloc);
    let disks = if trial.on_side {
        (log, armed(alloc, side, calls, trial.stops)?)
    } else {
        (armed(alloc, log, calls, trial.stops)?, side)
    };
    play(alloc, disks, 0)
}

/// Whether no call of either disk failed.
fn are_calm(played: &Played) -> bool {
    played.log.fault_count() == 0 && played.side.fault_count() == 0
}

/// How many device calls the disk did before the script came to its end without a fault; nothing where a fault behind fewer lost
/// something.
fn kept_throughout(alloc: Global, trial: Trial) -> Result<Option<u64>, Memory> {
    let last = tried(alloc, trial, ALL)?;
    let Some((8, whole)) = list_of(alloc, last.log.as_bytes(), last.side.as_bytes())? else {
        return Ok(None);
    };
    for calls in 0..ALL {
        let played = tried(alloc, trial, calls)?;
        if played.strays > 0 {
            return Ok(None);
        }
        if played.place == SCRIPT.len() {
            return Ok(if are_calm(&played) { Some(calls) } else { None });
        }
        if !is_kept(alloc, &played, &whole, trial.stops)? {
            return Ok(None);
        }
    }
    Ok(None)
}

/// Each call of the log fails once.
#[test]
fn each_call_of_the_log_may_fail(rt: HostRuntime) -> Result<(), Fail> {
    let trial = Trial {
        on_side: false,
        stops: false,
    };
    let calls = kept_throughout(rt.alloc(), trial)?.ok_or("lost")?;
    assert!(rt; calls > LEAST, "{calls}");
    Ok(())
}

/// Each call of the side fails once.
#[test]
fn each_call_of_the_side_may_fail(rt: HostRuntime) -> Result<(), Fail> {
    let trial = Trial {
        on_side: true,
        stops: false,
    };
    let calls = kept_throughout(rt.alloc(), trial)?.ok_or("lost")?;
    assert!(rt; calls > LEAST, "{calls}");
    Ok(())
}

/// All stops behind each call of the log.
#[test]
fn each_stop_of_the_log_keeps_the_list(rt: HostRuntime) -> Result<(), Fail> {
    let trial = Trial {
        on_side: false,
        stops: true,
    };
    let calls = kept_throughout(rt.alloc(), trial)?.ok_or("lost")?;
    assert!(rt; calls > LEAST, "{calls}");
    Ok(())
}

/// All stops behind each call of the side.
#[test]
fn each_stop_of_the_side_keeps_the_list(rt: HostRuntime) -> Result<(), Fail> {
    let trial = Trial {
        on_side: true,
        stops: true,
    };
    let calls = kept_throughout(rt.alloc(), trial)?.ok_or("lost")?;
    assert!(rt; calls > LEAST, "{calls}");
    Ok(())
}
