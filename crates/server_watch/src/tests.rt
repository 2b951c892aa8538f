//! Threads that count in one watch. What is expected is counted by hand.
ghost use Rattle.std.specs.Thread.{IsSync};

use crate::Watch;
use news_types::Name;
use server_counts::Outcome;
use std::sync::Wait;
use std::test::Fail;
use std::thread::{Threads, join};

/// As often each thread counts each thing.
const TIMES: u64 = 100;

/// Counts as a connection and a worker do.
fn count<R: Wait>(rt: &R, watch: &Watch, provider: Name) {
    for moment in 1..=TIMES {
        watch.count_response(rt, 200);
        watch.count_ingest(rt, provider, moment);
        watch.count_attempt(rt, Outcome::Delivered);
        watch.count_log_fault(rt);
    }
}

/// Counts in two threads.
fn count_beside<R: Threads + Wait + Sync>(rt: &R, watch: &Watch, provider: Name) {
    let ((), ()) = join(
        rt,
        || count(rt, watch, provider),
        || count(rt, watch, provider),
    );
}

#[test]
fn no_count_is_lost(rt: HostRuntime) -> Result<(), Fail> {
    let watch = Watch::new(rt.alloc());
    let Some(provider) = Name::read("apa") else {
        return Err(Fail::new("no name"));
    };
    count_beside(&rt, &watch, provider);
    let Ok(counts) = watch.counts(&rt) else {
        return Err(Fail::new("no memory"));
    };
    assert_eq!(rt; counts.attempts().delivered, 2 * TIMES);
    assert_eq!(rt; counts.log_faults(), 2 * TIMES);
    let [answered] = counts.requests() else {
        return Err(Fail::new("other statuses"));
    };
    assert_eq!(rt; answered.status, 200);
    assert_eq!(rt; answered.count, 2 * TIMES);
    let [taken] = counts.ingests() else {
        return Err(Fail::new("other providers"));
    };
    assert!(rt; taken.provider == provider);
    assert_eq!(rt; taken.count, 2 * TIMES);
    assert_eq!(rt; taken.last, TIMES);
    Ok(())
}
