//! Tests of `feed_reports`: reports as a person would write them.

use feed_reports::{Attempted, attempt_text, feed_text, queue_text, summary_text};
use news_types::{FeedRow, FeedState, Kind, Name, QueueRow};
use std::test::Fail;

const FIRST: FeedRow = FeedRow {
    k: 1,
    item: 1,
    publication: 1,
    kind: Kind::First,
    version: 1,
    release: 1000,
};

const CORRECTED: FeedRow = FeedRow {
    k: 12,
    item: 7,
    publication: 31,
    kind: Kind::Correct,
    version: 2,
    release: 253_402_300_799,
};

#[test]
fn feeds(rt: HostRuntime) -> Result<(), Fail> {
    let alloc = rt.alloc();
    assert_eq!(rt;
        feed_text(alloc, &[FIRST, CORRECTED])?.as_slice(),
        b"1 1 1 1 first 1970-01-01T00:16:40Z\n12 31 7 2 correct 9999-12-31T23:59:59Z\n".as_slice()
    );
    assert_eq!(rt; feed_text(alloc, &[])?.as_slice(), b"".as_slice());
    Ok(())
}

#[test]
fn queues(rt: HostRuntime) -> Result<(), Fail> {
    let alloc = rt.alloc();
    let alpha = QueueRow {
        subscriber: Name::read("alpha").ok_or("a name")?,
        length: 2,
        acked: 1,
        tries: 0,
        state: FeedState::Pending,
    };
    let beta = QueueRow {
        subscriber: Name::read("beta").ok_or("a name")?,
        length: 10,
        acked: 0,
        tries: 10,
        state: FeedState::Paused,
    };
    assert_eq!(rt;
        queue_text(alloc, &[alpha, beta])?.as_slice(),
        b"alpha length 2 acked 1 tries 0 pending\nbeta length 10 acked 0 tries 10 paused\n".as_slice()
    );
    assert_eq!(rt;
        summary_text(alloc, 42, &[alpha])?.as_slice(),
        b"entries 42\nalpha length 2 acked 1 tries 0 pending\n".as_slice()
    );
    Ok(())
}

#[test]
fn attempts(rt: HostRuntime) -> Result<(), Fail> {
    let alloc = rt.alloc();
    let alpha = Name::read("alpha").ok_or("a name")?;
    assert_eq!(rt;
        attempt_text(alloc, &alpha, 1, Attempted::Delivered)?.as_slice(),
        b"alpha 1 delivered\n".as_slice()
    );
    assert_eq!(rt;
        attempt_text(alloc, &alpha, 2, Attempted::LinkFault)?.as_slice(),
        b"alpha 2 link-fault\n".as_slice()
    );
    assert_eq!(rt;
        attempt_text(alloc, &alpha, 4_294_967_295, Attempted::NoReceipt)?.as_slice(),
        b"alpha 4294967295 no-receipt\n".as_slice()
    );
    Ok(())
}
