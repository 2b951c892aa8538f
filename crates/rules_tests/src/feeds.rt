//! Each subscriber's feed: what waits, what is next, and what is given.

use crate::tables::name;
use news_types::{Due, Memory, Moment, Name};
use publish_queue::{FeedFacts, Queue, Ready, Span};
use std::alloc::Global;
use std::process::Abort;

const LAST_MOMENT: Moment = 253_402_300_799;

/// Alpha, beta and gamma.
fn three(rt: &impl Abort) -> [Name; 3] {
    [name(rt, "alpha"), name(rt, "beta"), name(rt, "gamma")]
}

/// Adds a subscriber, unless memory runs out.
fn subscribe(queue: &mut Queue, subscriber: Name) -> bool {
    match queue.reserve_subscriber() {
        Ok(()) => {
            queue.add_subscriber(subscriber);
            true
        }
        Err(_) => false,
    }
}

/// A queue with these two subscribers.
fn queue_of(alloc: Global, alpha: Name, beta: Name) -> Result<Queue, Memory> {
    let mut queue = Queue::new(alloc)?;
    if subscribe(&mut queue, beta) && subscribe(&mut queue, alpha) {
        Ok(queue)
    } else {
        drop(queue);
        Err(Memory)
    }
}

/// Adds a publication that is due to one subscriber, at its own release: whether it fits.
fn publish(queue: &mut Queue, number: u32, release: Moment, to: Name) -> bool {
    publish_later(queue, number, release, to, release)
}

/// Adds a publication that is due to one subscriber, at a release for this one: whether it fits.
fn publish_later(queue: &mut Queue, number: u32, release: Moment, to: Name, later: Moment) -> bool {
    let due = [Due {
        subscriber: to,
        release: later,
    }];
    match queue.reserve_for(number, release, &due) {
        Ok(()) => {
            queue.add(number, release, &due);
            true
        }
        Err(_) => false,
    }
}

/// Adds a publication that is due to two subscribers, at a release for each: whether it fits.
fn publish_to_both(
    queue: &mut Queue,
    number: u32,
    release: Moment,
    first: (Name, Moment),
    second: (Name, Moment),
) -> bool {
    if first.0 == second.0 {
        return false;
    }
    let due = [
        Due {
            subscriber: first.0,
            release: first.1,
        },
        Due {
            subscriber: second.0,
            release: second.1,
        },
    ];
    match queue.reserve_for(number, release, &due) {
        Ok(()) => {
            queue.add(number, release, &due);
            true
        }
        Err(_) => false,
    }
}

/// Adds a publication that is due to nobody: whether it fits.
fn publish_to_none(queue: &mut Queue, number: u32, release: Moment) -> bool {
    match queue.reserve_for(number, release, &[]) {
        Ok(()) => {
            queue.add(number, release, &[]);
            true
        }
        Err(_) => false,
    }
}

/// Counts an attempt at a moment that a clock may show.
fn attempt(queue: &mut Queue, subscriber: &Name, moment: Moment) {
    if moment <= LAST_MOMENT {
        queue.attempt(subscriber, moment);
    }
}

fn facts_of(length: u32, acked: u32, tries: u32, waits: bool) -> Option<FeedFacts> {
    Some(FeedFacts {
        length,
        acked,
        tries,
        waits,
    })
}

fn span_of(subscriber: Name, first: Moment, last: Moment) -> Span {
    Span {
        subscriber,
        first,
        last,
    }
}

fn now_of(subscriber: Name, k: u32) -> Ready {
    Ready::Now { subscriber, k }
}

fn later_at(next: Option<Moment>) -> Ready {
    Ready::Later { next }
}

/// The numbers at the places 0, 1 and 2 of a feed, whose first place is 1.
fn numbers_of(queue: &Queue, subscriber: &Name) -> [Option<u32>; 3] {
    [
        queue.number(subscriber, 0),
        queue.number(subscriber, 1),
        queue.number(subscriber, 2),
    ]
}

#[test]
fn rows_are_in_the_order_of_releases(rt: HostRuntime) {
    let [alpha, beta, gamma] = three(&rt);
    let mut queue = queue_of(rt.alloc(), alpha, beta).expect(&rt, "memory");
    let is_in_order = queue.names() == [alpha, beta].as_slice();
    let has_room = [
        publish(&mut queue, 1, 2000, alpha),
        publish(&mut queue, 2, 1000, alpha),
    ];
    let waits = [queue.waits_until(999), queue.waits_until(1000)];
    let at_first = queue.facts(&alpha);
    queue.advance(1500);
    let between = (numbers_of(&queue, &alpha), queue.facts(&alpha));
    queue.advance(2000);
    let numbers = [numbers_of(&queue, &alpha), numbers_of(&queue, &gamma)];
    let facts = [queue.facts(&alpha), queue.facts(&beta), queue.facts(&gamma)];
    drop(queue);
    assert_eq!(rt;
        (is_in_order, has_room, waits, at_first),
        (true, [true; 2], [false, true], facts_of(0, 0, 0, true))
    );
    assert_eq!(rt; between, ([None, Some(2), None], facts_of(1, 0, 0, true)));
    assert_eq!(rt; numbers, [[None, Some(2), Some(1)], [None; 3]]);
    assert_eq!(rt;
        facts,
        [facts_of(2, 0, 0, false), facts_of(0, 0, 0, false), None]
    );
}

#[test]
fn equal_releases_are_in_the_order_of_numbers(rt: HostRuntime) {
    let [alpha, beta, _] = three(&rt);
    let mut queue = queue_of(rt.alloc(), alpha, beta).expect(&rt, "memory");
    let has_room = [
        publish(&mut queue, 1, 3000, beta),
        publish(&mut queue, 2, 3000, beta),
        publish(&mut queue, 3, 3000, beta),
        publish_to_none(&mut queue, 4, 4000),
    ];
    queue.advance(3000);
    let numbers = [
        queue.number(&beta, 1),
        queue.number(&beta, 2),
        queue.number(&beta, 3),
    ];
    // What is due to nobody waits all the same.
    let waits = [queue.waits_until(3999), queue.waits_until(4000)];
    drop(queue);
    assert_eq!(rt;
        (has_room, numbers, waits),
        ([true; 4], [Some(1), Some(2), Some(3)], [false, true])
    );
}

const CLAIMS: &[Moment] = &[
    1000, 1060, 1180, 1420, 1900, 2860, 4780, 8380, 11_980, 15_580,
];

/// Attempts are made at these moments, for each of which the feed waits to the second: the first for which it does not.
fn first_early(
    queue: &mut Queue,
    names: &[Name],
    alpha: Name,
    moments: &[Moment],
) -> Option<Moment> {
    for moment in moments {
        if queue.next_ready(names, moment.saturating_sub(1)) != later_at(Some(*moment))
            || queue.next_ready(names, *moment) != now_of(alpha, 1)
        {
            return Some(*moment);
        }
        attempt(queue, &alpha, *moment);
    }
    None
}

#[test]
fn attempts_wait_longer_and_longer(rt: HostRuntime) {
    let [alpha, beta, gamma] = three(&rt);
    let mut queue = queue_of(rt.alloc(), alpha, beta).expect(&rt, "memory");
    let is_idle = queue.next_ready(&[alpha, beta], 500) == later_at(None);
    let has_room = publish(&mut queue, 1, 1000, alpha);
    let waits = queue.next_ready(&[alpha, beta], 500) == later_at(Some(1000));
    queue.advance(1000);
    let early = first_early(&mut queue, &[gamma, beta, alpha], alpha, CLAIMS);
    drop(queue);
    assert_eq!(rt; (is_idle, has_room, waits, early), (true, true, true, None));
}

/// A queue whose first subscriber had ten attempts at its one publication, and has another one that waits.
fn paused(alloc: Global, alpha: Name, beta: Name) -> Result<Queue, Memory> {
    let mut queue = queue_of(alloc, alpha, beta)?;
    let has_first = publish(&mut queue, 1, 1000, alpha);
    queue.advance(1000);
    for moment in CLAIMS {
        attempt(&mut queue, &alpha, *moment);
    }
    if has_first && publish(&mut queue, 2, 50_000, alpha) {
        Ok(queue)
    } else {
        drop(queue);
        Err(Memory)
    }
}

// Paused, also where something waits for it.
#[test]
fn a_paused_feed_is_resumed(rt: HostRuntime) {
    let [alpha, beta, _] = three(&rt);
    let mut queue = paused(rt.alloc(), alpha, beta).expect(&rt, "memory");
    let before = queue.facts(&alpha);
    let is_paused = queue.next_ready(&[alpha], 30_000) == later_at(None);
    queue.resume(&alpha);
    let resumed = queue.facts(&alpha);
    let is_ready = queue.next_ready(&[alpha], 30_000) == now_of(alpha, 1);
    attempt(&mut queue, &alpha, 30_000);
    let is_later = queue.next_ready(&[alpha], 30_059) == later_at(Some(30_060));
    queue.receipt(&alpha, 1);
    let facts = [before, resumed, queue.facts(&alpha)];
    let is_last = queue.next_ready(&[alpha], 30_060) == later_at(Some(50_000));
    drop(queue);
    assert_eq!(rt; [is_paused, is_ready, is_later, is_last], [true; 4]);
    assert_eq!(rt;
        facts,
        [
            facts_of(1, 0, 10, true),
            facts_of(1, 0, 0, true),
            facts_of(1, 1, 0, true),
        ]
    );
}

#[test]
fn the_earlier_feed_comes_first(rt: HostRuntime) {
    let [alpha, beta, _] = three(&rt);
    let mut queue = queue_of(rt.alloc(), alpha, beta).expect(&rt, "memory");
    let has_room = [
        publish(&mut queue, 1, 1000, beta),
        publish(&mut queue, 2, 1000, alpha),
    ];
    queue.advance(1000);
    let at_first = [
        queue.next_ready(&[beta, alpha], 1000) == now_of(alpha, 1),
        queue.next_ready(&[beta], 1000) == now_of(beta, 1),
    ];
    attempt(&mut queue, &alpha, 1000);
    let behind = [
        queue.next_ready(&[beta, alpha], 1060) == now_of(beta, 1),
        queue.next_ready(&[alpha], 1059) == later_at(Some(1060)),
    ];
    drop(queue);
    assert_eq!(rt; [has_room, at_first, behind], [[true; 2]; 3]);
}

#[test]
fn what_is_withdrawn_is_never_released(rt: HostRuntime) {
    let [alpha, beta, _] = three(&rt);
    let mut queue = queue_of(rt.alloc(), alpha, beta).expect(&rt, "memory");
    let has_room = [
        publish(&mut queue, 1, 2000, alpha),
        publish(&mut queue, 2, 2000, alpha),
        publish(&mut queue, 3, 2000, alpha),
    ];
    queue.withdraw(2, 2000, &[span_of(alpha, 2000, 2000)]);
    queue.advance(2000);
    let numbers = [queue.number(&alpha, 1), queue.number(&alpha, 2)];
    let facts = queue.facts(&alpha);
    drop(queue);
    assert_eq!(rt;
        (has_room, numbers, facts),
        ([true; 3], [Some(1), Some(3)], facts_of(2, 0, 0, false))
    );
}

#[test]
fn a_lag_lets_a_subscriber_wait(rt: HostRuntime) {
    let [alpha, beta, _] = three(&rt);
    let mut queue = queue_of(rt.alloc(), alpha, beta).expect(&rt, "memory");
    queue.advance(1000);
    let has_room = publish_to_both(&mut queue, 1, 1000, (alpha, 1000), (beta, 1600));
    let at_first = [queue.facts(&alpha), queue.facts(&beta)];
    let waits = [queue.waits_until(1599), queue.waits_until(1600)];
    let before = [
        queue.next_ready(&[alpha, beta], 1000) == now_of(alpha, 1),
        queue.next_ready(&[beta], 1000) == later_at(Some(1600)),
    ];

    // It may be pushed from its release for the subscriber on.
    queue.advance(1600);
    let facts = queue.facts(&beta);
    let behind = [
        queue.next_ready(&[beta], 1599) == later_at(Some(1600)),
        queue.next_ready(&[beta], 1600) == now_of(beta, 1),
    ];
    let ever = queue.waits_until(LAST_MOMENT);
    drop(queue);
    assert_eq!(rt;
        (at_first, facts),
        (
            [facts_of(1, 0, 0, false), facts_of(0, 0, 0, true)],
            facts_of(1, 0, 0, false)
        )
    );
    assert_eq!(rt; (has_room, waits, ever), (true, [false, true], false));
    assert_eq!(rt; [before, behind], [[true; 2]; 2]);
}

#[test]
fn its_own_release_comes_before_a_lag(rt: HostRuntime) {
    let [alpha, beta, _] = three(&rt);
    let mut queue = queue_of(rt.alloc(), alpha, beta).expect(&rt, "memory");
    let has_room = publish_later(&mut queue, 1, 1000, alpha, 1600);
    let waits = queue.waits_until(1000);
    queue.advance(1000);
    let later = [queue.waits_until(1599), queue.waits_until(1600)];
    let facts = queue.facts(&alpha);
    drop(queue);
    assert_eq!(rt;
        (has_room, waits, later, facts),
        (true, true, [false, true], facts_of(0, 0, 0, true))
    );
}

#[test]
fn a_kill_takes_back_what_was_not_given(rt: HostRuntime) {
    let [alpha, beta, _] = three(&rt);
    let mut queue = queue_of(rt.alloc(), alpha, beta).expect(&rt, "memory");
    queue.advance(1000);
    let has_room = [
        publish_to_both(&mut queue, 1, 1000, (alpha, 1000), (beta, 1600)),
        publish_later(&mut queue, 2, 1000, beta, 1700),
    ];
    queue.advance(1300);
    queue.take_back(
        &[1],
        &[span_of(alpha, 1000, 1000), span_of(beta, 1600, 1600)],
    );
    let has_more = publish(&mut queue, 3, 1300, alpha);
    let first = queue.facts(&alpha);
    // What is of another item still waits.
    let waits = queue.waits_until(1699);
    queue.advance(1700);
    let facts = [first, queue.facts(&beta)];
    let numbers = [
        queue.number(&alpha, 1),
        queue.number(&alpha, 2),
        queue.number(&beta, 1),
    ];
    drop(queue);
    assert_eq!(rt; (has_room, has_more, waits), ([true; 2], true, false));
    assert_eq!(rt; facts, [facts_of(2, 0, 0, false), facts_of(1, 0, 0, false)]);
    assert_eq!(rt; numbers, [Some(1), Some(3), Some(2)]);
}

#[test]
fn one_subscriber_waits_no_more(rt: HostRuntime) {
    let [alpha, beta, gamma] = three(&rt);
    let mut queue = queue_of(rt.alloc(), alpha, beta).expect(&rt, "memory");
    let has_room = publish_to_both(&mut queue, 1, 1000, (alpha, 2000), (beta, 2000));
    queue.withdraw_for(&beta, 1, 2000);
    queue.withdraw_for(&gamma, 1, 2000);
    let facts = [queue.facts(&alpha), queue.facts(&beta)];
    let waits = queue.waits_until(1000);
    queue.withdraw_for(&alpha, 1, 2000);
    queue.advance(1000);
    let ever = queue.waits_until(LAST_MOMENT);
    drop(queue);
    assert_eq!(rt; (has_room, waits, ever), (true, true, false));
    assert_eq!(rt; facts, [facts_of(0, 0, 0, true), facts_of(0, 0, 0, false)]);
}

#[test]
fn what_fits_no_place_is_refused(rt: HostRuntime) {
    let [alpha, beta, _] = three(&rt);
    let mut queue = queue_of(rt.alloc(), alpha, beta).expect(&rt, "memory");
    let fits = [
        publish(&mut queue, 67_108_863, 2000, alpha),
        publish(&mut queue, 67_108_864, 1000, alpha),
        publish(&mut queue, 0, 1000, alpha),
        publish_later(&mut queue, 1, 1000, alpha, 274_877_906_944),
    ];

    // The queue stands as it was.
    let waits = queue.waits_until(1999);
    queue.advance(2000);
    let facts = queue.facts(&alpha);
    let number = queue.number(&alpha, 1);
    drop(queue);
    assert_eq!(rt; (fits, waits), ([true, false, false, false], false));
    assert_eq!(rt;
        (facts, number),
        (facts_of(1, 0, 0, false), Some(67_108_863))
    );
}
