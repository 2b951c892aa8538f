//! Releases that wait are marked as withdrawn, and passed over.
ghost use Rattle.std.specs.Prelude.{◌≡◌, ◌<◌, ◌≤◌, false};
ghost use Rattle.std.specs.VecDeque.{deque_len, deque_capacity};
ghost use Rattle.publish_queue.specs.Rows.{is_among, live, begins_withdrawn, Rising, marked, IsMarked};

use crate::release::Awaited;
use std::collections::VecDeque;

// Whether it is one of these numbers.
fn is_among(number: u32, numbers: &[u32]) -> bool
    ensures { result ≡ is_among number numbers.now }
{
    numbers.iter().any(|other| number == *other)
}

/// Marks those of these numbers from one place up to, not including, another.
pub fn mark_between(releases: &mut VecDeque<Awaited>, numbers: &[u32], from: usize, to: usize)
    requires { to ≤ deque_len releases.old }
    ensures marked { IsMarked numbers.now from to releases.old.items releases.new.items }
    ensures len { deque_len releases.new ≡ deque_len releases.old }
    ensures capacity { deque_capacity releases.new ≡ deque_capacity releases.old }
{
    for at in from..to {
        if is_among(releases[at].number(), numbers) {
            releases[at].withdraw();
        }
    }
}

// Whether the first is withdrawn.
fn begins_withdrawn(releases: &VecDeque<Awaited>) -> bool
    ensures { result ≡ begins_withdrawn releases.now.items }
{
    match releases.front() {
        Some(first) => first.is_withdrawn(),
        None => false,
    }
}

/// Takes out those at the front that are withdrawn.
pub fn pass_over(releases: &mut VecDeque<Awaited>)
    ensures live { live releases.new.items ≡ live releases.old.items }
    ensures begins { begins_withdrawn releases.new.items ≡ false }
    ensures rising { Rising releases.old.items → Rising releases.new.items }
    ensures len { deque_len releases.new ≤ deque_len releases.old }
    ensures capacity { deque_capacity releases.new ≡ deque_capacity releases.old }
{
    while begins_withdrawn(releases) {
        let _ = releases.pop_front();
    }
}
