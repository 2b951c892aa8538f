//! Publications that wait, in the order in which they are released.
ghost use Rattle.std.specs.Prelude.{◌≡◌, ◌+◌, ◌<◌, ◌≤◌, false, [], ◌∷◌, OnOk, MatchOption, slice_get};
ghost use Rattle.std.specs.VecDeque.{deque_len, deque_capacity};
ghost use Rattle.publish_queue.specs.Places.{FitsPlace};
ghost use Rattle.publish_queue.specs.Rows.{placed, left, without, is_between, next_in, live, begins_withdrawn, Rising, rising_prop, FirstIsLater};

use crate::marks::{mark_between, pass_over};
use crate::release::{Awaited, Release};
use news_types::Moment;
use std::alloc::{AllocError, Global};
use std::collections::VecDeque;

/// Releases that are still to come, the earliest first; of those at one moment the one that was added first comes first. What is
/// withdrawn is marked, so that nothing is moved, and passed over when its turn comes.
#[derive(Drop)]
pub struct WaitingList {
    pub releases: VecDeque<Awaited>,
    ghost rising: { Rising releases.items } by { rising_prop releases.items },
    ghost live: { begins_withdrawn releases.items ≡ false },
}

impl WaitingList {
    /// Nothing waits.
    pub fn new(alloc: Global) -> WaitingList
        ensures { live result.releases.items ≡ [] }
    {
        WaitingList {
            releases: VecDeque::new(alloc),
        }
    }

    /// Takes the memory for one more.
    pub fn reserve(&mut self) -> Result<(), AllocError>
        ensures releases { self.new.releases.items ≡ self.old.releases.items }
        ensures len { deque_len self.new.releases ≡ deque_len self.old.releases }
        ensures ok { OnOk result (deque_len self.new.releases < deque_capacity self.new.releases) }
    {
        self.releases.reserve(1)
    }

    /// How many places are taken: by those that wait, and by some that are withdrawn.
    pub fn len(&self) -> usize
        ensures { result ≡ deque_len self.now.releases }
    {
        self.releases.len()
    }

    /// The release that comes next.
    pub fn first(&self) -> Option<Release>
        ensures { result ≡ slice_get (live self.now.releases.items) 0 }
    {
        let first = self.releases.front()?;
        Some(Release {
            moment: first.moment(),
            number: first.number(),
        })
    }

    /// Puts a release behind those that come no later.
    pub fn add(&mut self, release: Release)
        requires room { deque_len self.old.releases < deque_capacity self.old.releases }
        requires fits { FitsPlace release }
        ensures releases { live self.new.releases.items ≡ placed release (live self.old.releases.items) }
        ensures len { deque_len self.new.releases ≡ deque_len self.old.releases + 1 }
        ensures capacity { deque_capacity self.old.releases ≤ deque_capacity self.new.releases }
    {
        let at = self
            .releases
            .partition_point(|other| other.moment() <= release.moment);
        let _ = self.releases.insert(at, Awaited::new(release));
    }

    /// Puts a release behind those that come no later, unless its moment has come.
    pub fn add_later(&mut self, release: Release, moment: Moment)
        requires room { deque_len self.old.releases < deque_capacity self.old.releases }
        requires fits { FitsPlace release }
        ensures out { release.moment ≤ moment → live self.new.releases.items ≡ live self.old.releases.items }
        ensures later { moment < release.moment → live self.new.releases.items ≡ placed release (live self.old.releases.items) }
    {
        if release.moment > moment {
            self.add(release);
        }
    }

    /// Withdraws the releases of publications between two moments. It looks at no others.
    pub fn remove(&mut self, numbers: &[u32], first: Moment, last: Moment)
        ensures releases { live self.new.releases.items ≡ without (is_between numbers.now first last) (live self.old.releases.items) }
        ensures len { deque_len self.new.releases ≤ deque_len self.old.releases }
        ensures capacity { deque_capacity self.new.releases ≡ deque_capacity self.old.releases }
    {
        let from = self
            .releases
            .partition_point(|other| other.moment() < first);
        let to = self
            .releases
            .partition_point(|other| other.moment() <= last);
        mark_between(&mut self.releases, numbers, from, to);
        pass_over(&mut self.releases);
    }

    /// The moment of the release that comes next.
    pub fn next(&self) -> Option<Moment>
        ensures { result ≡ next_in (live self.now.releases.items) }
    {
        Some(self.first()?.moment)
    }

    /// Takes out what is released at the moment.
    pub fn advance(&mut self, moment: Moment)
        ensures releases { live self.new.releases.items ≡ left moment (live self.old.releases.items) }
        ensures len { deque_len self.new.releases ≤ deque_len self.old.releases }
        ensures capacity { deque_capacity self.new.releases ≡ deque_capacity self.old.releases }
    {
        while let Some(_) = self.take_due(moment) {}
    }

    /// Takes out the release that comes next, if its moment has come.
    pub fn take_due(&mut self, moment: Moment) -> Option<Release>
        ensures cases { MatchOption result ((self.new ≡ self.old) × FirstIsLater moment (live self.old.releases.items))
            (λ first. (live self.old.releases.items ≡ first ∷ live self.new.releases.items) × (first.moment ≤ moment) × (deque_len self.new.releases + 1 ≤ deque_len self.old.releases)) }
        ensures capacity { deque_capacity self.new.releases ≡ deque_capacity self.old.releases }
    {
        let first = self.first()?;
        if first.moment > moment {
            return None;
        }
        let _ = self.releases.pop_front();
        pass_over(&mut self.releases);
        Some(first)
    }
}
