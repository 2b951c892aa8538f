//! What changes the entries of a feed, and what is read of them.
ghost use Rattle.std.specs.Prelude.{◌≡◌, ◌+◌, ◌≤◌, List, [], ◌∷◌, ◌++◌, map, IfSome, OnOk, vec_len, vec_capacity, slice_get};
ghost use Rattle.news_types.specs.Feeds.{Dispatch};
ghost use Rattle.publish_queue.specs.Places.{HasPlaces, KeepsPlaces};
ghost use Rattle.publish_queue.specs.Steps.{HasEntries};
ghost use Rattle.publish_queue.specs.Keeps.{number_of, moment_of};
ghost use Rattle.publish_queue.specs.Found.{AreInRow, Finds};

use crate::release::Release;
use crate::row::Row;
use news_types::Moment;
use std::alloc::{AllocError, Global};

impl Row {
    /// Without an entry.
    pub fn new(alloc: Global) -> Row
        ensures numbers { result.numbers.items ≡ [] }
        ensures releases { result.releases.items ≡ [] }
    {
        Row {
            numbers: Vec::new(alloc),
            releases: Vec::new(alloc),
        }
    }

    /// Takes the memory for so many more.
    pub fn reserve(&mut self, count: usize) -> Result<(), AllocError>
        ensures numbers { self.new.numbers.items ≡ self.old.numbers.items }
        ensures releases { self.new.releases.items ≡ self.old.releases.items }
        ensures places { KeepsPlaces self.old self.new }
        ensures ok { OnOk result (HasPlaces count self.new) }
    {
        self.numbers.reserve(count)?;
        self.releases.reserve(count)
    }

    /// Puts one more entry behind the others. It takes no memory.
    pub fn push(&mut self, release: Release)
        requires { HasPlaces 1 self.old }
        ensures numbers { self.new.numbers.items ≡ self.old.numbers.items ++ release.number ∷ [] }
        ensures releases { self.new.releases.items ≡ self.old.releases.items ++ release.moment ∷ [] }
        ensures len { vec_len self.new.numbers ≡ vec_len self.old.numbers + 1 }
        ensures capacity { (vec_capacity self.old.numbers ≤ vec_capacity self.new.numbers) × (vec_capacity self.old.releases ≤ vec_capacity self.new.releases) }
    {
        self.numbers.push_reserved(release.number);
        self.releases.push_reserved(release.moment);
    }

    /// How many entries there are.
    pub fn len(&self) -> usize
        ensures { result ≡ vec_len self.now.numbers }
    {
        self.numbers.len()
    }

    /// The number of the publication at a place, from 0.
    pub fn number_at(&self, index: usize) -> Option<u32>
        ensures { result ≡ slice_get self.now.numbers.items index }
    {
        self.numbers.get(index).copied()
    }

    /// The release at a place, from 0.
    pub fn release_at(&self, index: usize) -> Option<Moment>
        ensures { result ≡ slice_get self.now.releases.items index }
    {
        self.releases.get(index).copied()
    }

    /// The entry of that number and that release, counted from 1. It is looked for among those of the release alone, and
    /// found where the entries are in order of release and then number.
    pub fn entry(&self, number: u32, release: Moment) -> Option<usize>
        ensures within { IfSome result (λ k. k ≤ vec_len self.now.numbers) }
        ensures found { (ds : List Dispatch) → HasEntries self.now (map number_of ds) (map moment_of ds) → AreInRow ds
            → Finds number release ds result }
    {
        let first = self.releases.partition_point(|other| *other < release);
        let count = self.releases[first..].partition_point(|other| *other <= release);
        let at = self.numbers[first..first + count]
            .binary_search(&number)
            .ok()?;
        Some(first + at + 1)
    }
}
