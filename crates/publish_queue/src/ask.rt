//! What a queue answers of its feeds.
ghost use Rattle.std.specs.Prelude.{◌≡◌, None, if◌then◌else◌};
ghost use Rattle.std.specs.Option.{option_map};
ghost use Rattle.news_types.specs.Names.{Bytes, is_in, AreInOrder};
ghost use Rattle.news_types.specs.Feeds.{feed_of};
ghost use Rattle.news_types.specs.Frames.{numbered};
ghost use Rattle.publish_queue.specs.Keeps.{Facts, Keeps, number_of, moment_of};
ghost use Rattle.publish_queue.specs.Facts.{facts_of};
ghost use Rattle.publish_queue.specs.Found.{Finds, NewestFirst};

use crate::queue::Queue;
use news_types::{Moment, Name};

/// How a feed stands.
#[derive(Clone, Copy, Debug, PartialEq, Eq)]
pub struct FeedFacts {
    /// So many entries it has.
    pub length: u32,
    /// So many of them were acknowledged.
    pub acked: u32,
    /// The attempts since then, or since the feed was resumed.
    pub tries: u32,
    /// Whether a publication waits that is due to the subscriber.
    pub waits: bool,
}

impl Queue {
    /// The subscribers, in byte order.
    pub fn names(&self) -> &[Name]
        ensures members { (f : Facts) → Keeps self.now f → (s : Bytes) → is_in s result.now ≡ is_in s f.names }
        ensures ascends { AreInOrder result.now }
    {
        &self.feeds.names
    }

    /// The publication number of an entry of a feed, counted from 1. Nothing where the subscriber or
    /// the entry is not there.
    pub fn number(&self, subscriber: &Name, k: u32) -> Option<u32>
        ensures { (f : Facts) → Keeps self.now f →
            result ≡ (if is_in subscriber.now f.names then option_map number_of (numbered (feed_of f.publications f.moment subscriber.now) k) else None) }
    {
        let at = self.feeds.find(subscriber)?;
        let index = k.checked_sub(1)? as usize;
        self.feeds.feeds[at].row.number_at(index)
    }

    /// The release of an entry of a feed for the subscriber, counted from 1. Nothing where the subscriber
    /// or the entry is not there.
    pub fn release(&self, subscriber: &Name, k: u32) -> Option<Moment>
        ensures { (f : Facts) → Keeps self.now f →
            result ≡ (if is_in subscriber.now f.names then option_map moment_of (numbered (feed_of f.publications f.moment subscriber.now) k) else None) }
    {
        let at = self.feeds.find(subscriber)?;
        let index = k.checked_sub(1)? as usize;
        self.feeds.feeds[at].row.release_at(index)
    }

    /// The entry, counted from 1, with which the feed of a subscriber has the publication of that number, with that release
    /// for it. Nothing where the feed has no such entry, or the subscriber is not there.
    pub fn entry(&self, subscriber: &Name, number: u32, release: Moment) -> Option<u32>
        ensures { (f : Facts) → Keeps self.now f → NewestFirst f.publications →
            Finds number release (feed_of f.publications f.moment subscriber.now) result }
    {
        let at = self.feeds.find(subscriber)?;
        let k = self.feeds.feeds[at].row.entry(number, release)?;
        Some(k as u32)
    }

    /// How the feed of a subscriber stands. Nothing where the subscriber is not there.
    pub fn facts(&self, subscriber: &Name) -> Option<FeedFacts>
        ensures { (f : Facts) → Keeps self.now f →
            result ≡ (if is_in subscriber.now f.names then Some (facts_of f subscriber.now) else None) }
    {
        let at = self.feeds.find(subscriber)?;
        let feed = &self.feeds.feeds[at];
        Some(FeedFacts {
            length: feed.row.len() as u32,
            acked: feed.delivery.acked,
            tries: feed.delivery.tries,
            waits: feed.waiting.next().is_some(),
        })
    }
}
