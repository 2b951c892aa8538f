//! Items and feeds as questions read them. Nothing here takes memory.
ghost use Rattle.std.specs.Prelude.{◌≡◌, ◌≤◌, Some, None, if◌then◌else◌, option_map};
ghost use Rattle.std.specs.Option.{option_copied};
ghost use Rattle.news_types.specs.Names.{is_in};
ghost use Rattle.news_types.specs.History.{History, moment as last_moment};
ghost use Rattle.news_types.specs.Products.{subscribers};
ghost use Rattle.news_types.specs.Legal.{IsLegal};
ghost use Rattle.news_types.specs.Due.{had};
ghost use Rattle.news_types.specs.Publications.{pubs, standing, item_count};
ghost use Rattle.news_types.specs.Publications as published;
ghost use Rattle.news_types.specs.Feeds.{feed};
ghost use Rattle.news_types.specs.Delivery.{next_entry};
ghost use Rattle.news_types.specs.Answers.{in_order};
ghost use Rattle.feed_reasons.specs.Courses.{numbered, due_of, place};
ghost use Rattle.publications.specs.Numbers.{numbers_of};
ghost use Rattle.publish_queue.specs.Found.{Finds};
ghost use Rattle.story_tables.specs.Keeps.{KeepsStories, HasPlace};
ghost use Rattle.story_tables.specs.Views.{version_in, story_in, release_in, is_due_among};

use crate::stories::Stories;
use news_types::{Due, Moment, Name, Story};

impl Stories {
    /// How many items there are.
    pub fn item_count(&self) -> u32
        requires { HasPlace self.now }
        ensures { (h : History) → KeepsStories self.now h → result ≡ item_count h }
    {
        self.items.len() as u32
    }

    /// The version of an item, if it is there.
    pub fn version(&self, item: u32) -> Option<u32>
        ensures { (h : History) → KeepsStories self.now h → result ≡ option_map version_in (published.item h item) }
    {
        let facts = self.items.facts(item)?;
        Some(facts.version)
    }

    /// The story of an item, if it is there. Nothing is copied.
    pub fn story(&self, item: u32) -> Option<&Story>
        ensures { (h : History) → KeepsStories self.now h → option_copied result ≡ option_map story_in (published.item h item) }
    {
        let shared = self.items.story(item)?;
        Some(shared.as_story())
    }

    /// Whether a standing publication of the item is due to the subscriber.
    pub fn had(&self, item: u32, subscriber: &Name) -> bool
        ensures { (h : History) → KeepsStories self.now h → result ≡ had (standing h) item subscriber.now }
    {
        is_due_among(subscriber, self.publications.soonest(item))
    }

    /// The release for the subscriber of the first entry of its feed that is not acknowledged. Nothing where the subscriber
    /// is not there, or has acknowledged its whole feed.
    pub fn oldest(&self, subscriber: &Name) -> Option<Moment>
        ensures { (h : History) → KeepsStories self.now h →
            result ≡ (if is_in subscriber.now (subscribers h) then option_map release_in (next_entry h subscriber.now) else None) }
    {
        let facts = self.queue.facts(subscriber)?;
        if facts.acked < facts.length {
            return self.queue.release(subscriber, facts.acked + 1);
        }
        None
    }

    /// The entry, counted from 1, with which the feed of a subscriber has the publication of that number, with that release
    /// for it. Nothing where the feed has no such entry, or the subscriber is not there.
    ///
    /// Of a publication that stands for the subscriber, and was released to it, it is the place in the feed.
    pub fn entry(&self, subscriber: &Name, number: u32, release: Moment) -> Option<u32>
        ensures found { (h : History) → KeepsStories self.now h → Finds number release (feed h subscriber.now) result }
        ensures stands { (h : History) → KeepsStories self.now h
            → due_of subscriber.now (numbered number (standing h)) ≡ Some release → release ≤ last_moment h
            → result ≡ Some (place h subscriber.now number) }
    {
        self.queue.entry(subscriber, number, release)
    }

    /// The numbers of an item's publications, in order, with those that were withdrawn.
    pub fn numbers(&self, item: u32) -> &[u32]
        ensures { (h : History) → KeepsStories self.now h → result.now ≡ numbers_of item (pubs h) }
    {
        self.publications.numbers(item)
    }

    /// The subscribers, in byte order.
    pub fn subscribers(&self) -> &[Name]
        ensures { (h : History) → KeepsStories self.now h → IsLegal h → result.now ≡ in_order (subscribers h) }
    {
        self.queue.names()
    }
}

/// Whether one of these is due to the subscriber.
fn is_due_among(subscriber: &Name, due: &[Due]) -> bool
    ensures { result ≡ is_due_among subscriber.now due.now }
{
    due.iter().any(|one| *subscriber == one.subscriber)
}
