//! What the tables are asked.
ghost use Rattle.std.specs.Prelude.{◌≡◌, Some, None, if◌then◌else◌, is_some, length, IfOk, option_map};
ghost use Rattle.std.specs.List.{list_all};
ghost use Rattle.news_types.specs.Names.{is_in};
ghost use Rattle.news_types.specs.History.{History};
ghost use Rattle.news_types.specs.Products.{subscribers, is_subscriber};
ghost use Rattle.news_types.specs.Due.{standing_first, release_of};
ghost use Rattle.news_types.specs.Publications.{standing, state};
ghost use Rattle.news_types.specs.Delivery.{is_paused};
ghost use Rattle.news_types.specs.Denial.{items_full, pubs_full};
ghost use Rattle.story_tables.specs.Keeps.{KeepsStories, HasPlace, facts_at};
ghost use Rattle.news_types.specs.Items as items;
ghost use Rattle.news_types.specs.Publications as published;
ghost use Rattle.story_tables.specs.Asked.{pauses_at, row_in};

use crate::stories::Stories;
use item_commands::state_at;
use news_types::{Denial, Holder, ItemRow, Memory, Moment, Name, Place, State, Thing};
use publish_queue::FeedFacts;

/// How many items there may be, and how many publications.
const MOST: u32 = 262_144;

/// A feed is paused behind so many tries.
const MOST_TRIES: u32 = 10;

impl Stories {
    /// The state of an item at a moment, if it is there. It takes no memory.
    pub fn state(&self, item: u32, moment: Moment) -> Option<State>
        ensures { (h : History) → KeepsStories self.now h → result ≡ state h item moment }
    {
        let facts = self.items.facts(item)?;
        Some(state_at(moment, self.publications.first(item), facts.state))
    }

    /// What is told of an item at a moment, beside this place and this holder, if it is there.
    pub fn item_row(
        &self,
        item: u32,
        moment: Moment,
        place: Option<Place>,
        holder: Option<Holder>,
    ) -> Result<Option<ItemRow>, Memory>
        ensures { IfOk result (λ row. (h : History) → KeepsStories self.now h → row ≡ option_map (row_in h item moment place holder) (published.item h item)) }
    {
        let Some(facts) = self.items.facts(item) else {
            return Ok(None);
        };
        let Some(story) = self.items.story(item) else {
            return Ok(None);
        };
        let story = story.as_story().copy()?;
        Ok(Some(ItemRow {
            item,
            state: state_at(moment, self.publications.first(item), facts.state),
            version: facts.version,
            story,
            place,
            holder,
        }))
    }

    /// How many publications there are, with those that were withdrawn. It takes no memory.
    pub fn publication_count(&self) -> u32
        requires { HasPlace self.now }
        ensures { (h : History) → KeepsStories self.now h → result ≡ length (published.pubs h) }
    {
        self.publications.len() as u32
    }

    /// The release of an item's standing first publication, 0 where there is none. It takes no memory.
    pub fn release(&self, item: u32) -> Moment
        ensures { (h : History) → KeepsStories self.now h → result ≡ release_of (standing_first item (standing h)) }
    {
        match self.publications.first(item) {
            Some(first) => first.release,
            None => 0,
        }
    }

    /// How the feed of a subscriber stands, if it is there. It takes no memory.
    pub fn feed_facts(&self, subscriber: &Name) -> Option<FeedFacts>
        ensures { (h : History) → KeepsStories self.now h → result ≡ (if is_in subscriber.now (subscribers h) then Some (facts_at h subscriber.now) else None) }
    {
        self.queue.facts(subscriber)
    }

    /// Whether the feed of a subscriber is paused, if it is there. It takes no memory.
    pub fn is_paused(&self, subscriber: &Name) -> Option<bool>
        ensures { (h : History) → KeepsStories self.now h → result ≡ (if is_in subscriber.now (subscribers h) then Some (is_paused h subscriber.now) else None) }
    {
        paused_by(self.queue.facts(subscriber))
    }

    /// Whether the subscriber has a feed, and so is there. It takes no memory.
    fn has_feed(&self, subscriber: &Name) -> bool
        ensures { (h : History) → KeepsStories self.now h → result ≡ is_subscriber h subscriber.now }
    {
        is_told(self.queue.facts(subscriber))
    }

    /// Whether each of the subscribers is there. It takes no memory.
    pub fn has_feeds(&self, subscribers: &[Name]) -> bool
        ensures { (h : History) → KeepsStories self.now h → result ≡ list_all (is_subscriber h) subscribers.now }
    {
        for name in subscribers.iter() {
            if !self.has_feed(name) {
                return false;
            }
        }
        true
    }

    /// That there are too many items for one more. It takes no memory.
    pub fn items_full(&self) -> Option<Denial>
        ensures { (h : History) → KeepsStories self.now h → result ≡ items_full h }
    {
        Denial::unless_below(Thing::Item, self.items.len(), MOST)
    }

    /// That there are too many publications for one more. It takes no memory.
    pub fn publications_full(&self) -> Option<Denial>
        ensures { (h : History) → KeepsStories self.now h → result ≡ pubs_full h }
    {
        Denial::unless_below(Thing::Publication, self.publications.len(), MOST)
    }
}

fn is_told(facts: Option<FeedFacts>) -> bool
    ensures { result ≡ is_some facts }
{
    facts.is_some()
}

/// Whether a feed that so stands is paused.
fn paused_by(facts: Option<FeedFacts>) -> Option<bool>
    ensures { result ≡ option_map pauses_at facts }
{
    let facts = facts?;
    Some(facts.acked < facts.length && facts.tries == MOST_TRIES)
}
