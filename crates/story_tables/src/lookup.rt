//! Publications by their numbers, and by their places in feeds.
ghost use Rattle.std.specs.Prelude.{◌≡◌, true, IfOk, option_map};
ghost use Rattle.std.specs.Option.{option_copied};
ghost use Rattle.news_types.specs.Names.{is_in};
ghost use Rattle.news_types.specs.History.{History};
ghost use Rattle.news_types.specs.Products.{subscribers};
ghost use Rattle.news_types.specs.Due.{shown};
ghost use Rattle.news_types.specs.Publications.{pubs};
ghost use Rattle.news_types.specs.Feeds.{feed};
ghost use Rattle.news_types.specs.Frames.{numbered};
ghost use Rattle.news_types.specs.Answers.{publication_at, last_of, number_of};
ghost use Rattle.story_tables.specs.Keeps.{KeepsStories};
ghost use Rattle.story_tables.specs.Pages.{publication_of, shown_in};

use crate::stories::Stories;
use news_types::{Memory, Name, Publication};
use publications::Published;

impl Stories {
    /// The publication of that number, if it is there.
    pub fn publication(&self, number: u32) -> Result<Option<Publication>, Memory>
        ensures { IfOk result (λ told. (h : History) → KeepsStories self.now h → told ≡ option_map shown (publication_at number (pubs h))) }
    {
        let Some(published) = self.publications.published(number) else {
            return Ok(None);
        };
        let publication = copied(number, published)?;
        Ok(Some(publication))
    }

    /// What is kept of the publication of that number, if it is there. Nothing is copied.
    pub fn published(&self, number: u32) -> Option<&Published>
        ensures { (h : History) → KeepsStories self.now h → option_map (publication_of number) (option_copied result) ≡ option_map shown (publication_at number (pubs h)) }
    {
        self.publications.published(number)
    }

    /// The publication at place `k` of a feed, if so many are there.
    pub fn dispatched(&self, subscriber: &Name, k: u32) -> Result<Option<Publication>, Memory>
        ensures { IfOk result (λ told. (h : History) → KeepsStories self.now h → is_in subscriber.now (subscribers h) ≡ true
            → told ≡ option_map shown_in (numbered (feed h subscriber.now) k)) }
    {
        let Some(number) = self.queue.number(subscriber, k) else {
            return Ok(None);
        };
        let publication = self.publication(number)?;
        Ok(publication)
    }

    /// The number of the newest publication of the item whose number is below this one, or 0. It takes no memory.
    pub fn last_of(&self, item: u32, below: u32) -> u32
        ensures { (h : History) → KeepsStories self.now h → result ≡ number_of (last_of item below (pubs h)) }
    {
        self.publications.last_of(item, below)
    }
}

/// The publication of that number, with a story of its own.
fn copied(number: u32, published: &Published) -> Result<Publication, Memory>
    ensures { IfOk result (λ told. told ≡ publication_of number published.now) }
{
    Ok(Publication {
        number,
        item: published.item,
        version: published.version,
        kind: published.kind,
        story: published.story.as_story().copy()?,
        release: published.release,
    })
}
