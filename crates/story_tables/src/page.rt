//! The rows of a feed.
ghost use Rattle.std.specs.Prelude.{◌≡◌, ◌+◌, ℕ, true, IfOk, length, take, drop, option_map};
ghost use Rattle.news_types.specs.Names.{is_in};
ghost use Rattle.news_types.specs.History.{History};
ghost use Rattle.news_types.specs.Products.{subscribers};
ghost use Rattle.news_types.specs.Feeds.{feed};
ghost use Rattle.news_types.specs.Frames.{numbered};
ghost use Rattle.news_types.specs.Answers.{feed_rows};
ghost use Rattle.std.specs.Option.{option_copied};
ghost use Rattle.story_tables.specs.Keeps.{KeepsStories};
ghost use Rattle.story_tables.specs.Pages.{row_of, row_shown};

use crate::stories::Stories;
use news_types::{FeedRow, FeedRows, Memory, Name};
use publications::Published;

/// How many entries of a feed are told at once.
const PAGE: u32 = 100;

impl Stories {
    /// The rows of at most a hundred entries past this one, of a feed that has so many.
    pub fn page(&self, subscriber: &Name, after: u32, count: u32) -> Result<FeedRows, Memory>
        ensures { IfOk result (λ rows. (h : History) → KeepsStories self.now h → is_in subscriber.now (subscribers h) ≡ true → count ≡ length (feed h subscriber.now)
            → rows ≡ feed_rows (after + 1) (take 100 (drop after (feed h subscriber.now)))) }
    {
        let mut rows = Vec::new(self.alloc);
        let end = count.min(after.saturating_add(PAGE));
        for k in after..end {
            if let Some(row) = self.row(subscriber, k + 1) {
                rows.push(row)?;
            }
        }
        Ok(FeedRows::of(rows))
    }

    // The row of entry `k` of a feed, if it is there. It takes no memory.
    fn row(&self, subscriber: &Name, k: u32) -> Option<FeedRow>
        ensures { (h : History) → KeepsStories self.now h → is_in subscriber.now (subscribers h) ≡ true → result ≡ option_map (row_of k) (numbered (feed h subscriber.now) k) }
    {
        let number = self.queue.number(subscriber, k)?;
        row_shown(k, number, self.publications.published(number))
    }
}

/// A publication of that number, if it is there, as entry `k` of a feed.
fn row_shown(k: u32, publication: u32, published: Option<&Published>) -> Option<FeedRow>
    ensures { result ≡ option_map (row_shown k publication) (option_copied published.entry) }
{
    let published = published?;
    Some(FeedRow {
        k,
        item: published.item,
        publication,
        kind: published.kind,
        version: published.version,
        release: published.release,
    })
}
