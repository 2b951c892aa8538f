//! The report on the feeds.
ghost use Rattle.std.specs.Prelude.{◌≡◌, IfOk, None, Some, if◌then◌else◌, option_map};
ghost use Rattle.news_types.specs.Names.{Bytes, is_in};
ghost use Rattle.news_types.specs.History.{History};
ghost use Rattle.news_types.specs.Products.{subscribers};
ghost use Rattle.news_types.specs.Legal.{IsLegal};
ghost use Rattle.news_types.specs.Answers.{queue_rows, in_order};
ghost use Rattle.story_tables.specs.Keeps.{KeepsStories};
ghost use Rattle.story_tables.specs.Reports.{fares, row_by, queue_row};

use crate::stories::Stories;
use news_types::{FeedState, Memory, Name, QueueRow, QueueRows};
use publish_queue::FeedFacts;

/// A feed is paused behind so many tries.
const MOST_TRIES: u32 = 10;

impl Stories {
    /// How each feed fares, in byte order of the subscribers.
    pub fn queue_report(&self) -> Result<QueueRows, Memory>
        ensures { IfOk result (λ rows. (h : History) → KeepsStories self.now h → IsLegal h → rows ≡ queue_rows h (in_order (subscribers h))) }
    {
        let rows = self.report_on(self.queue.names())?;
        Ok(rows)
    }

    // How each of these feeds fares.
    fn report_on(&self, names: &[Name]) -> Result<QueueRows, Memory>
        ensures { IfOk result (λ rows. (h : History) → KeepsStories self.now h → ((s : Bytes) → is_in s names.now ≡ is_in s (subscribers h)) → rows ≡ queue_rows h names.now) }
    {
        let mut rows = Vec::new(self.alloc);
        for name in names.iter() {
            if let Some(row) = self.queue_row(name) {
                rows.push(row)?;
            }
        }
        Ok(QueueRows::of(rows))
    }

    // How the feed of a subscriber fares, if it is there. It takes no memory.
    fn queue_row(&self, subscriber: &Name) -> Option<QueueRow>
        ensures { (h : History) → KeepsStories self.now h → result ≡ (if is_in subscriber.now (subscribers h) then Some (queue_row h subscriber.now) else None) }
    {
        row_by(subscriber, self.queue.facts(subscriber))
    }
}

/// A feed that so stands, in the report.
fn row_by(subscriber: &Name, facts: Option<FeedFacts>) -> Option<QueueRow>
    ensures { result ≡ option_map (row_by subscriber.now) facts }
{
    let facts = facts?;
    Some(QueueRow {
        subscriber: *subscriber,
        length: facts.length,
        acked: facts.acked,
        tries: facts.tries,
        state: fares(facts),
    })
}

/// How a feed fares that so stands.
fn fares(facts: FeedFacts) -> FeedState
    ensures { result ≡ fares facts }
{
    if facts.acked < facts.length {
        if facts.tries == MOST_TRIES {
            return FeedState::Paused;
        }
        if facts.tries == 0 {
            return FeedState::Pending;
        }
        return FeedState::Retrying;
    }
    if facts.waits {
        return FeedState::Waiting;
    }
    FeedState::Success
}
