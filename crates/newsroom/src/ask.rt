//! Questions on the list as it is.
ghost use Rattle.std.specs.Prelude.{◌≡◌, ◌&&◌, ℕ, false, nat_lt, nat_le, IfOk, option_map};
ghost use Rattle.std.specs.Option.{option_copied};
ghost use Rattle.news_types.specs.declared.query.Query.TheVariants as query;
ghost use Rattle.news_types.specs.Names.{Bytes};
ghost use Rattle.news_types.specs.History.{History};
ghost use Rattle.news_types.specs.Due.{shown};
ghost use Rattle.news_types.specs.Publications.{pubs};
ghost use Rattle.news_types.specs.Feeds.{feed};
ghost use Rattle.news_types.specs.Answers.{query_answer, publication_at};
ghost use Rattle.news_types.specs.Frames.{frame_bytes_at};
ghost use Rattle.feed_frames.specs.Writer.{the_writer};
ghost use Rattle.story_tables.specs.Holding.{has_item};
ghost use Rattle.story_tables.specs.Pages.{publication_of};
ghost use Rattle.newsroom.specs.Asking.{asks_frame, item_told, publication_told};
ghost use Rattle.newsroom.specs.Stands.{StandsFor, Stands, store_of};

use crate::newsroom::Newsroom;
use news_types::{Answer, ItemRow, Memory, Name, Publication, Query, Thing};
use publications::Published;

impl Newsroom {
    /// Answers a question on the list as it is. An error is only want of memory.
    pub fn ask(&self, query: &Query) -> Result<Answer, Memory>
        requires stands { Stands self.now }
        ensures answer { IfOk result (λ told. (h : History) → StandsFor self.now h → told ≡ query_answer (frame_bytes_at (the_writer (store_of self.now)) h) h query.now) }
        // only a question for a frame asks how frames are written
        ensures plain { asks_frame query.now ≡ false → IfOk result (λ told. (h : History) (frame : Bytes → ℕ → Bytes) → StandsFor self.now h → told ≡ query_answer frame h query.now) }
    {
        match query {
            Query::Frame { subscriber, k } => self.ask_frame(subscriber, *k),
            _ => self.ask_plain(query),
        }
    }

    /// What is kept of the publication of that number, if it is there. Nothing is copied.
    pub fn published(&self, number: u32) -> Option<&Published>
        ensures { (h : History) → StandsFor self.now h → option_map (publication_of number) (option_copied result) ≡ option_map shown (publication_at number (pubs h)) }
    {
        self.stories.published(number)
    }

    /// Whether the feed of a subscriber has a publication of the item, the last of which is no kill or recall. It takes no
    /// memory.
    pub fn has_item(&self, subscriber: &Name, item: u32) -> bool
        ensures { (h : History) → StandsFor self.now h → result ≡ has_item (feed h subscriber.now) item }
    {
        self.stories.has_item(subscriber, item, self.moment)
    }

    // Answers a question that is none for a frame.
    fn ask_plain(&self, query: &Query) -> Result<Answer, Memory>
        requires stands { Stands self.now }
        requires plain { asks_frame query.now ≡ false }
        ensures { IfOk result (λ told. (h : History) (frame : Bytes → ℕ → Bytes) → StandsFor self.now h → told ≡ query_answer frame h query.now) }
    {
        match query {
            Query::Feed { subscriber, after } => self.ask_feed(subscriber, *after),
            Query::Item { item } => self.ask_item(*item),
            Query::May { user, privilege } => Ok(Answer::May(self.rules.holds(user, *privilege))),
            Query::Queue => self.ask_queue(),
            Query::Check => Ok(self.ask_check()),
            Query::Publication { number } => self.ask_publication(*number),
            Query::LastOf { item, below } => Ok(self.ask_last(*item, *below)),
            Query::Frame { .. } => unreachable!(),
        }
    }

    // The frame of an entry of a feed.
    fn ask_frame(&self, subscriber: &Name, k: u32) -> Result<Answer, Memory>
        requires { Stands self.now }
        ensures { IfOk result (λ told. (h : History) → StandsFor self.now h → told ≡ query_answer (frame_bytes_at (the_writer (store_of self.now)) h) h (query.Frame subscriber.now k)) }
    {
        let Some(facts) = self.stories.feed_facts(subscriber) else {
            return Ok(Answer::Unknown {
                thing: Thing::Subscriber,
            });
        };
        if is_entry(k, facts.length) {
            let frame = self.frame(subscriber, k)?;
            return Ok(Answer::Frame(frame));
        }
        Ok(Answer::NoFrame {
            length: facts.length,
        })
    }

    // A publication.
    fn ask_publication(&self, number: u32) -> Result<Answer, Memory>
        requires { Stands self.now }
        ensures { IfOk result (λ told. (h : History) (frame : Bytes → ℕ → Bytes) → StandsFor self.now h → told ≡ query_answer frame h (query.Publication number)) }
    {
        let publication = self.stories.publication(number)?;
        let count = self.stories.publication_count();
        Ok(publication_told(count, publication))
    }

    // The number of the newest publication of an item below this one.
    fn ask_last(&self, item: u32, below: u32) -> Answer
        ensures { (h : History) (frame : Bytes → ℕ → Bytes) → StandsFor self.now h → result ≡ query_answer frame h (query.LastOf item below) }
    {
        Answer::Number {
            number: self.stories.last_of(item, below),
        }
    }

    // How many entries and publications there are, and the moment of the last entry.
    fn ask_check(&self) -> Answer
        requires { Stands self.now }
        ensures { (h : History) (frame : Bytes → ℕ → Bytes) → StandsFor self.now h → result ≡ query_answer frame h query.Check }
    {
        Answer::Check {
            entries: self.entries,
            moment: self.moment,
            publications: self.stories.publication_count(),
        }
    }

    // A page of a feed.
    fn ask_feed(&self, subscriber: &Name, after: u32) -> Result<Answer, Memory>
        ensures { IfOk result (λ told. (h : History) (frame : Bytes → ℕ → Bytes) → StandsFor self.now h → told ≡ query_answer frame h (query.Feed subscriber.now after)) }
    {
        let Some(facts) = self.stories.feed_facts(subscriber) else {
            return Ok(Answer::Unknown {
                thing: Thing::Subscriber,
            });
        };
        let entries = self.stories.page(subscriber, after, facts.length)?;
        Ok(Answer::Feed {
            subscriber: *subscriber,
            length: facts.length,
            entries,
        })
    }

    // How each feed fares.
    fn ask_queue(&self) -> Result<Answer, Memory>
        ensures { IfOk result (λ told. (h : History) (frame : Bytes → ℕ → Bytes) → StandsFor self.now h → told ≡ query_answer frame h query.Queue) }
    {
        Ok(Answer::Queue(self.stories.queue_report()?))
    }

    // An item as it stands at the moment of the last entry.
    fn ask_item(&self, item: u32) -> Result<Answer, Memory>
        ensures { IfOk result (λ told. (h : History) (frame : Bytes → ℕ → Bytes) → StandsFor self.now h → told ≡ query_answer frame h (query.Item item)) }
    {
        let place = self.rules.place(item);
        let holder = self.rules.holder(item);
        let row = self.stories.item_row(item, self.moment, place, holder)?;
        Ok(item_told(row))
    }
}

/// Whether a feed of that length has an entry `k`.
fn is_entry(k: u32, length: u32) -> bool
    ensures { result ≡ (nat_lt 0 k && nat_le k length) }
{
    0 < k && k <= length
}

/// What is answered of an item, if it is there.
fn item_told(row: Option<ItemRow>) -> Answer
    ensures { result ≡ item_told row }
{
    match row {
        Some(row) => Answer::Item(row),
        None => Answer::Unknown { thing: Thing::Item },
    }
}

/// What is answered of a publication, if it is there, where there are so many.
fn publication_told(count: u32, publication: Option<Publication>) -> Answer
    ensures { result ≡ publication_told count publication }
{
    match publication {
        Some(publication) => Answer::Publication(publication),
        None => Answer::NoPublication { count },
    }
}
