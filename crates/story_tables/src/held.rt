//! Which items feeds have.
ghost use Rattle.std.specs.Prelude.{◌≡◌, option_map};
ghost use Rattle.std.specs.Option.{option_copied};
ghost use Rattle.news_types.specs.History.{History, moment as last_moment};
ghost use Rattle.news_types.specs.Legal.{IsLegal};
ghost use Rattle.news_types.specs.Due.{takes_back};
ghost use Rattle.news_types.specs.Publications.{pubs};
ghost use Rattle.news_types.specs.Feeds.{feed};
ghost use Rattle.publications.specs.Keeps.{is_given, shown};
ghost use Rattle.story_tables.specs.Keeps.{KeepsStories};
ghost use Rattle.story_tables.specs.Holding.{has_item, newest_of, took_back};

use crate::stories::Stories;
use news_types::{Due, Kind, Moment, Name};
use publications::Published;

impl Stories {
    /// Whether the feed of a subscriber has a publication of the item, the last of which is no kill or recall, where the moment
    /// is that of the last entry. It takes no memory.
    pub fn has_item(&self, subscriber: &Name, item: u32, moment: Moment) -> bool
        ensures { (h : History) → KeepsStories self.now h → IsLegal h → moment ≡ last_moment h → result ≡ has_item (feed h subscriber.now) item }
    {
        is_given(subscriber, self.publications.soonest(item), moment) && !self.took_back(item)
    }

    // Whether the newest publication of the item is a kill or a recall. It takes no memory.
    fn took_back(&self, item: u32) -> bool
        ensures { (h : History) → KeepsStories self.now h → IsLegal h → result ≡ took_back (newest_of item (pubs h)) }
    {
        match self.newest(item) {
            Some(published) => takes_back(published.kind),
            None => false,
        }
    }

    // What is kept of the newest publication of the item, if there is one. It takes no memory.
    fn newest(&self, item: u32) -> Option<&Published>
        ensures { (h : History) → KeepsStories self.now h → IsLegal h → option_copied result ≡ option_map shown (newest_of item (pubs h)) }
    {
        let number = self.publications.last_of(item, u32::MAX);
        self.publications.published(number)
    }
}

/// Whether one of these is due to the subscriber and released by the moment.
fn is_given(subscriber: &Name, due: &[Due], moment: Moment) -> bool
    ensures { result ≡ is_given moment subscriber.now due.now }
{
    due.iter().any(|one| *subscriber == one.subscriber && one.release <= moment)
}

/// Whether a publication of this kind takes back what it follows.
fn takes_back(kind: Kind) -> bool
    ensures { result ≡ takes_back kind }
{
    match kind {
        Kind::Kill | Kind::Recall => true,
        Kind::First | Kind::Correct => false,
    }
}
