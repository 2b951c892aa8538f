//! Changes of items, publications and feeds: their memory is taken first, and they are made later without any.
ghost use Rattle.std.specs.Prelude.{◌≡◌};

use crate::feeds::FeedStep;
use item_table::ItemChange;
use news_types::{Moment, Reply};
use publications::PublicationChange;

/// What an entry does to items, publications and feeds, and the reply to it. Dropped, it changes nothing.
#[derive(Drop)]
pub struct Parts {
    pub(crate) moment: Moment,
    pub(crate) reply: Reply,
    pub(crate) items: ItemChange,
    pub(crate) publications: PublicationChange,
    pub(crate) feeds: FeedStep,
}

impl Parts {
    /// The reply to the entry. It takes no memory.
    pub fn reply(&self) -> Reply
        ensures { result ≡ self.now.reply }
    {
        self.reply
    }

    /// The moment of the entry. It takes no memory.
    pub fn moment(&self) -> Moment
        ensures { result ≡ self.now.moment }
    {
        self.moment
    }
}
