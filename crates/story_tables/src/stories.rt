//! The tables of items, publications and feeds.
ghost use Rattle.std.specs.Prelude.{◌≡◌, ◌≤◌, ◌<◌, ◌∷◌, [], ℕ, IfOk, length};
ghost use Rattle.news_types.specs.History.{History, moment as last_moment};
ghost use Rattle.news_types.specs.Publications.{item_count};
ghost use Rattle.news_types.specs.declared.entry.Act.{Act};
ghost use Rattle.news_types.specs.Outcome.{entry_of};
ghost use Rattle.story_tables.specs.Keeps.{KeepsStories};
ghost use Rattle.story_tables.specs.Parts.{HasRoom, IsFor};

use crate::feeds;
use crate::parts::Parts;
use item_table::Items;
use news_types::{Memory, Reply};
use publications::Publications;
use publish_queue::Queue;
use std::alloc::Global;

/// Items, what is published of them, and the feeds.
#[derive(Drop)]
pub struct Stories {
    pub(crate) alloc: Global,
    pub(crate) items: Items,
    pub(crate) publications: Publications,
    pub(crate) queue: Queue,
}

impl Stories {
    /// With nothing in them.
    pub fn new(alloc: Global) -> Result<Stories, Memory>
        ensures { IfOk result (λ stories. KeepsStories stories []) }
    {
        Ok(Stories {
            alloc,
            items: Items::new(alloc)?,
            publications: Publications::new(alloc)?,
            queue: Queue::new(alloc)?,
        })
    }

    /// Makes a change, and tells the reply to its entry. It takes no memory. Nothing may have been kept since the change was
    /// prepared.
    pub fn commit(&mut self, change: Parts) -> Reply
        requires room { HasRoom self.old change }
        requires few { (h : History) × (KeepsStories self.old h × (item_count h < 4294967295)) }
        ensures keeps { (h : History) (m : ℕ) (act : Act) → KeepsStories self.old h → last_moment h ≤ m → IsFor change m act h → KeepsStories self.new (entry_of m act ∷ h) }
        ensures reply { result ≡ change.reply }
    {
        let Parts {
            moment,
            reply,
            items,
            publications,
            feeds,
        } = change;
        self.items.commit(items);
        self.publications.commit(publications);
        feeds::go(&mut self.queue, feeds, moment);
        reply
    }
}
