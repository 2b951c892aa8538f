//! Changes by commands that publish.
ghost use Rattle.std.specs.Prelude.{◌≡◌, ◌<◌, ◌≤◌, ◌+◌, ℕ, IfOk, length};
ghost use Rattle.news_types.specs.Names.{Bytes};
ghost use Rattle.news_types.specs.History.{History, moment as last_moment};
ghost use Rattle.news_types.specs.Publications.{item_count, pubs, standing};
ghost use Rattle.news_types.specs.declared.entry.Act.TheVariants.{Request};
ghost use Rattle.news_types.specs.declared.command.Command.TheVariants as command;
ghost use Rattle.news_types.specs.declared.words.Kind.TheVariants as kind;
ghost use Rattle.publish_queue.specs.Order.{Differ};
ghost use Rattle.publish_queue.specs.Many.{names_in};
ghost use Rattle.story_tables.specs.Keeps.{KeepsStories, HasPlace};
ghost use Rattle.story_tables.specs.Parts.{HasRoom, IsFor};
ghost use Rattle.story_tables.specs.Publishing.{IsDueTo};

use crate::feeds::FeedStep;
use crate::parts::Parts;
use crate::stories::Stories;
use item_table::SharedStory;
use news_types::{Due, Kind, Memory, Moment, Names, Reply, State, Story};
use publications::{OfItem, Published};

impl Stories {
    /// Takes the memory for a flash that is due to these, behind so many entries. All stays as it is, also where memory is
    /// wanting.
    pub fn prepare_flash(
        &mut self,
        story: &Story,
        targets: &Names,
        due: Vec<Due>,
        moment: Moment,
        entries: u64,
    ) -> Result<Parts, Memory>
        requires place { HasPlace self.old }
        requires few { entries < 4294967295 }
        requires differ { Differ (names_in due.items) }
        ensures stays { (h : History) → KeepsStories self.old h → KeepsStories self.new h }
        ensures room { IfOk result (λ parts. HasRoom self.new parts) }
        ensures change { (h : History) (caller : Bytes) (number : ℕ) → KeepsStories self.old h → entries ≡ length h → last_moment h ≤ moment → IsDueTo due.items h (standing h) kind.First (item_count h + 1) story.now moment targets.now
            → IfOk result (λ parts. IsFor parts moment (Request caller number (command.Flash story.now targets.now)) h) }
    {
        let item = self.next_item();
        let number = self.next_publication();
        let shared = SharedStory::of(self.alloc, story.copy()?)?;
        let row = Published {
            item,
            version: 1,
            kind: Kind::First,
            release: moment,
            story: shared.share()?,
        };
        let of = OfItem {
            number,
            release: moment,
            targets: targets.copy()?,
            soonest: Vec::from_slice(self.alloc, &due)?,
            newest: Vec::from_slice(self.alloc, &due)?,
        };
        let publications = self.publications.prepare(row, of)?;
        let items = self.items.prepare_new(State::Scheduled, shared)?;
        self.queue.reserve_for(number, moment, &due)?;
        Ok(Parts {
            moment,
            reply: Reply {
                entry: entries + 1,
                item,
                publication: number,
                release: moment,
            },
            items,
            publications,
            feeds: FeedStep::Publish {
                number,
                release: moment,
                due,
            },
        })
    }

    // The number of the next publication.
    pub(crate) fn next_publication(&self) -> u32
        requires { HasPlace self.now }
        ensures { (h : History) → KeepsStories self.now h → result ≡ length (pubs h) + 1 }
    {
        self.publications.len() as u32 + 1
    }
}
