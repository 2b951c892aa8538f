//! Ingests that are published at once where they are routed to.
ghost use Rattle.std.specs.Prelude.{◌≡◌, ◌<◌, ◌≤◌, ◌+◌, [], true, IfOk, length, max};
ghost use Rattle.news_types.specs.History.{History, moment as last_moment};
ghost use Rattle.news_types.specs.Items.{NewAt};
ghost use Rattle.news_types.specs.Publications.{effect, item_count, standing};
ghost use Rattle.news_types.specs.declared.entry.Act.TheVariants.{Ingest};
ghost use Rattle.news_types.specs.declared.words.Kind.TheVariants as kind;
ghost use Rattle.publish_queue.specs.Order.{Differ};
ghost use Rattle.publish_queue.specs.Many.{names_in};
ghost use Rattle.story_tables.specs.Keeps.{KeepsStories, HasPlace};
ghost use Rattle.story_tables.specs.Parts.{HasRoom, IsFor};
ghost use Rattle.story_tables.specs.Publishing.{IsDueTo};

use crate::feeds::FeedStep;
use crate::parts::Parts;
use crate::stories::Stories;
use item_table::SharedStory;
use news_types::{Due, Incoming, Kind, Memory, Moment, Name, Names, Place, Reply, State};
use publications::{OfItem, Published};

impl Stories {
    /// Takes the memory for an ingest that makes an item at the place and publishes it, due to these, behind so many
    /// entries. All stays as it is, also where memory is wanting.
    pub fn prepare_routed(
        &mut self,
        provider: Name,
        come: &Incoming,
        place: &Place,
        due: Vec<Due>,
        moment: Moment,
        entries: u64,
    ) -> Result<Parts, Memory>
        requires place { HasPlace self.old }
        requires few { entries < 4294967295 }
        requires differ { Differ (names_in due.items) }
        ensures stays { (h : History) → KeepsStories self.old h → KeepsStories self.new h }
        ensures room { IfOk result (λ parts. HasRoom self.new parts) }
        ensures change { (h : History) → KeepsStories self.old h → entries ≡ length h → last_moment h ≤ moment → effect h provider come.now moment ≡ NewAt place.now true
            → IsDueTo due.items h (standing h) kind.First (item_count h + 1) come.now.story (max moment come.now.embargo) []
            → IfOk result (λ parts. IsFor parts moment (Ingest provider come.now) h) }
    {
        let item = self.next_item();
        let number = self.next_publication();
        let release = later(moment, come.embargo);
        let shared = SharedStory::of(self.alloc, come.story.copy()?)?;
        let row = Published {
            item,
            version: 1,
            kind: Kind::First,
            release,
            story: shared.share()?,
        };
        let of = OfItem {
            number,
            release,
            targets: Names::of(Vec::new(self.alloc)),
            soonest: Vec::from_slice(self.alloc, &due)?,
            newest: Vec::from_slice(self.alloc, &due)?,
        };
        let publications = self.publications.prepare(row, of)?;
        let items = self.items.prepare_come(
            State::Scheduled,
            shared,
            provider,
            &come.identity,
            come.created,
        )?;
        self.queue.reserve_for(number, release, &due)?;
        Ok(Parts {
            moment,
            reply: Reply {
                entry: entries + 1,
                item,
                publication: number,
                release,
            },
            items,
            publications,
            feeds: FeedStep::Publish {
                number,
                release,
                due,
            },
        })
    }
}

/// The later of two moments.
fn later(one: Moment, other: Moment) -> Moment
    ensures { result ≡ max one other }
{
    one.max(other)
}
