//! Changes by commands that publish and withdraw nothing.
ghost use Rattle.std.specs.Prelude.{◌≡◌, ◌<◌, ◌+◌, ◌∷◌, ℕ, true, None, IfOk, length};
ghost use Rattle.news_types.specs.Names.{Bytes};
ghost use Rattle.news_types.specs.History.{History};
ghost use Rattle.news_types.specs.Items.{made_by};
ghost use Rattle.news_types.specs.Publications.{made, item_count};
ghost use Rattle.news_types.specs.Outcome.{item_of_command, entry_of};
ghost use Rattle.news_types.specs.declared.entry.Act.TheVariants.{Request};
ghost use Rattle.news_types.specs.declared.command.Command.TheVariants as command;
ghost use Rattle.item_table.specs.Steps.{HasRoom as HasItemRoom, IsFor as IsForItems};
ghost use Rattle.story_tables.specs.Feeds.{HasFeedRoom, feeds_of};
ghost use Rattle.item_commands.specs.Given.{story_given};
ghost use Rattle.story_tables.specs.Keeps.{KeepsStories, HasPlace};
ghost use Rattle.story_tables.specs.Parts.{HasRoom, IsFor, Allows, is_silent};

use crate::feeds::FeedStep;
use crate::parts::Parts;
use crate::stories::Stories;
use item_commands::{named_item, state_after, state_at, story_given, version_after};
use item_table::{ItemChange, Setting, SharedStory};
use news_types::{Command, Memory, Moment, Reply, State, Story};
use publications::PublicationChange;

impl Stories {
    /// Takes the memory for a command that publishes and withdraws nothing, behind so many entries. All stays as it is, also
    /// where memory is wanting.
    pub fn prepare_silent(
        &mut self,
        command: &Command,
        moment: Moment,
        entries: u64,
    ) -> Result<Parts, Memory>
        requires place { HasPlace self.old }
        requires few { entries < 4294967295 }
        ensures stays { (h : History) → KeepsStories self.old h → KeepsStories self.new h }
        ensures room { IfOk result (λ parts. HasRoom self.new parts) }
        ensures change { (h : History) (caller : Bytes) (number : ℕ) → KeepsStories self.old h → entries ≡ length h → is_silent command.now ≡ true → Allows command.now h
            → IfOk result (λ parts. IsFor parts moment (Request caller number command.now) h) }
    {
        let item = self.item_of(command);
        let items = self.prepare_items(command, moment)?;
        let feeds = self.prepare_feeds(command)?;
        Ok(Parts {
            moment,
            reply: Reply {
                entry: entries + 1,
                item,
                publication: 0,
                release: 0,
            },
            items,
            publications: PublicationChange::nothing(),
            feeds,
        })
    }

    // The item that the command makes, or names, or 0.
    fn item_of(&self, command: &Command) -> u32
        requires { HasPlace self.now }
        ensures { (h : History) → KeepsStories self.now h → result ≡ item_of_command h command.now }
    {
        match command {
            Command::Create { .. } | Command::Flash { .. } => self.next_item(),
            _ => named_item(command),
        }
    }

    // The number of the next item.
    pub(crate) fn next_item(&self) -> u32
        requires { HasPlace self.now }
        ensures { (h : History) → KeepsStories self.now h → result ≡ item_count h + 1 }
    {
        self.items.len() as u32 + 1
    }

    // Takes the memory for what a command does to the items.
    fn prepare_items(&mut self, command: &Command, moment: Moment) -> Result<ItemChange, Memory>
        requires { HasPlace self.old }
        ensures stays { (h : History) → KeepsStories self.old h → KeepsStories self.new h }
        ensures room { IfOk result (λ change. HasItemRoom self.new.items change) }
        ensures change { (h : History) (caller : Bytes) (number : ℕ) → KeepsStories self.old h → is_silent command.now ≡ true
            → IfOk result (λ change. IsForItems change ((made h).items) ((made (entry_of moment (Request caller number command.now) ∷ h)).items)) }
    {
        match command {
            Command::Create { story, .. } => self.prepare_create(story),
            _ => self.prepare_set(command, moment),
        }
    }

    // Takes the memory for an item that a desk makes.
    fn prepare_create(&mut self, story: &Story) -> Result<ItemChange, Memory>
        ensures stays { (h : History) → KeepsStories self.old h → KeepsStories self.new h }
        ensures room { IfOk result (λ change. HasItemRoom self.new.items change) }
        ensures change { (h : History) (m : ℕ) (caller : Bytes) (number : ℕ) (desk : Bytes)
            → IfOk result (λ change. IsForItems change ((made h).items) ((made (entry_of m (Request caller number (command.Create desk story.now)) ∷ h)).items)) }
    {
        let story = SharedStory::of(self.alloc, story.copy()?)?;
        self.items.prepare_new(State::Draft, story)
    }

    // What a command sets the item to that it names. One that is not there stays away.
    pub(crate) fn prepare_set(
        &self,
        command: &Command,
        moment: Moment,
    ) -> Result<ItemChange, Memory>
        requires { HasPlace self.now }
        ensures room { IfOk result (λ change. HasItemRoom self.now.items change) }
        ensures change { (h : History) (caller : Bytes) (number : ℕ) → KeepsStories self.now h → made_by command.now ≡ None
            → IfOk result (λ change. IsForItems change ((made h).items) ((made (entry_of moment (Request caller number command.now) ∷ h)).items)) }
    {
        let story = story_given(self.alloc, command)?;
        Ok(self.set_to(command, moment, story))
    }

    // The same, with the story that the command gives, if it gives one. It takes no memory.
    pub(crate) fn set_to(
        &self,
        command: &Command,
        moment: Moment,
        story: Option<SharedStory>,
    ) -> ItemChange
        requires { HasPlace self.now }
        ensures room { HasItemRoom self.now.items result }
        ensures change { (h : History) (caller : Bytes) (number : ℕ) → KeepsStories self.now h → made_by command.now ≡ None → story ≡ story_given command.now
            → IsForItems result ((made h).items) ((made (entry_of moment (Request caller number command.now) ∷ h)).items) }
    {
        let item = named_item(command);
        let Some(facts) = self.items.facts(item) else {
            return ItemChange::nothing();
        };
        let state = state_at(moment, self.publications.first(item), facts.state);
        ItemChange::set(
            item,
            Setting {
                state: state_after(command, state),
                version: version_after(command, facts.version),
                story,
                created: None,
            },
        )
    }

    // Takes the memory for what a command does to the feeds.
    fn prepare_feeds(&mut self, command: &Command) -> Result<FeedStep, Memory>
        ensures stays { (h : History) → KeepsStories self.old h → KeepsStories self.new h }
        ensures room { (m : ℕ) → IfOk result (λ step. HasFeedRoom self.new.queue m step) }
        ensures items { self.new.items ≡ self.old.items }
        ensures step { IfOk result (λ step. step ≡ feeds_of command.now) }
    {
        match command {
            Command::AddSubscriber { subscriber, .. } => {
                self.queue.reserve_subscriber()?;
                Ok(FeedStep::Subscriber(*subscriber))
            }
            Command::Resume { subscriber } => Ok(FeedStep::Resume(*subscriber)),
            _ => Ok(FeedStep::Nothing),
        }
    }
}
