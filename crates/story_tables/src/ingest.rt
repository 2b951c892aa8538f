//! What an ingest does to items, publications and feeds.
ghost use Rattle.std.specs.Prelude.{◌≡◌, ◌<◌, ◌&&◌, not, nat_le, ℕ, Some, IfOk, length, option_map};
ghost use Rattle.news_types.specs.Names.{Bytes};
ghost use Rattle.news_types.specs.History.{History};
ghost use Rattle.news_types.specs.Items as items;
ghost use Rattle.news_types.specs.Publications as published;
ghost use Rattle.news_types.specs.declared.entry.Act.TheVariants.{Ingest};
ghost use Rattle.news_types.specs.Due.{standing_first};
ghost use Rattle.story_tables.specs.Keeps.{KeepsStories, HasPlace};
ghost use Rattle.story_tables.specs.Parts.{HasRoom, IsFor};
ghost use Rattle.news_types.specs.Outcome.{item_of_effect};
ghost use Rattle.news_types.specs.declared.story.Incoming.{Incoming};
ghost use Rattle.item_table.specs.declared.change.Step.TheVariants as step;
ghost use Rattle.item_table.specs.Rows.{new_row};
ghost use Rattle.item_table.specs.Identities.{identity_of};
ghost use Rattle.item_table.specs.Steps.{HasRoom as HasItemRoom};
ghost use Rattle.story_tables.specs.Ingests.{effect_of, on_known, is_held, IsForIngest, IsUnpublished};

use crate::feeds::FeedStep;
use crate::parts::Parts;
use crate::stories::Stories;
use item_commands::{moved, state_at};
use item_rules::Action;
use item_table::{ItemChange, Setting, SharedStory};
use news_types::{Incoming, Memory, Moment, Name, Place, PubStatus, Reply, State, Story, Text};
use publications::PublicationChange;

/// What an ingest does.
#[derive(Clone, Copy)]
pub enum Effect {
    /// It makes an item without a place.
    New,
    /// It makes an item at the place, and publishes it or not.
    NewAt { place: Place, published: bool },
    /// It replaces the story of the item.
    Replaces(u32),
    /// It cancels the item.
    Cancels(u32),
    /// It keeps no entry: the number of the known item, or 0.
    Settled(u32),
}

impl Stories {
    /// The number of the item that the provider calls so, or 0.
    pub fn known(&self, provider: Name, identity: &Text) -> Result<u32, Memory>
        ensures { IfOk result (λ number. (h : History) → KeepsStories self.now h → number ≡ items.known provider identity.now ((published.made h).items)) }
    {
        let number = self.items.number(provider, identity)?;
        Ok(number)
    }

    /// What comes in for an item that is known and held or not, and what it does at a moment. It takes no memory.
    pub fn effect_on(&self, come: &Incoming, item: u32, held: bool, moment: Moment) -> Effect
        ensures { (h : History) → KeepsStories self.now h → held ≡ is_held (published.item h item)
            → effect_of result ≡ items.effect_on come.now.status come.now item (option_map (items.at_moment moment (standing_first item (published.standing h))) (published.item h item)) }
    {
        let Some(facts) = self.items.facts(item) else {
            return Effect::Settled(0);
        };
        let Some(story) = self.items.story(item) else {
            return Effect::Settled(0);
        };
        let state = state_at(moment, self.publications.first(item), facts.state);
        let free = both(is_untouched(state), !held);
        let newer = is_newer(come, facts.created, story.as_story());
        on_known(come.status, item, free, newer)
    }
}

/// What comes in for an item that nobody works on, or somebody does, and is newer or not.
fn on_known(status: PubStatus, item: u32, free: bool, newer: bool) -> Effect
    ensures { result ≡ on_known status item free newer }
{
    match status {
        PubStatus::Canceled => {
            if free {
                return Effect::Cancels(item);
            }
        }
        _ => {
            if free && newer {
                return Effect::Replaces(item);
            }
        }
    }
    Effect::Settled(item)
}

fn both(one: bool, other: bool) -> bool
    ensures { result ≡ (one && other) }
{
    one && other
}

/// Whether what comes in is not older than an item that was made then, and differs from its story.
fn is_newer(come: &Incoming, created: Moment, story: &Story) -> bool
    ensures { result ≡ (nat_le created come.now.created && not (items.same_story come.now.story story.now)) }
{
    both(created <= come.created, come.story != *story)
}

/// Whether nobody has begun to work on an item of that state.
fn is_untouched(state: State) -> bool
    ensures { result ≡ items.is_untouched state }
{
    matches!(state, State::Ingested | State::Routed)
}

impl Stories {
    /// Takes the memory for an ingest that publishes nothing, behind so many entries. All stays as it is, also where memory
    /// is wanting.
    pub fn prepare_ingest(
        &mut self,
        provider: Name,
        come: &Incoming,
        effect: &Effect,
        moment: Moment,
        entries: u64,
    ) -> Result<Parts, Memory>
        requires place { HasPlace self.old }
        requires few { entries < 4294967295 }
        ensures stays { (h : History) → KeepsStories self.old h → KeepsStories self.new h }
        ensures room { IfOk result (λ parts. HasRoom self.new parts) }
        ensures change { (h : History) → KeepsStories self.old h → entries ≡ length h → published.effect h provider come.now moment ≡ effect_of effect.now → IsUnpublished effect.now
            → IfOk result (λ parts. IsFor parts moment (Ingest provider come.now) h) }
    {
        let item = self.item_of_effect(effect);
        let items = self.ingest_items(provider, come, effect)?;
        Ok(Parts {
            moment,
            reply: Reply {
                entry: entries + 1,
                item,
                publication: 0,
                release: 0,
            },
            items,
            publications: PublicationChange::nothing(),
            feeds: FeedStep::Nothing,
        })
    }

    // The item that is made, replaced, canceled or known.
    fn item_of_effect(&self, effect: &Effect) -> u32
        requires { HasPlace self.now }
        ensures { (h : History) → KeepsStories self.now h → result ≡ item_of_effect h (effect_of effect.now) }
    {
        match effect {
            Effect::New | Effect::NewAt { .. } => self.next_item(),
            Effect::Replaces(item) | Effect::Cancels(item) | Effect::Settled(item) => *item,
        }
    }

    // Takes the memory for what it does to the items.
    fn ingest_items(
        &mut self,
        provider: Name,
        come: &Incoming,
        effect: &Effect,
    ) -> Result<ItemChange, Memory>
        requires { HasPlace self.old }
        ensures stays { (h : History) → KeepsStories self.old h → KeepsStories self.new h }
        ensures room { IfOk result (λ change. HasItemRoom self.new.items change) }
        ensures change { (h : History) (m : ℕ) → KeepsStories self.old h → published.effect h provider come.now m ≡ effect_of effect.now → IfOk result (λ change. IsForIngest change h m provider come.now) }
    {
        match effect {
            Effect::New => {
                let change = self.prepare_made(provider, come, State::Ingested)?;
                Ok(change)
            }
            Effect::NewAt { published, .. } => {
                let change = self.prepare_made(provider, come, routed_state(*published))?;
                Ok(change)
            }
            Effect::Replaces(item) => {
                let change = self.prepare_replaced(*item, come)?;
                Ok(change)
            }
            Effect::Cancels(item) => Ok(self.prepare_canceled(*item)),
            Effect::Settled(_) => Ok(ItemChange::nothing()),
        }
    }

    // Takes the memory for an item that comes in.
    fn prepare_made(
        &mut self,
        provider: Name,
        come: &Incoming,
        state: State,
    ) -> Result<ItemChange, Memory>
        ensures stays { (h : History) → KeepsStories self.old h → KeepsStories self.new h }
        ensures room { IfOk result (λ change. HasItemRoom self.new.items change) }
        ensures change { IfOk result (λ change. change.step ≡ step.Make (new_row state come.now.story come.now.created) (Some (identity_of provider come.now.identity))) }
    {
        let story = SharedStory::of(self.alloc, come.story.copy()?)?;
        self.items
            .prepare_come(state, story, provider, &come.identity, come.created)
    }

    // What an item is set to whose story is replaced. One that is not there stays away.
    fn prepare_replaced(&self, item: u32, come: &Incoming) -> Result<ItemChange, Memory>
        requires { HasPlace self.now }
        ensures room { IfOk result (λ change. HasItemRoom self.now.items change) }
        ensures change { (h : History) (m : ℕ) (provider : Bytes) → KeepsStories self.now h → published.effect h provider come.now m ≡ items.Replaces item → IfOk result (λ change. IsForIngest change h m provider come.now) }
    {
        let Some(facts) = self.items.facts(item) else {
            return Ok(ItemChange::nothing());
        };
        let story = SharedStory::of(self.alloc, come.story.copy()?)?;
        Ok(ItemChange::set(
            item,
            Setting {
                state: facts.state,
                version: facts.version + 1,
                story: Some(story),
                created: Some(come.created),
            },
        ))
    }

    // What an item is set to that is canceled. One that is not there stays away. It takes no memory.
    fn prepare_canceled(&self, item: u32) -> ItemChange
        ensures room { HasItemRoom self.now.items result }
        ensures change { (h : History) (m : ℕ) (provider : Bytes) (come : Incoming) → KeepsStories self.now h → published.effect h provider come m ≡ items.Cancels item → IsForIngest result h m provider come }
    {
        let Some(facts) = self.items.facts(item) else {
            return ItemChange::nothing();
        };
        ItemChange::set(
            item,
            Setting {
                state: moved(Action::Cancel, facts.state),
                version: facts.version,
                story: None,
                created: None,
            },
        )
    }
}

/// The state of an item that is routed, and published at once or not.
fn routed_state(published: bool) -> State
    ensures { result ≡ items.routed_state published }
{
    let routed = moved(Action::Route, State::Ingested);
    if published {
        return moved(Action::Publish, routed);
    }
    routed
}
