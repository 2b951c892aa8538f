//! What is told of an item.
ghost use Rattle.std.specs.Prelude.{◌≡◌, IfOk, option_map};
ghost use Rattle.news_types.specs.History.{History};
ghost use Rattle.news_types.specs.Publications as published;
ghost use Rattle.story_tables.specs.Keeps.{KeepsStories};
ghost use Rattle.told_objects.specs.Seen.{seen};
ghost use Rattle.desk_questions.specs.Items.{held, line_given, line_members, placed, texts, wired};

use crate::words::word_of_status;
use desk_answers::word_of_state;
use desk_views::Wire;
use news_types::{Holder, Memory, Place, State, Text};
use std::alloc::{AllocError, Global};
use story_tables::Stories;
use told_objects::{Object, Shown};

/// What is told of an item: where it stands, who holds it, what its provider last sent with it, and of its story the headline,
/// the slugline and the urgency.
#[derive(Drop)]
pub(crate) struct ItemLine {
    pub(crate) item: u32,
    pub(crate) state: State,
    pub(crate) version: u32,
    pub(crate) headline: Text,
    pub(crate) slugline: Text,
    pub(crate) urgency: u8,
    pub(crate) place: Option<Place>,
    pub(crate) holder: Option<Holder>,
    pub(crate) wire: Option<Wire>,
}

impl Shown for ItemLine {
    ghost members = { line_members };

    fn shown(&self, alloc: Global) -> Result<Object, AllocError> {
        let held = held(placed(texts(alloc, self)?, &self.place)?, &self.holder)?;
        wired(held, &self.wire)
    }
}

/// An item, without its place, its holder and its provider's.
#[tactic(auto, unfolding(crate::specs::Items::texts))]
fn texts(alloc: Global, line: &ItemLine) -> Result<Object, AllocError>
    ensures { IfOk result (λ told. seen told ≡ texts line.now) }
{
    Object::new(alloc)
        .text("headline", line.headline.as_str())?
        .number("item", u64::from(line.item))?
        .text("slugline", line.slugline.as_str())?
        .text("state", word_of_state(line.state))?
        .number("urgency", u64::from(line.urgency))?
        .number("version", u64::from(line.version))
}

/// The object with where the item stands, if it stands on a desk.
#[tactic(auto, unfolding(crate::specs::Items::placed))]
fn placed(told: Object, place: &Option<Place>) -> Result<Object, AllocError>
    ensures { IfOk result (λ more. seen more ≡ placed place.now (seen told)) }
{
    match place {
        None => Ok(told),
        Some(place) => told
            .text("desk", place.desk.as_str())?
            .text("stage", place.stage.as_str()),
    }
}

/// The object with who holds the item, if somebody does.
#[tactic(auto, unfolding(crate::specs::Items::held))]
fn held(told: Object, holder: &Option<Holder>) -> Result<Object, AllocError>
    ensures { IfOk result (λ more. seen more ≡ held holder.now (seen told)) }
{
    match holder {
        None => Ok(told),
        Some(holder) => told
            .text("session", holder.session.as_str())?
            .text("user", holder.user.as_str()),
    }
}

/// The object with what the item's provider last sent with it, if a provider sent it.
#[tactic(auto, unfolding(crate::specs::Items::wired))]
fn wired(told: Object, wire: &Option<Wire>) -> Result<Object, AllocError>
    ensures { IfOk result (λ more. seen more ≡ wired wire.now (seen told)) }
{
    match wire {
        None => Ok(told),
        Some(wire) => told
            .number("embargo", wire.embargo)?
            .text("status", word_of_status(wire.status)),
    }
}

/// What is told of the item of that number, in that state, so placed and so held and of that provider, if it is there.
pub(crate) fn line_of(
    stories: &Stories,
    item: u32,
    state: State,
    place: Option<Place>,
    holder: Option<Holder>,
    wire: Option<Wire>,
) -> Result<Option<ItemLine>, Memory>
    ensures { IfOk result (λ line. (h : History) → KeepsStories stories.now h
        → line ≡ option_map (line_given item state place holder wire) (published.item h item)) }
{
    let Some(version) = stories.version(item) else {
        return Ok(None);
    };
    let Some(story) = stories.story(item) else {
        return Ok(None);
    };
    Ok(Some(ItemLine {
        item,
        state,
        version,
        headline: story.headline.copy()?,
        slugline: story.slugline.copy()?,
        urgency: story.urgency,
        place,
        holder,
        wire,
    }))
}
