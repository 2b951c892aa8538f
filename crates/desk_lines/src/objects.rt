//! Stories, and the objects that stand in the lists of commands.
ghost use Rattle.std.specs.Prelude.{◌≡◌, ◌≤◌, ◌<◌, ◌^◌, IfOk, All, IsTrue, length};
ghost use Rattle.std.proofs.Common.{rules};
ghost use Rattle.serde_json.specs.View.{view, items_view};
ghost use Rattle.news_types.specs.Fits.{FitsStory};
ghost use Rattle.news_types.specs.FitsCommands.{FitsStatement, FitsRule};
ghost use Rattle.desk_lines.specs.Reading as said;
ghost use Rattle.desk_lines.specs.Reading.{IsRead, IsReadAs, Says};
ghost use Rattle.desk_lines.specs.Objects as object_says;
ghost use Rattle.desk_lines.specs.Words.{media_words, day_bits};

use crate::fields::{
    given, is_few, may_bits, may_flag, may_names, may_text, may_whole, may_word, needs_name,
    needs_text, needs_whole, option_name,
};
use crate::forms::{Bits, Word};
use crate::property::{LineFault, LineProperty};
use news_types::{Media, Place, Rule, Statement, Story};
use package_members::Member;
use serde_json::Value;
use std::alloc::Global;

impl Word for Media {
    ghost words = { media_words };

    fn of(word: &str) -> Option<Media> {
        match word {
            "text" => Some(Media::Text),
            "audio" => Some(Media::Audio),
            "video" => Some(Media::Video),
            "picture" => Some(Media::Picture),
            "graphic" => Some(Media::Graphic),
            "composite" => Some(Media::Composite),
            _ => None,
        }
    }
}

/// The properties of a story.
#[tactic(auto, unfolding(crate::specs::Objects::story))]
pub(crate) fn story_of(alloc: Global, object: &Value) -> Result<Story, LineFault>
    ensures value { IsRead (object_says.story (view object.now)) result }
    ensures fits { IfOk result FitsStory }
{
    Ok(Story {
        kind: may_word(object, LineProperty::Kind, Media::Text)?,
        urgency: may_whole(object, LineProperty::Urgency, 9, 0)? as u8,
        slugline: may_text(alloc, object, LineProperty::Slugline, 500)?,
        headline: may_text(alloc, object, LineProperty::Headline, 500)?,
        byline: may_text(alloc, object, LineProperty::Byline, 500)?,
        language: may_text(alloc, object, LineProperty::Language, 35)?,
        category: may_text(alloc, object, LineProperty::Category, 3)?,
        body: may_text(alloc, object, LineProperty::Body, 524288)?,
        html: may_flag(object, LineProperty::Html, false)?,
        copyright: may_text(alloc, object, LineProperty::Copyright, 500)?,
    })
}

/// A story, which has to be there.
pub(crate) fn story(alloc: Global, object: &Value) -> Result<Story, LineFault>
    ensures value { IsRead ((said.inside LineProperty.Story object_says.story) (view object.now)) result }
    ensures fits { IfOk result FitsStory }
{
    match given(object, LineProperty::Story) {
        None => Err(LineFault::Bad {
            property: LineProperty::Story,
        }),
        Some(value) => {
            if value.is_object() {
                story_of(alloc, value)
            } else {
                Err(LineFault::Bad {
                    property: LineProperty::Story,
                })
            }
        }
    }
}

/// The properties of a place.
#[tactic(auto, unfolding(crate::specs::Objects::place))]
fn place_of(object: &Value) -> Result<Place, LineProperty>
    ensures { result ≡ object_says.place (view object.now) }
{
    Ok(Place {
        desk: needs_name(object, LineProperty::Desk)?,
        stage: needs_name(object, LineProperty::Stage)?,
    })
}

/// The place of a fetch, or none where it is missing or null.
fn fetch(object: &Value) -> Result<Option<Place>, LineProperty>
    ensures { result ≡ (said.may_inside LineProperty.Fetch object_says.place) (view object.now) }
{
    match given(object, LineProperty::Fetch) {
        None => Ok(None),
        Some(value) => {
            if value.is_null() {
                return Ok(None);
            }
            if !value.is_object() {
                return Err(LineProperty::Fetch);
            }
            Ok(Some(place_of(value)?))
        }
    }
}

/// An object that stands in a list.
pub(crate) trait Listed: Drop {
    ghost says: { Says Self };

    ghost fits: { Self → Type 0 };

    /// What its properties say.
    fn listed(alloc: Global, object: &Value) -> Result<Self, LineFault>
        ensures value { IsRead (says (view object.now)) result }
        ensures fits { IfOk result fits };
}

impl Listed for Statement {
    ghost says = { object_says.statement };

    ghost fits = { FitsStatement };

    #[tactic(auto, unfolding(crate::specs::Objects::statement))]
    fn listed(alloc: Global, object: &Value) -> Result<Statement, LineFault> {
        Ok(Statement {
            conditions: may_names(alloc, object, LineProperty::Conditions, 16)?,
            filters: may_names(alloc, object, LineProperty::Filters, 8)?,
        })
    }
}

/// The days of a week.
struct Days;

impl Bits for Days {
    ghost words = { day_bits };

    ghost width = { 7 };

    fn bit(word: &str) -> Option<u16> {
        match word {
            "mon" => Some(1),
            "tue" => Some(2),
            "wed" => Some(4),
            "thu" => Some(8),
            "fri" => Some(16),
            "sat" => Some(32),
            "sun" => Some(64),
            _ => None,
        }
    }

    ghost narrow = { Prim.search rules };
}

impl Listed for Rule {
    ghost says = { object_says.rule };

    ghost fits = { FitsRule };

    #[tactic(auto, unfolding(crate::specs::Objects::rule))]
    fn listed(alloc: Global, object: &Value) -> Result<Rule, LineFault> {
        Ok(Rule {
            filter: option_name(object, LineProperty::Filter)?,
            days: may_bits::<Days>(object, LineProperty::Days)? as u8,
            from: needs_whole(object, LineProperty::From, 4294967295)? as u32,
            to: needs_whole(object, LineProperty::To, 4294967295)? as u32,
            zone: needs_text(alloc, object, LineProperty::Zone, 64)?,
            fetch: fetch(object)?,
            publish: may_flag(object, LineProperty::Publish, false)?,
            exit: may_flag(object, LineProperty::Exit, false)?,
        })
    }
}

impl Listed for Member {
    ghost says = { object_says.member };

    ghost fits = { λ _. Unit {0} };

    #[tactic(auto, unfolding(crate::specs::Objects::member))]
    fn listed(_: Global, object: &Value) -> Result<Member, LineFault> {
        Ok(Member {
            role: needs_name(object, LineProperty::Role)?,
            item: needs_whole(object, LineProperty::Item, 4294967295)? as u32,
        })
    }
}

/// A list of at most so many objects, empty where it is missing.
pub(crate) fn each<T: Listed>(
    alloc: Global,
    object: &Value,
    property: LineProperty,
    limit: usize,
) -> Result<Vec<T>, LineFault>
    ensures value { IsReadAs (λ list. list.items) ((said.each property limit T.says) (view object.now)) result }
    ensures few { IfOk result (λ list. length list.items ≤ limit) }
    ensures fits { IfOk result (λ list. All T.fits list.items) }
{
    match given(object, property) {
        None => Ok(Vec::new(alloc)),
        Some(value) => match value.as_array() {
            None => Err(LineFault::Bad { property }),
            Some(list) => {
                if !is_few(list, limit) || !are_objects(list) {
                    return Err(LineFault::Bad { property });
                }
                listed_in(alloc, list)
            }
        },
    }
}

fn are_objects(list: &Vec<Value>) -> bool
    ensures { result ≡ said.all_objects (items_view list.now.items) }
{
    for value in list {
        if !value.is_object() {
            return false;
        }
    }
    true
}

fn listed_in<T: Listed>(alloc: Global, list: &Vec<Value>) -> Result<Vec<T>, LineFault>
    ensures value { IsReadAs (λ list. list.items) (said.read_each T.says (items_view list.now.items)) result }
    ensures count { IfOk result (λ found. length found.items ≡ length list.now.items) }
    ensures fits { IfOk result (λ found. All T.fits found.items) }
{
    let mut found = Vec::new(alloc);
    for value in list {
        found.push(T::listed(alloc, value)?)?;
    }
    Ok(found)
}
