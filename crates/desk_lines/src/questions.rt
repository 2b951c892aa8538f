//! Questions of a desk, each with its properties one after another.
ghost use Rattle.std.specs.Prelude.{◌≡◌};
ghost use Rattle.serde_json.specs.View.{view};
ghost use Rattle.desk_lines.specs.Reading.{IsRead};
ghost use Rattle.desk_lines.specs.Reading as said;
ghost use Rattle.desk_lines.specs.Forms as form;
ghost use Rattle.desk_lines.specs.Forms.{among};
ghost use Rattle.desk_lines.specs.Questions as question_says;
ghost use Rattle.desk_lines.specs.Words.{register_words, state_words};

use crate::commands::item;
use crate::fields::{given, may_names, needs_whole, needs_word, option_name, option_whole};
use crate::forms::{Word, word_of};
use crate::property::{LineFault, LineProperty};
use desk_views::{DeskQuestion, Register};
use news_types::{Names, State};
use serde_json::Value;
use std::alloc::Global;

impl Word for State {
    ghost words = { state_words };

    fn of(word: &str) -> Option<State> {
        match word {
            "draft" => Some(State::Draft),
            "ingested" => Some(State::Ingested),
            "routed" => Some(State::Routed),
            "fetched" => Some(State::Fetched),
            "submitted" => Some(State::Submitted),
            "in_progress" => Some(State::InProgress),
            "spiked" => Some(State::Spiked),
            "scheduled" => Some(State::Scheduled),
            "published" => Some(State::Published),
            "corrected" => Some(State::Corrected),
            "killed" => Some(State::Killed),
            "recalled" => Some(State::Recalled),
            _ => None,
        }
    }
}

impl Word for Register {
    ghost words = { register_words };

    fn of(word: &str) -> Option<Register> {
        match word {
            "users" => Some(Register::Users),
            "desks" => Some(Register::Desks),
            "conditions" => Some(Register::Conditions),
            "filters" => Some(Register::Filters),
            "products" => Some(Register::Products),
            "subscribers" => Some(Register::Subscribers),
            "schemes" => Some(Register::Schemes),
            "providers" => Some(Register::Providers),
            _ => None,
        }
    }
}

/// The kind of things that a word names: `users`, `desks`, `conditions`, `filters`, `products`, `subscribers`, `schemes` or
/// `providers`.
pub fn read_register(word: &str) -> Option<Register>
    ensures { result ≡ among register_words word.now }
{
    Register::of(word)
}

/// A question for the items of a desk.
#[tactic(auto, unfolding(crate::specs::Questions::items))]
pub(crate) fn items(object: &Value) -> Result<DeskQuestion, LineProperty>
    ensures { result ≡ question_says.items (view object.now) }
{
    Ok(DeskQuestion::Items {
        desk: option_name(object, LineProperty::Desk)?,
        below: below(object)?,
        state: state(object)?,
        user: option_name(object, LineProperty::User)?,
    })
}

/// The number below which items are asked for, the greatest where it is missing or null.
#[tactic(auto, unfolding(crate::specs::Questions::below))]
fn below(object: &Value) -> Result<u32, LineProperty>
    ensures { result ≡ question_says.below (view object.now) }
{
    match option_whole(object, LineProperty::Below, 4294967295)? {
        None => Ok(u32::MAX),
        Some(number) => Ok(number as u32),
    }
}

/// The state of an item, or none where it is missing or null.
fn state(object: &Value) -> Result<Option<State>, LineProperty>
    ensures { result ≡ (said.option LineProperty.State (form.word state_words)) (view object.now) }
{
    match given(object, LineProperty::State) {
        None => Ok(None),
        Some(value) => {
            if value.is_null() {
                return Ok(None);
            }
            match word_of(value) {
                None => Err(LineProperty::State),
                Some(state) => Ok(Some(state)),
            }
        }
    }
}

/// A question for the things of a kind.
#[tactic(auto, unfolding(crate::specs::Questions::things))]
pub(crate) fn things(object: &Value) -> Result<DeskQuestion, LineProperty>
    ensures { result ≡ question_says.things (view object.now) }
{
    Ok(DeskQuestion::Things {
        of: needs_word(object, LineProperty::Of)?,
        after: option_name(object, LineProperty::After)?,
    })
}

/// A question for the publications of an item.
#[tactic(auto, unfolding(crate::specs::Questions::publications))]
pub(crate) fn publications(object: &Value) -> Result<DeskQuestion, LineProperty>
    ensures { result ≡ question_says.publications (view object.now) }
{
    Ok(DeskQuestion::Publications {
        item: item(object)?,
        after: needs_whole(object, LineProperty::After, 4294967295)? as u32,
    })
}

/// A question whom a publication of an item would reach.
#[tactic(auto, unfolding(crate::specs::Questions::reach))]
pub(crate) fn reach(alloc: Global, object: &Value) -> Result<DeskQuestion, LineFault>
    ensures { IsRead (question_says.reach (view object.now)) result }
{
    Ok(DeskQuestion::Reach {
        item: item(object)?,
        targets: targets(alloc, object)?,
    })
}

/// The targets that a publication would have, none where they are missing or null.
#[tactic(auto, unfolding(crate::specs::Questions::targets))]
pub(crate) fn targets(alloc: Global, object: &Value) -> Result<Names, LineFault>
    ensures { IsRead (question_says.targets (view object.now)) result }
{
    match given(object, LineProperty::Targets) {
        None => Ok(Names::of(Vec::new(alloc))),
        Some(value) => {
            if value.is_null() {
                return Ok(Names::of(Vec::new(alloc)));
            }
            may_names(alloc, object, LineProperty::Targets, 256)
        }
    }
}
