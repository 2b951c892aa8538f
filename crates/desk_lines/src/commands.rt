//! Commands, each by its word: its properties one after another, eight words at a time.
ghost use Rattle.std.specs.Prelude.{◌≡◌, ◌≤◌, ◌<◌, ◌^◌, IfOk};
ghost use Rattle.std.proofs.Common.{rules};
ghost use Rattle.serde_json.specs.View.{view};
ghost use Rattle.news_types.specs.Fits.{FitsLag};
ghost use Rattle.news_types.specs.FitsCommands.{FitsCommand, IfGiven};
ghost use Rattle.desk_lines.specs.Reading.{IsRead};
ghost use Rattle.desk_lines.specs.Forms as form;
ghost use Rattle.desk_lines.specs.Reading as said;
ghost use Rattle.desk_lines.specs.Commands as command_says;
ghost use Rattle.desk_lines.specs.Words.{format_words, how_words, field_words, op_words, privilege_bits};

use crate::fields::{
    may_bits, may_flag, may_names, may_text, may_texts, may_whole, may_word, needs_name,
    needs_text, needs_whole, needs_word, option_moment, option_name, option_whole,
};
use crate::forms::{Bits, Word};
use crate::objects::{each, story};
use crate::property::{LineFault, LineProperty};
use news_types::{Command, Field, Format, How, Op, Privileges, Scheme, Statements};
use serde_json::Value;
use std::alloc::Global;

impl Word for Format {
    ghost words = { format_words };

    fn of(word: &str) -> Option<Format> {
        match word {
            "ninjs" => Some(Format::Ninjs),
            "7901" => Some(Format::Text7901),
            _ => None,
        }
    }
}

impl Word for How {
    ghost words = { how_words };

    fn of(word: &str) -> Option<How> {
        match word {
            "permitting" => Some(How::Permitting),
            "blocking" => Some(How::Blocking),
            _ => None,
        }
    }
}

impl Word for Field {
    ghost words = { field_words };

    fn of(word: &str) -> Option<Field> {
        match word {
            "slugline" => Some(Field::Slugline),
            "headline" => Some(Field::Headline),
            "byline" => Some(Field::Byline),
            "language" => Some(Field::Language),
            "category" => Some(Field::Category),
            "body" => Some(Field::Body),
            "urgency" => Some(Field::Urgency),
            "kind" => Some(Field::Kind),
            _ => None,
        }
    }
}

impl Word for Op {
    ghost words = { op_words };

    fn of(word: &str) -> Option<Op> {
        match word {
            "eq" => Some(Op::Eq),
            "ne" => Some(Op::Ne),
            "in" => Some(Op::Within),
            "nin" => Some(Op::Nin),
            "like" => Some(Op::Like),
            "notlike" => Some(Op::NotLike),
            "startswith" => Some(Op::StartsWith),
            "endswith" => Some(Op::EndsWith),
            "lt" => Some(Op::Lt),
            "lte" => Some(Op::Lte),
            "gt" => Some(Op::Gt),
            "gte" => Some(Op::Gte),
            _ => None,
        }
    }
}

/// What a user may do.
struct Allowed;

impl Bits for Allowed {
    ghost words = { privilege_bits };

    ghost width = { 10 };

    fn bit(word: &str) -> Option<u16> {
        match word {
            "users" => Some(1),
            "desks" => Some(2),
            "filters" => Some(4),
            "subscribers" => Some(8),
            "ingest" => Some(16),
            "write" => Some(32),
            "publish" => Some(64),
            "kill" => Some(128),
            "unlock" => Some(256),
            "stop" => Some(512),
            _ => None,
        }
    }

    ghost narrow = { Prim.search rules };
}

/// The privileges of a list of their words.
fn privileges(object: &Value) -> Result<Privileges, LineProperty>
    ensures value { result ≡ command_says.privileges (view object.now) }
    ensures bound { IfOk result (λ privileges. privileges.bits < 1024) }
{
    let bits = may_bits::<Allowed>(object, LineProperty::Privileges)?;
    Ok(Privileges { bits })
}

/// The number of an item.
pub(crate) fn item(object: &Value) -> Result<u32, LineProperty>
    ensures { result ≡ command_says.an_item (view object.now) }
{
    Ok(needs_whole(object, LineProperty::Item, 4294967295)? as u32)
}

/// Reads a command by its word.
///
/// Here those of users, desks, conditions and filters.
#[tactic(auto, unfolding(crate::specs::Commands::command))]
pub(crate) fn command(alloc: Global, word: &str, object: &Value) -> Result<Command, LineFault>
    ensures value { IsRead (command_says.command word.now (view object.now)) result }
    ensures fits { IfOk result FitsCommand }
{
    match word {
        "add_user" => Ok(Command::AddUser {
            user: needs_name(object, LineProperty::User)?,
            privileges: privileges(object)?,
        }),
        "set_user" => Ok(Command::SetUser {
            user: needs_name(object, LineProperty::User)?,
            privileges: privileges(object)?,
        }),
        "add_desk" => Ok(Command::AddDesk {
            desk: needs_name(object, LineProperty::Desk)?,
        }),
        "add_stage" => Ok(Command::AddStage {
            desk: needs_name(object, LineProperty::Desk)?,
            stage: needs_name(object, LineProperty::Stage)?,
        }),
        "set_member" => Ok(Command::SetMember {
            desk: needs_name(object, LineProperty::Desk)?,
            user: needs_name(object, LineProperty::User)?,
            member: may_flag(object, LineProperty::Member, false)?,
        }),
        "add_condition" => Ok(Command::AddCondition {
            condition: needs_name(object, LineProperty::Condition)?,
            field: needs_word(object, LineProperty::Field)?,
            op: needs_word(object, LineProperty::Op)?,
            values: may_texts(alloc, object, LineProperty::Values, 64, 500)?,
        }),
        "add_filter" => Ok(Command::AddFilter {
            filter: needs_name(object, LineProperty::Filter)?,
            statements: Statements::of(each(alloc, object, LineProperty::Statements, 16)?),
        }),
        "set_filter" => Ok(Command::SetFilter {
            filter: needs_name(object, LineProperty::Filter)?,
            statements: Statements::of(each(alloc, object, LineProperty::Statements, 16)?),
        }),
        "set_block" => Ok(Command::SetBlock {
            filter: needs_name(object, LineProperty::Filter)?,
            on: may_flag(object, LineProperty::On, false)?,
        }),
        _ => feed_command(alloc, word, object),
    }
}

/// Those of products, subscribers, schemes and providers.
#[tactic(auto, unfolding(crate::specs::Commands::feed_command))]
fn feed_command(alloc: Global, word: &str, object: &Value) -> Result<Command, LineFault>
    ensures value { IsRead (command_says.feed_command word.now (view object.now)) result }
    ensures fits { IfOk result FitsCommand }
{
    match word {
        "add_product" => Ok(Command::AddProduct {
            product: needs_name(object, LineProperty::Product)?,
            how: may_word(object, LineProperty::How, How::Permitting)?,
            filter: option_name(object, LineProperty::Filter)?,
        }),
        "set_product" => Ok(Command::SetProduct {
            product: needs_name(object, LineProperty::Product)?,
            how: may_word(object, LineProperty::How, How::Permitting)?,
            filter: option_name(object, LineProperty::Filter)?,
        }),
        "add_subscriber" => Ok(Command::AddSubscriber {
            subscriber: needs_name(object, LineProperty::Subscriber)?,
            format: needs_word(object, LineProperty::Format)?,
            products: may_names(alloc, object, LineProperty::Products, 64)?,
            lag: may_whole(object, LineProperty::Lag, 604800, 0)? as u32,
        }),
        "set_subscriber" => Ok(Command::SetSubscriber {
            subscriber: needs_name(object, LineProperty::Subscriber)?,
            active: may_flag(object, LineProperty::Active, true)?,
            products: may_names(alloc, object, LineProperty::Products, 64)?,
            off: may_names(alloc, object, LineProperty::Off, 64)?,
            lag: given_lag(object)?,
        }),
        "resume" => Ok(Command::Resume {
            subscriber: needs_name(object, LineProperty::Subscriber)?,
        }),
        "add_scheme" => Ok(Command::AddScheme {
            scheme: needs_name(object, LineProperty::Scheme)?,
            rules: Scheme::of(each(alloc, object, LineProperty::Rules, 64)?),
        }),
        "add_provider" => Ok(Command::AddProvider {
            provider: needs_name(object, LineProperty::Provider)?,
            scheme: option_name(object, LineProperty::Scheme)?,
        }),
        _ => draft_command(alloc, word, object),
    }
}

/// A lag in seconds, or none where it is missing or null.
fn given_lag(object: &Value) -> Result<Option<u32>, LineProperty>
    ensures value { result ≡ (said.option LineProperty.Lag (form.whole 604800)) (view object.now) }
    ensures bound { IfOk result (IfGiven FitsLag) }
{
    match option_whole(object, LineProperty::Lag, 604800)? {
        None => Ok(None),
        Some(seconds) => Ok(Some(seconds as u32)),
    }
}

/// Those of stories that are written and held.
#[tactic(auto, unfolding(crate::specs::Commands::draft_command))]
fn draft_command(alloc: Global, word: &str, object: &Value) -> Result<Command, LineFault>
    ensures value { IsRead (command_says.draft_command word.now (view object.now)) result }
    ensures fits { IfOk result FitsCommand }
{
    match word {
        "create" => Ok(Command::Create {
            desk: needs_name(object, LineProperty::Desk)?,
            story: story(alloc, object)?,
        }),
        "flash" => Ok(Command::Flash {
            story: story(alloc, object)?,
            targets: may_names(alloc, object, LineProperty::Targets, 256)?,
        }),
        "lock" => Ok(Command::Lock {
            item: item(object)?,
            session: needs_name(object, LineProperty::Session)?,
        }),
        "unlock" => Ok(Command::Unlock {
            item: item(object)?,
            session: needs_name(object, LineProperty::Session)?,
        }),
        "break_lock" => Ok(Command::BreakLock {
            item: item(object)?,
        }),
        "edit" => Ok(Command::Edit {
            item: item(object)?,
            session: needs_name(object, LineProperty::Session)?,
            story: story(alloc, object)?,
        }),
        "move" => Ok(Command::MoveTo {
            item: item(object)?,
            desk: needs_name(object, LineProperty::Desk)?,
            stage: needs_name(object, LineProperty::Stage)?,
        }),
        "spike" => Ok(Command::Spike {
            item: item(object)?,
        }),
        _ => release_command(alloc, word, object),
    }
}

/// Those of stories that are published.
#[tactic(auto, unfolding(crate::specs::Commands::release_command))]
fn release_command(alloc: Global, word: &str, object: &Value) -> Result<Command, LineFault>
    ensures value { IsRead (command_says.release_command word.now (view object.now)) result }
    ensures fits { IfOk result FitsCommand }
{
    match word {
        "unspike" => Ok(Command::Unspike {
            item: item(object)?,
            desk: needs_name(object, LineProperty::Desk)?,
        }),
        "fetch" => Ok(Command::Fetch {
            item: item(object)?,
            desk: needs_name(object, LineProperty::Desk)?,
        }),
        "publish" => Ok(Command::Publish {
            item: item(object)?,
            session: needs_name(object, LineProperty::Session)?,
            schedule: option_moment(object, LineProperty::Schedule)?,
            embargo: option_moment(object, LineProperty::Embargo)?,
            targets: may_names(alloc, object, LineProperty::Targets, 256)?,
        }),
        "correct" => Ok(Command::Correct {
            item: item(object)?,
            session: needs_name(object, LineProperty::Session)?,
            story: story(alloc, object)?,
        }),
        "kill" => Ok(Command::Kill {
            item: item(object)?,
            session: needs_name(object, LineProperty::Session)?,
            note: needs_text(alloc, object, LineProperty::Note, 524288)?,
        }),
        "recall" => Ok(Command::Recall {
            item: item(object)?,
            session: needs_name(object, LineProperty::Session)?,
            note: needs_text(alloc, object, LineProperty::Note, 524288)?,
        }),
        "deschedule" => Ok(Command::Deschedule {
            item: item(object)?,
        }),
        "stop" => Ok(Command::Stop),
        _ => Err(LineFault::Bad {
            property: LineProperty::Do,
        }),
    }
}
