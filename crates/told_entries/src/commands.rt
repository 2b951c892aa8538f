//! Requests, each with every property of its command.
ghost use Rattle.std.specs.Prelude.{◌≡◌, IfOk};
ghost use Rattle.serde_json.specs.Data as json;
ghost use Rattle.serde_json.specs.Data.{no_members};
ghost use Rattle.desk_lines.specs.Words.{privilege_bits};
ghost use Rattle.told_objects.specs.Members.{◌with◌, text, number, flag, inner, list};
ghost use Rattle.told_entries.specs.Words as word;
ghost use Rattle.told_entries.specs.Members as member;
ghost use Rattle.told_entries.specs.Objects as object;
ghost use Rattle.told_entries.specs.Commands as said;
ghost use Rattle.told_entries.specs.Seen.{seen};

use crate::listed::{names, objects_of, texts};
use crate::object::Told;
use crate::objects::{privileges, story};
use crate::words::{command_word, field_word, format_word, how_word, op_word};
use news_types::{
    Command, Field, Format, How, Moment, Name, Names, Op, Privileges, Scheme, Statements, Story,
    Text, Texts,
};
use std::alloc::{AllocError, Global};

/// A request of this caller with this number.
#[tactic(auto, unfolding(crate::specs::Commands::request_members))]
pub(crate) fn request(
    alloc: Global,
    caller: &Name,
    number: u64,
    command: &Command,
) -> Result<Told, AllocError>
    ensures { IfOk result (λ told. seen told ≡ said.request_members caller.now number command.now) }
{
    properties(alloc, command)?
        .text("by", caller.as_str())?
        .text("do", command_word(command))?
        .number("number", number)
}

/// The properties of a command, each of them.
#[tactic(auto, unfolding(crate::specs::Commands::command_members))]
fn properties(alloc: Global, command: &Command) -> Result<Told, AllocError>
    ensures { IfOk result (λ told. seen told ≡ said.command_members command.now) }
{
    match command {
        Command::AddUser { user, privileges } => allowed(alloc, user, *privileges),
        Command::SetUser { user, privileges } => allowed(alloc, user, *privileges),
        Command::AddDesk { desk } => of_desk(alloc, desk),
        Command::AddStage { desk, stage } => of_stage(alloc, desk, stage),
        Command::SetMember { desk, user, member } => of_member(alloc, desk, user, *member),
        Command::AddCondition {
            condition,
            field,
            op,
            values,
        } => of_condition(alloc, condition, *field, *op, values),
        Command::AddFilter { filter, statements } => of_filter(alloc, filter, statements),
        Command::SetFilter { filter, statements } => of_filter(alloc, filter, statements),
        Command::SetBlock { filter, on } => of_block(alloc, filter, *on),
        Command::AddProduct {
            product,
            how,
            filter,
        } => of_product(alloc, product, *how, *filter),
        Command::SetProduct {
            product,
            how,
            filter,
        } => of_product(alloc, product, *how, *filter),
        Command::AddSubscriber {
            subscriber,
            format,
            products,
            lag,
        } => added(alloc, subscriber, *format, products, *lag),
        Command::SetSubscriber {
            subscriber,
            active,
            products,
            off,
            lag,
        } => settings(alloc, subscriber, *active, products, off, *lag),
        Command::Resume { subscriber } => of_subscriber(alloc, subscriber),
        Command::AddScheme { scheme, rules } => of_scheme(alloc, scheme, rules),
        Command::AddProvider { provider, scheme } => of_provider(alloc, provider, *scheme),
        Command::Create { desk, story } => created(alloc, desk, story),
        Command::Flash { story, targets } => flashed(alloc, story, targets),
        Command::Lock { item, session } => held(alloc, *item, session),
        Command::Unlock { item, session } => held(alloc, *item, session),
        Command::BreakLock { item } => of_item(alloc, *item),
        Command::Edit {
            item,
            session,
            story,
        } => edited(alloc, *item, session, story),
        Command::MoveTo { item, desk, stage } => moved(alloc, *item, desk, stage),
        Command::Spike { item } => of_item(alloc, *item),
        Command::Unspike { item, desk } => brought(alloc, *item, desk),
        Command::Fetch { item, desk } => brought(alloc, *item, desk),
        Command::Publish {
            item,
            session,
            schedule,
            embargo,
            targets,
        } => published(alloc, *item, session, *schedule, *embargo, targets),
        Command::Correct {
            item,
            session,
            story,
        } => edited(alloc, *item, session, story),
        Command::Kill {
            item,
            session,
            note,
        } => withdrawn(alloc, *item, session, note),
        Command::Recall {
            item,
            session,
            note,
        } => withdrawn(alloc, *item, session, note),
        Command::Deschedule { item } => of_item(alloc, *item),
        Command::Stop => Ok(Told::new(alloc)),
    }
}

/// A user and what it may do.
fn allowed(alloc: Global, user: &Name, set: Privileges) -> Result<Told, AllocError>
    ensures { IfOk result (λ told. seen told ≡ (no_members
        with member.texts "privileges" (member.bit_words privilege_bits set.bits)
        with text "user" user.now)) }
{
    let words = privileges(alloc, set.bits)?;
    Told::new(alloc)
        .list("privileges", words)?
        .text("user", user.as_str())
}

fn of_desk(alloc: Global, desk: &Name) -> Result<Told, AllocError>
    ensures { IfOk result (λ told. seen told ≡ (no_members with text "desk" desk.now)) }
{
    Told::new(alloc).text("desk", desk.as_str())
}

fn of_stage(alloc: Global, desk: &Name, stage: &Name) -> Result<Told, AllocError>
    ensures { IfOk result (λ told. seen told ≡ (no_members with text "desk" desk.now
        with text "stage" stage.now)) }
{
    Told::new(alloc)
        .text("desk", desk.as_str())?
        .text("stage", stage.as_str())
}

fn of_member(alloc: Global, desk: &Name, user: &Name, member: bool) -> Result<Told, AllocError>
    ensures { IfOk result (λ told. seen told ≡ (no_members with text "desk" desk.now
        with flag "member" member with text "user" user.now)) }
{
    Told::new(alloc)
        .text("desk", desk.as_str())?
        .flag("member", member)?
        .text("user", user.as_str())
}

fn of_condition(
    alloc: Global,
    condition: &Name,
    field: Field,
    op: Op,
    values: &Texts,
) -> Result<Told, AllocError>
    ensures { IfOk result (λ told. seen told ≡ (no_members with text "condition" condition.now
        with text "field" (word.field_word field)
        with text "op" (word.op_word op) with member.texts "values" values.now)) }
{
    let values = texts(alloc, values.as_slice())?;
    Told::new(alloc)
        .text("condition", condition.as_str())?
        .text("field", field_word(field))?
        .text("op", op_word(op))?
        .list("values", values)
}

fn of_filter(alloc: Global, filter: &Name, statements: &Statements) -> Result<Told, AllocError>
    ensures { IfOk result (λ told. seen told ≡ (no_members with text "filter" filter.now
        with list "statements" object.statement_members statements.now)) }
{
    let statements = objects_of(alloc, statements.as_slice())?;
    Told::new(alloc)
        .text("filter", filter.as_str())?
        .list("statements", statements)
}

fn of_block(alloc: Global, filter: &Name, on: bool) -> Result<Told, AllocError>
    ensures { IfOk result (λ told. seen told ≡ (no_members with text "filter" filter.now
        with flag "on" on)) }
{
    Told::new(alloc)
        .text("filter", filter.as_str())?
        .flag("on", on)
}

fn of_product(
    alloc: Global,
    product: &Name,
    how: How,
    filter: Option<Name>,
) -> Result<Told, AllocError>
    ensures { IfOk result (λ told. seen told ≡ (no_members with member.given_text "filter" filter
        with text "how" (word.how_word how) with text "product" product.now)) }
{
    Told::new(alloc)
        .given_name("filter", filter)?
        .text("how", how_word(how))?
        .text("product", product.as_str())
}

/// A new subscriber.
fn added(
    alloc: Global,
    subscriber: &Name,
    format: Format,
    products: &Names,
    lag: u32,
) -> Result<Told, AllocError>
    ensures { IfOk result (λ told. seen told ≡ (no_members
        with text "format" (word.format_word format) with number "lag" lag
        with member.texts "products" products.now with text "subscriber" subscriber.now)) }
{
    let products = names(alloc, products.as_slice())?;
    Told::new(alloc)
        .text("format", format_word(format))?
        .number("lag", lag as u64)?
        .list("products", products)?
        .text("subscriber", subscriber.as_str())
}

/// The settings of a subscriber.
fn settings(
    alloc: Global,
    subscriber: &Name,
    active: bool,
    products: &Names,
    off: &Names,
    lag: Option<u32>,
) -> Result<Told, AllocError>
    ensures { IfOk result (λ told. seen told ≡ (no_members with flag "active" active
        with member.given_number "lag" lag
        with member.texts "off" off.now with member.texts "products" products.now
        with text "subscriber" subscriber.now)) }
{
    let off = names(alloc, off.as_slice())?;
    let products = names(alloc, products.as_slice())?;
    Told::new(alloc)
        .flag("active", active)?
        .given_seconds("lag", lag)?
        .list("off", off)?
        .list("products", products)?
        .text("subscriber", subscriber.as_str())
}

fn of_subscriber(alloc: Global, subscriber: &Name) -> Result<Told, AllocError>
    ensures { IfOk result (λ told. seen told ≡ (no_members with text "subscriber" subscriber.now)) }
{
    Told::new(alloc).text("subscriber", subscriber.as_str())
}

fn of_scheme(alloc: Global, scheme: &Name, rules: &Scheme) -> Result<Told, AllocError>
    ensures { IfOk result (λ told. seen told ≡ (no_members
        with list "rules" object.rule_members rules.now with text "scheme" scheme.now)) }
{
    let rules = objects_of(alloc, rules.as_slice())?;
    Told::new(alloc)
        .list("rules", rules)?
        .text("scheme", scheme.as_str())
}

fn of_provider(alloc: Global, provider: &Name, scheme: Option<Name>) -> Result<Told, AllocError>
    ensures { IfOk result (λ told. seen told ≡ (no_members with text "provider" provider.now
        with member.given_text "scheme" scheme)) }
{
    Told::new(alloc)
        .text("provider", provider.as_str())?
        .given_name("scheme", scheme)
}

/// A new item of a desk.
fn created(alloc: Global, desk: &Name, told: &Story) -> Result<Told, AllocError>
    ensures { IfOk result (λ more. seen more ≡ (no_members with text "desk" desk.now
        with inner "story" (object.story_members told.now))) }
{
    let story = story(alloc, told)?;
    Told::new(alloc)
        .text("desk", desk.as_str())?
        .inner("story", story)
}

/// A story that is published at once.
fn flashed(alloc: Global, told: &Story, targets: &Names) -> Result<Told, AllocError>
    ensures { IfOk result (λ more. seen more ≡ (no_members
        with inner "story" (object.story_members told.now)
        with member.texts "targets" targets.now)) }
{
    let story = story(alloc, told)?;
    let targets = names(alloc, targets.as_slice())?;
    Told::new(alloc)
        .inner("story", story)?
        .list("targets", targets)
}

/// An item and a session.
fn held(alloc: Global, item: u32, session: &Name) -> Result<Told, AllocError>
    ensures { IfOk result (λ told. seen told ≡ (no_members with number "item" item
        with text "session" session.now)) }
{
    Told::new(alloc)
        .number("item", item as u64)?
        .text("session", session.as_str())
}

fn of_item(alloc: Global, item: u32) -> Result<Told, AllocError>
    ensures { IfOk result (λ told. seen told ≡ (no_members with number "item" item)) }
{
    Told::new(alloc).number("item", item as u64)
}

/// An item with the story that is to stand in it.
fn edited(alloc: Global, item: u32, session: &Name, told: &Story) -> Result<Told, AllocError>
    ensures { IfOk result (λ more. seen more ≡ (no_members with number "item" item
        with text "session" session.now
        with inner "story" (object.story_members told.now))) }
{
    let story = story(alloc, told)?;
    held(alloc, item, session)?.inner("story", story)
}

/// An item and where it goes.
fn moved(alloc: Global, item: u32, desk: &Name, stage: &Name) -> Result<Told, AllocError>
    ensures { IfOk result (λ told. seen told ≡ (no_members with text "desk" desk.now
        with number "item" item with text "stage" stage.now)) }
{
    Told::new(alloc)
        .text("desk", desk.as_str())?
        .number("item", item as u64)?
        .text("stage", stage.as_str())
}

/// An item and the desk to which it comes.
fn brought(alloc: Global, item: u32, desk: &Name) -> Result<Told, AllocError>
    ensures { IfOk result (λ told. seen told ≡ (no_members with text "desk" desk.now
        with number "item" item)) }
{
    Told::new(alloc)
        .text("desk", desk.as_str())?
        .number("item", item as u64)
}

/// An item that is published.
fn published(
    alloc: Global,
    item: u32,
    session: &Name,
    schedule: Option<Moment>,
    embargo: Option<Moment>,
    targets: &Names,
) -> Result<Told, AllocError>
    ensures { IfOk result (λ told. seen told ≡ (no_members
        with member.given_number "embargo" embargo with number "item" item
        with member.given_number "schedule" schedule with text "session" session.now
        with member.texts "targets" targets.now)) }
{
    let targets = names(alloc, targets.as_slice())?;
    Told::new(alloc)
        .given_moment("embargo", embargo)?
        .number("item", item as u64)?
        .given_moment("schedule", schedule)?
        .text("session", session.as_str())?
        .list("targets", targets)
}

/// An item that is taken back, and why.
fn withdrawn(alloc: Global, item: u32, session: &Name, note: &Text) -> Result<Told, AllocError>
    ensures { IfOk result (λ told. seen told ≡ (no_members with number "item" item
        with text "note" note.now with text "session" session.now)) }
{
    Told::new(alloc)
        .number("item", item as u64)?
        .text("note", note.as_str())?
        .text("session", session.as_str())
}
