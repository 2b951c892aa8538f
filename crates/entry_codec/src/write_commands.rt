//! Writing commands, eight at a time.

ghost use Rattle.std.specs.Prelude.{◌≡◌, ◌<◌, ◌≤◌, ◌++◌, length, All, OnOk};
ghost use Rattle.byte_formats.specs.Spelling.{◌&◌, IsName, IsOption, byte, name, u16, u32, list, option};
ghost use Rattle.entry_codec.specs.Spelling.{command as command_bytes, how_number, with_lag, by_given, with_given};
ghost use Rattle.news_types.specs.FitsCommands.{FitsCommand};
ghost use Rattle.entry_codec.specs.Formed.{IsFormedCommand};
ghost use Rattle.entry_codec.specs.Commands.{place_of};

use crate::field::{put_byte, put_flag, put_list, put_names, put_option, put_u32};
use crate::story::{credit_tag, put_story};
use crate::words::{feed_format_byte, field_byte, how_byte, op_byte};
use byte_formats::{put_name, put_text};
use news_types::{Command, How, Name, Names};
use std::alloc::AllocError;

/// Writes a command: its tag, and its fields.
///
/// Here those of users, desks, conditions and filters.
pub fn put_command(out: &mut Vec<u8>, command: &Command) -> Result<(), AllocError>
    requires { FitsCommand command.now }
    ensures bytes { OnOk result (out.new.items ≡ out.old.items ++ command_bytes command.now) }
    ensures form { OnOk result (IsFormedCommand command.now) }
{
    match command {
        Command::AddUser { user, privileges } => put_user(out, 1, user, privileges.bits),
        Command::SetUser { user, privileges } => put_user(out, 2, user, privileges.bits),
        Command::AddDesk { desk } => put_named(out, 3, desk),
        Command::AddStage { desk, stage } => {
            put_named(out, 4, desk)?;
            put_name(out, stage)
        }
        Command::SetMember { desk, user, member } => {
            put_named(out, 5, desk)?;
            put_name(out, user)?;
            put_flag(out, *member)
        }
        Command::AddCondition {
            condition,
            field,
            op,
            values,
        } => {
            put_byte(out, 6)?;
            put_name(out, condition)?;
            put_byte(out, field_byte(*field))?;
            put_byte(out, op_byte(*op))?;
            put_list(out, values.as_slice())?;
            Ok(())
        }
        Command::AddFilter { filter, statements } => {
            put_byte(out, 7)?;
            put_name(out, filter)?;
            put_list(out, statements.as_slice())?;
            Ok(())
        }
        Command::SetFilter { filter, statements } => {
            put_byte(out, 8)?;
            put_name(out, filter)?;
            put_list(out, statements.as_slice())?;
            Ok(())
        }
        _ => put_feed_command(out, command),
    }
}

/// Those of blocks, products, subscribers, schemes and providers.
fn put_feed_command(out: &mut Vec<u8>, command: &Command) -> Result<(), AllocError>
    requires fits { FitsCommand command.now }
    requires other { 8 < place_of command.now }
    ensures bytes { OnOk result (out.new.items ≡ out.old.items ++ command_bytes command.now) }
    ensures form { OnOk result (IsFormedCommand command.now) }
{
    match command {
        Command::SetBlock { filter, on } => {
            put_named(out, 9, filter)?;
            put_flag(out, *on)
        }
        Command::AddProduct {
            product,
            how,
            filter,
        } => put_product(out, 10, product, *how, filter),
        Command::SetProduct {
            product,
            how,
            filter,
        } => put_product(out, 11, product, *how, filter),
        Command::AddSubscriber {
            subscriber,
            format,
            products,
            lag,
        } => {
            put_byte(out, if *lag == 0 { 12 } else { 37 })?;
            put_name(out, subscriber)?;
            put_byte(out, feed_format_byte(*format))?;
            put_late(out, products, *lag)
        }
        Command::SetSubscriber {
            subscriber,
            active,
            products,
            off,
            lag,
        } => {
            put_byte(out, given_tag(lag))?;
            put_name(out, subscriber)?;
            put_flag(out, *active)?;
            put_names(out, products)?;
            put_given(out, off, lag)
        }
        Command::Resume { subscriber } => put_named(out, 14, subscriber),
        Command::AddScheme { scheme, rules } => {
            put_byte(out, 15)?;
            put_name(out, scheme)?;
            put_list(out, rules.as_slice())?;
            Ok(())
        }
        Command::AddProvider { provider, scheme } => {
            put_named(out, 16, provider)?;
            put_option(out, scheme)
        }
        _ => put_draft_command(out, command),
    }
}

/// Those of items that are written and held.
fn put_draft_command(out: &mut Vec<u8>, command: &Command) -> Result<(), AllocError>
    requires fits { FitsCommand command.now }
    requires other { 16 < place_of command.now }
    ensures bytes { OnOk result (out.new.items ≡ out.old.items ++ command_bytes command.now) }
    ensures form { OnOk result (IsFormedCommand command.now) }
{
    match command {
        Command::Create { desk, story } => {
            put_named(out, credit_tag(story, 17, 33), desk)?;
            put_story(out, story)
        }
        Command::Flash { story, targets } => {
            put_byte(out, credit_tag(story, 18, 34))?;
            put_story(out, story)?;
            put_names(out, targets)
        }
        Command::Lock { item, session } => put_held(out, 19, *item, session),
        Command::Unlock { item, session } => put_held(out, 20, *item, session),
        Command::BreakLock { item } => put_item(out, 21, *item),
        Command::Edit {
            item,
            session,
            story,
        } => {
            put_held(out, credit_tag(story, 22, 35), *item, session)?;
            put_story(out, story)
        }
        Command::MoveTo { item, desk, stage } => {
            put_held(out, 23, *item, desk)?;
            put_name(out, stage)
        }
        Command::Spike { item } => put_item(out, 24, *item),
        _ => put_release_command(out, command),
    }
}

/// Those of items that are placed and published, and stopping.
fn put_release_command(out: &mut Vec<u8>, command: &Command) -> Result<(), AllocError>
    requires fits { FitsCommand command.now }
    requires other { 24 < place_of command.now }
    ensures bytes { OnOk result (out.new.items ≡ out.old.items ++ command_bytes command.now) }
    ensures form { OnOk result (IsFormedCommand command.now) }
{
    match command {
        Command::Unspike { item, desk } => put_held(out, 25, *item, desk),
        Command::Fetch { item, desk } => put_held(out, 26, *item, desk),
        Command::Publish {
            item,
            session,
            schedule,
            embargo,
            targets,
        } => {
            put_held(out, 27, *item, session)?;
            put_option(out, schedule)?;
            put_option(out, embargo)?;
            put_names(out, targets)
        }
        Command::Correct {
            item,
            session,
            story,
        } => {
            put_held(out, credit_tag(story, 28, 36), *item, session)?;
            put_story(out, story)
        }
        Command::Kill {
            item,
            session,
            note,
        } => {
            put_held(out, 29, *item, session)?;
            put_text(out, note)
        }
        Command::Recall {
            item,
            session,
            note,
        } => {
            put_held(out, 30, *item, session)?;
            put_text(out, note)
        }
        Command::Deschedule { item } => put_item(out, 31, *item),
        Command::Stop => put_byte(out, 32),
        _ => unreachable!(),
    }
}

/// Writes a tag and a name.
fn put_named(out: &mut Vec<u8>, tag: u8, named: &Name) -> Result<(), AllocError>
    ensures bytes { OnOk result (out.new.items ≡ out.old.items ++ (byte tag & name named.now)) }
    ensures form { OnOk result (IsName named.now) }
{
    put_byte(out, tag)?;
    put_name(out, named)
}

/// Writes a tag, a user and its privileges.
fn put_user(out: &mut Vec<u8>, tag: u8, user: &Name, bits: u16) -> Result<(), AllocError>
    ensures bytes { OnOk result (out.new.items ≡ out.old.items ++ (byte tag & name user.now & u16 bits)) }
    ensures form { OnOk result (IsName user.now) }
{
    put_named(out, tag, user)?;
    out.extend_from_slice(&bits.to_be_bytes())
}

/// Writes a tag, a product, how it takes its filter, and the filter where there is one.
fn put_product(
    out: &mut Vec<u8>,
    tag: u8,
    product: &Name,
    how: How,
    filter: &Option<Name>,
) -> Result<(), AllocError>
    ensures bytes { OnOk result (out.new.items ≡ out.old.items ++ (byte tag & name product.now & byte (how_number how) & option name filter.now)) }
    ensures form { OnOk result (IsName product.now × IsOption IsName filter.now) }
{
    put_named(out, tag, product)?;
    put_byte(out, how_byte(how))?;
    put_option(out, filter)
}

/// Writes a tag and an item.
fn put_item(out: &mut Vec<u8>, tag: u8, item: u32) -> Result<(), AllocError>
    ensures { OnOk result (out.new.items ≡ out.old.items ++ (byte tag & u32 item)) }
{
    put_byte(out, tag)?;
    put_u32(out, item)
}

/// Writes a tag, an item, and the name of who holds it or where it goes.
fn put_held(out: &mut Vec<u8>, tag: u8, item: u32, named: &Name) -> Result<(), AllocError>
    ensures bytes { OnOk result (out.new.items ≡ out.old.items ++ (byte tag & u32 item & name named.now)) }
    ensures form { OnOk result (IsName named.now) }
{
    put_item(out, tag, item)?;
    put_name(out, named)
}

/// The tag of a setting of a subscriber, which gives a lag or not.
fn given_tag(lag: &Option<u32>) -> u8
    ensures { result ≡ by_given lag.now 13 38 }
{
    match lag {
        None => 13,
        Some(_) => 38,
    }
}

/// Writes names, and a lag where it is not 0.
fn put_late(out: &mut Vec<u8>, names: &Names, lag: u32) -> Result<(), AllocError>
    requires { length names.now ≤ 64 }
    ensures bytes { OnOk result (out.new.items ≡ out.old.items ++ with_lag (list name names.now) lag) }
    ensures form { OnOk result (All IsName names.now) }
{
    put_names(out, names)?;
    if lag == 0 {
        return Ok(());
    }
    put_u32(out, lag)?;
    Ok(())
}

/// Writes names, and a lag where one is given.
fn put_given(out: &mut Vec<u8>, names: &Names, lag: &Option<u32>) -> Result<(), AllocError>
    requires { length names.now ≤ 64 }
    ensures bytes { OnOk result (out.new.items ≡ out.old.items ++ with_given (list name names.now) lag.now) }
    ensures form { OnOk result (All IsName names.now) }
{
    put_names(out, names)?;
    match lag {
        None => Ok(()),
        Some(lag) => {
            put_u32(out, *lag)?;
            Ok(())
        }
    }
}
