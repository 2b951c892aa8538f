//! Reading commands, a few tags at a time.

ghost use Rattle.std.specs.Prelude.{◌≡◌, ◌≤◌};
ghost use Rattle.byte_formats.specs.Gives.{Gives};
ghost use Rattle.entry_codec.specs.Commands.{command_at, desk_command_at, feed_command_at, draft_command_at, release_command_at, newer_command_at};

use crate::field::{list, names, option};
use crate::story::{credited, story};
use crate::words::{feed_format, field, how, op, privileges};
use byte_formats::{Input, Stopped};
use news_types::{Command, Scheme, Statements, Texts};
use std::alloc::Global;

/// Reads a command behind its tag.
#[tactic(auto, unfolding(crate::specs::Commands::command_at))]
pub fn command(alloc: Global, input: &mut Input) -> Result<Command, Stopped>
    ensures { Gives result input.new (command_at input.old) }
{
    let tag = input.byte(1, 38)?;
    match tag {
        0..=8 => desk_command(alloc, input, tag),
        9..=16 => feed_command(alloc, input, tag),
        17..=24 => draft_command(alloc, input, tag),
        25..=32 => release_command(alloc, input, tag),
        _ => newer_command(alloc, input, tag),
    }
}

/// Those of users, desks, conditions and filters.
#[tactic(auto, unfolding(crate::specs::Commands::desk_command_at))]
pub fn desk_command(alloc: Global, input: &mut Input, tag: u8) -> Result<Command, Stopped>
    ensures { Gives result input.new (desk_command_at tag input.old) }
{
    match tag {
        1..=4 => user_command(input, tag),
        5 => Ok(Command::SetMember {
            desk: input.name()?,
            user: input.name()?,
            member: input.flag()?,
        }),
        6 => condition(alloc, input),
        7 => Ok(Command::AddFilter {
            filter: input.name()?,
            statements: Statements::of(list(alloc, input, 16)?),
        }),
        _ => Ok(Command::SetFilter {
            filter: input.name()?,
            statements: Statements::of(list(alloc, input, 16)?),
        }),
    }
}

/// Those of users, desks and stages.
#[tactic(auto, unfolding(crate::specs::Commands::desk_command_at))]
fn user_command(input: &mut Input, tag: u8) -> Result<Command, Stopped>
    requires from { 1 ≤ tag }
    requires to { tag ≤ 4 }
    ensures { Gives result input.new (desk_command_at tag input.old) }
{
    match tag {
        1 => Ok(Command::AddUser {
            user: input.name()?,
            privileges: privileges(input)?,
        }),
        2 => Ok(Command::SetUser {
            user: input.name()?,
            privileges: privileges(input)?,
        }),
        3 => Ok(Command::AddDesk {
            desk: input.name()?,
        }),
        4 => Ok(Command::AddStage {
            desk: input.name()?,
            stage: input.name()?,
        }),
        _ => unreachable!(),
    }
}

/// A new condition, behind its tag.
#[tactic(auto, unfolding(crate::specs::Commands::desk_command_at))]
fn condition(alloc: Global, input: &mut Input) -> Result<Command, Stopped>
    ensures { Gives result input.new (desk_command_at 6 input.old) }
{
    Ok(Command::AddCondition {
        condition: input.name()?,
        field: field(input)?,
        op: op(input)?,
        values: Texts::of(list(alloc, input, 64)?),
    })
}

/// Those of blocks, products, subscribers, schemes and providers.
#[tactic(auto, unfolding(crate::specs::Commands::feed_command_at))]
pub fn feed_command(alloc: Global, input: &mut Input, tag: u8) -> Result<Command, Stopped>
    ensures { Gives result input.new (feed_command_at tag input.old) }
{
    match tag {
        9..=11 => product_command(alloc, input, tag),
        12..=13 => subscriber_command(alloc, input, tag),
        14 => Ok(Command::Resume {
            subscriber: input.name()?,
        }),
        15 => Ok(Command::AddScheme {
            scheme: input.name()?,
            rules: Scheme::of(list(alloc, input, 64)?),
        }),
        _ => Ok(Command::AddProvider {
            provider: input.name()?,
            scheme: option(alloc, input)?,
        }),
    }
}

/// Those of blocks and products.
#[tactic(auto, unfolding(crate::specs::Commands::feed_command_at))]
fn product_command(alloc: Global, input: &mut Input, tag: u8) -> Result<Command, Stopped>
    requires from { 9 ≤ tag }
    requires to { tag ≤ 11 }
    ensures { Gives result input.new (feed_command_at tag input.old) }
{
    match tag {
        9 => Ok(Command::SetBlock {
            filter: input.name()?,
            on: input.flag()?,
        }),
        10 => Ok(Command::AddProduct {
            product: input.name()?,
            how: how(input)?,
            filter: option(alloc, input)?,
        }),
        11 => Ok(Command::SetProduct {
            product: input.name()?,
            how: how(input)?,
            filter: option(alloc, input)?,
        }),
        _ => unreachable!(),
    }
}

/// Those of subscribers without a lag.
#[tactic(auto, unfolding(crate::specs::Commands::feed_command_at))]
fn subscriber_command(alloc: Global, input: &mut Input, tag: u8) -> Result<Command, Stopped>
    requires from { 12 ≤ tag }
    requires to { tag ≤ 13 }
    ensures { Gives result input.new (feed_command_at tag input.old) }
{
    match tag {
        12 => Ok(Command::AddSubscriber {
            subscriber: input.name()?,
            format: feed_format(input)?,
            products: names(alloc, input, 64)?,
            lag: 0,
        }),
        13 => Ok(Command::SetSubscriber {
            subscriber: input.name()?,
            active: input.flag()?,
            products: names(alloc, input, 64)?,
            off: names(alloc, input, 64)?,
            lag: None,
        }),
        _ => unreachable!(),
    }
}

/// Those of items that are written and held.
#[tactic(auto, unfolding(crate::specs::Commands::draft_command_at))]
pub fn draft_command(alloc: Global, input: &mut Input, tag: u8) -> Result<Command, Stopped>
    ensures { Gives result input.new (draft_command_at tag input.old) }
{
    match tag {
        17..=20 => written_command(alloc, input, tag),
        21 => Ok(Command::BreakLock { item: input.u32()? }),
        22 => Ok(Command::Edit {
            item: input.u32()?,
            session: input.name()?,
            story: story(alloc, input)?,
        }),
        23 => Ok(Command::MoveTo {
            item: input.u32()?,
            desk: input.name()?,
            stage: input.name()?,
        }),
        _ => Ok(Command::Spike { item: input.u32()? }),
    }
}

/// Those of items that are written and locked.
#[tactic(auto, unfolding(crate::specs::Commands::draft_command_at))]
fn written_command(alloc: Global, input: &mut Input, tag: u8) -> Result<Command, Stopped>
    requires from { 17 ≤ tag }
    requires to { tag ≤ 20 }
    ensures { Gives result input.new (draft_command_at tag input.old) }
{
    match tag {
        17 => Ok(Command::Create {
            desk: input.name()?,
            story: story(alloc, input)?,
        }),
        18 => Ok(Command::Flash {
            story: story(alloc, input)?,
            targets: names(alloc, input, 256)?,
        }),
        19 => Ok(Command::Lock {
            item: input.u32()?,
            session: input.name()?,
        }),
        20 => Ok(Command::Unlock {
            item: input.u32()?,
            session: input.name()?,
        }),
        _ => unreachable!(),
    }
}

/// Those of items that are placed and published, and stopping.
#[tactic(auto, unfolding(crate::specs::Commands::release_command_at))]
pub fn release_command(alloc: Global, input: &mut Input, tag: u8) -> Result<Command, Stopped>
    ensures { Gives result input.new (release_command_at tag input.old) }
{
    match tag {
        25 => Ok(Command::Unspike {
            item: input.u32()?,
            desk: input.name()?,
        }),
        26 => Ok(Command::Fetch {
            item: input.u32()?,
            desk: input.name()?,
        }),
        27..=28 => published_command(alloc, input, tag),
        29..=30 => withdrawn_command(alloc, input, tag),
        31 => Ok(Command::Deschedule { item: input.u32()? }),
        _ => Ok(Command::Stop),
    }
}

/// Those of items that are published and corrected.
#[tactic(auto, unfolding(crate::specs::Commands::release_command_at))]
fn published_command(alloc: Global, input: &mut Input, tag: u8) -> Result<Command, Stopped>
    requires from { 27 ≤ tag }
    requires to { tag ≤ 28 }
    ensures { Gives result input.new (release_command_at tag input.old) }
{
    match tag {
        27 => Ok(Command::Publish {
            item: input.u32()?,
            session: input.name()?,
            schedule: option(alloc, input)?,
            embargo: option(alloc, input)?,
            targets: names(alloc, input, 256)?,
        }),
        28 => Ok(Command::Correct {
            item: input.u32()?,
            session: input.name()?,
            story: story(alloc, input)?,
        }),
        _ => unreachable!(),
    }
}

/// Those of items that are killed and recalled.
#[tactic(auto, unfolding(crate::specs::Commands::release_command_at))]
fn withdrawn_command(alloc: Global, input: &mut Input, tag: u8) -> Result<Command, Stopped>
    requires from { 29 ≤ tag }
    requires to { tag ≤ 30 }
    ensures { Gives result input.new (release_command_at tag input.old) }
{
    match tag {
        29 => Ok(Command::Kill {
            item: input.u32()?,
            session: input.name()?,
            note: input.text(alloc, 524288)?,
        }),
        30 => Ok(Command::Recall {
            item: input.u32()?,
            session: input.name()?,
            note: input.text(alloc, 524288)?,
        }),
        _ => unreachable!(),
    }
}

/// Those with a copyright, and subscribers with a lag.
#[tactic(auto, unfolding(crate::specs::Commands::newer_command_at))]
pub fn newer_command(alloc: Global, input: &mut Input, tag: u8) -> Result<Command, Stopped>
    ensures { Gives result input.new (newer_command_at tag input.old) }
{
    match tag {
        33..=34 => credited_command(alloc, input, tag),
        35..=36 => recredited_command(alloc, input, tag),
        37 => Ok(Command::AddSubscriber {
            subscriber: input.name()?,
            format: feed_format(input)?,
            products: names(alloc, input, 64)?,
            lag: input.u32_from_one(604800)?,
        }),
        _ => Ok(Command::SetSubscriber {
            subscriber: input.name()?,
            active: input.flag()?,
            products: names(alloc, input, 64)?,
            off: names(alloc, input, 64)?,
            lag: Some(input.u32_upto(604800)?),
        }),
    }
}

/// Those of new stories with a copyright.
#[tactic(auto, unfolding(crate::specs::Commands::newer_command_at))]
fn credited_command(alloc: Global, input: &mut Input, tag: u8) -> Result<Command, Stopped>
    requires from { 33 ≤ tag }
    requires to { tag ≤ 34 }
    ensures { Gives result input.new (newer_command_at tag input.old) }
{
    match tag {
        33 => Ok(Command::Create {
            desk: input.name()?,
            story: credited(alloc, input)?,
        }),
        34 => Ok(Command::Flash {
            story: credited(alloc, input)?,
            targets: names(alloc, input, 256)?,
        }),
        _ => unreachable!(),
    }
}

/// Those of edits and corrections with a copyright.
#[tactic(auto, unfolding(crate::specs::Commands::newer_command_at))]
fn recredited_command(alloc: Global, input: &mut Input, tag: u8) -> Result<Command, Stopped>
    requires from { 35 ≤ tag }
    requires to { tag ≤ 36 }
    ensures { Gives result input.new (newer_command_at tag input.old) }
{
    match tag {
        35 => Ok(Command::Edit {
            item: input.u32()?,
            session: input.name()?,
            story: credited(alloc, input)?,
        }),
        36 => Ok(Command::Correct {
            item: input.u32()?,
            session: input.name()?,
            story: credited(alloc, input)?,
        }),
        _ => unreachable!(),
    }
}
