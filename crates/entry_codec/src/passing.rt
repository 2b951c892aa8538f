//! Passing over an entry: its bytes are asked as reading asks them, but its stories, of which a log has the most, are not made.

ghost use Rattle.std.specs.Prelude.{◌≡◌, ℕ, Err, IfOk};
ghost use Rattle.news_types.specs.declared.entry.Entry.{Entry};
ghost use Rattle.byte_formats.specs.Faults.{IsFaultAt};
ghost use Rattle.byte_formats.specs.Gives.{all_of};
ghost use Rattle.entry_codec.specs.Spelling.{entry_bytes};
ghost use Rattle.entry_codec.specs.Formed.{IsEntry};
ghost use Rattle.entry_codec.specs.Reading.{story_at, credited_at, incoming_at, credited_incoming_at};
ghost use Rattle.entry_codec.specs.Commands.{draft_command_at, release_command_at, newer_command_at, command_at, act_at, entry_at, entry};
ghost use Rattle.entry_codec.specs.Answers.{IsOrMemory};
ghost use Rattle.entry_codec.specs.Passing.{Passes, PassesEntry, PassesAll};
ghost use Rattle.entry_codec.specs.declared.fault.CodecFault.TheVariants.{At};

use crate::fault::CodecFault;
use crate::field::{Field, names};
use crate::read_commands::{
    desk_command, draft_command, feed_command, newer_command, release_command,
};
use crate::reading::act_behind;
use crate::words::{kind, status};
use byte_formats::{Input, Stopped};
use news_types::Moment;
use std::alloc::Global;

/// The moment of the entry that these bytes are, all of them; the fault is that of `decode`.
pub fn moment_of(alloc: Global, payload: &[u8]) -> Result<Moment, CodecFault>
    // What is passed over is an entry within the limits, and these are its bytes.
    ensures found { IfOk result (λ moment. (e : Entry) × IsEntry e × (payload.now ≡ entry_bytes e) × (moment ≡ e.moment)) }

    // An entry's bytes are passed over.
    ensures only { (e : Entry) → IsEntry e → payload.now ≡ entry_bytes e → IsOrMemory result e.moment }
    ensures fault { (at : ℕ) → result ≡ Err (At at) → IsFaultAt entry_bytes IsEntry payload.now at }
{
    match all(alloc, payload) {
        Ok(moment) => Ok(moment),
        Err(Stopped::Memory) => Err(CodecFault::Memory),
        Err(Stopped::Left(left)) => Err(CodecFault::At {
            at: (payload.len() - left) as u64,
        }),
    }
}

/// The moment of the entry that all of the bytes spell.
#[tactic(auto, unfolding(byte_formats::specs::Gives::all_of))]
fn all(alloc: Global, payload: &[u8]) -> Result<Moment, Stopped>
    ensures { PassesAll result (all_of entry payload.now) }
{
    let mut input = Input::new(payload);
    let moment = whole_entry(alloc, &mut input)?;
    let left = input.left();
    if left != 0 {
        return Err(Stopped::Left(left));
    }
    Ok(moment)
}

#[tactic(auto, unfolding(crate::specs::Commands::entry_at))]
fn whole_entry(alloc: Global, input: &mut Input) -> Result<Moment, Stopped>
    ensures { PassesEntry result input.new (entry_at input.old) }
{
    let moment = Moment::read(alloc, input)?;
    act(alloc, input)?;
    Ok(moment)
}

#[tactic(auto, unfolding(crate::specs::Commands::act_at))]
fn act(alloc: Global, input: &mut Input) -> Result<(), Stopped>
    ensures { Passes result input.new (act_at input.old) }
{
    let tag = input.byte(1, 7)?;
    match tag {
        5 => {
            input.name()?;
            incoming(alloc, input)?;
        }
        6 => {
            input.name()?;
            input.u64()?;
            command(alloc, input)?;
        }
        7 => {
            input.name()?;
            credited_incoming(alloc, input)?;
        }
        _ => drop(act_behind(alloc, input, tag)?),
    }
    Ok(())
}

#[tactic(auto, unfolding(crate::specs::Commands::command_at))]
fn command(alloc: Global, input: &mut Input) -> Result<(), Stopped>
    ensures { Passes result input.new (command_at input.old) }
{
    let tag = input.byte(1, 38)?;
    match tag {
        0..=8 => drop(desk_command(alloc, input, tag)?),
        9..=16 => drop(feed_command(alloc, input, tag)?),
        17..=24 => draft(alloc, input, tag)?,
        25..=32 => release(alloc, input, tag)?,
        _ => newer(alloc, input, tag)?,
    }
    Ok(())
}

/// A command of an item that is written or held.
#[tactic(auto, unfolding(crate::specs::Commands::draft_command_at))]
fn draft(alloc: Global, input: &mut Input, tag: u8) -> Result<(), Stopped>
    ensures { Passes result input.new (draft_command_at tag input.old) }
{
    match tag {
        17 => {
            input.name()?;
            story(input)?;
        }
        18 => {
            story(input)?;
            names(alloc, input, 256)?;
        }
        22 => {
            input.u32()?;
            input.name()?;
            story(input)?;
        }
        _ => drop(draft_command(alloc, input, tag)?),
    }
    Ok(())
}

/// A command of an item that is placed or published, or the stop.
#[tactic(auto, unfolding(crate::specs::Commands::release_command_at))]
fn release(alloc: Global, input: &mut Input, tag: u8) -> Result<(), Stopped>
    ensures { Passes result input.new (release_command_at tag input.old) }
{
    match tag {
        28 => {
            input.u32()?;
            input.name()?;
            story(input)?;
        }
        _ => drop(release_command(alloc, input, tag)?),
    }
    Ok(())
}

/// A command with a copyright, or of a subscriber with a lag.
#[tactic(auto, unfolding(crate::specs::Commands::newer_command_at))]
fn newer(alloc: Global, input: &mut Input, tag: u8) -> Result<(), Stopped>
    ensures { Passes result input.new (newer_command_at tag input.old) }
{
    match tag {
        33 => {
            input.name()?;
            credited(alloc, input)?;
        }
        34 => {
            credited(alloc, input)?;
            names(alloc, input, 256)?;
        }
        35 | 36 => {
            input.u32()?;
            input.name()?;
            credited(alloc, input)?;
        }
        _ => drop(newer_command(alloc, input, tag)?),
    }
    Ok(())
}

/// A story without a copyright.
#[tactic(auto, unfolding(crate::specs::Reading::story_at))]
fn story(input: &mut Input) -> Result<(), Stopped>
    ensures { Passes result input.new (story_at input.old) }
{
    kind(input)?;
    input.byte(0, 9)?;
    input.str(500)?;
    input.str(500)?;
    input.str(500)?;
    input.str(35)?;
    input.str(3)?;
    input.str(524288)?;
    input.flag()?;
    Ok(())
}

/// A story, and the copyright behind it.
#[tactic(auto, unfolding(crate::specs::Reading::credited_at))]
fn credited(alloc: Global, input: &mut Input) -> Result<(), Stopped>
    ensures { Passes result input.new (credited_at input.old) }
{
    story(input)?;
    input.some_text(alloc, 500)?;
    Ok(())
}

/// What a provider sends, a story without a copyright.
#[tactic(auto, unfolding(crate::specs::Reading::incoming_at))]
fn incoming(alloc: Global, input: &mut Input) -> Result<(), Stopped>
    ensures { Passes result input.new (incoming_at input.old) }
{
    input.str(256)?;
    Moment::read(alloc, input)?;
    Moment::read(alloc, input)?;
    status(input)?;
    story(input)?;
    Ok(())
}

/// The same with a copyright.
#[tactic(auto, unfolding(crate::specs::Reading::credited_incoming_at))]
fn credited_incoming(alloc: Global, input: &mut Input) -> Result<(), Stopped>
    ensures { Passes result input.new (credited_incoming_at input.old) }
{
    input.str(256)?;
    Moment::read(alloc, input)?;
    Moment::read(alloc, input)?;
    status(input)?;
    credited(alloc, input)?;
    Ok(())
}
