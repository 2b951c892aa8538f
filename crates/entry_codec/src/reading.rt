//! Reading an entry.

ghost use Rattle.std.specs.Prelude.{◌≡◌, ℕ, Ok, Err, IfOk};
ghost use Rattle.news_types.specs.declared.entry.Entry.{Entry};
ghost use Rattle.byte_formats.specs.Faults.{IsFaultAt};
ghost use Rattle.byte_formats.specs.Gives.{Gives, GivesAll, all_of};
ghost use Rattle.entry_codec.specs.Spelling.{entry_bytes};
ghost use Rattle.entry_codec.specs.Formed.{IsEntry};
ghost use Rattle.entry_codec.specs.Commands.{act_at, act_fields, entry_at, entry};
ghost use Rattle.entry_codec.specs.Answers.{IsOrMemory};
ghost use Rattle.entry_codec.specs.declared.fault.CodecFault.TheVariants.{At};

use crate::fault::CodecFault;
use crate::field::Field;
use crate::read_commands::command;
use crate::story::{credited_incoming, incoming};
use byte_formats::{Input, Stopped};
use news_types::{Act, Entry, Moment};
use std::alloc::Global;

/// The entry that these bytes are, all of them.
///
/// Else the fault is at the first byte such that no entry's bytes begin with the bytes up to and
/// with it, or at their end where they end too soon; or it is want of memory.
pub fn decode(alloc: Global, payload: &[u8]) -> Result<Entry, CodecFault>
    // What is read is an entry within the limits, and these are its bytes.
    ensures found { IfOk result (λ e. IsEntry e × (payload.now ≡ entry_bytes e)) }

    // An entry's bytes are read as that entry.
    ensures only { (e : Entry) → IsEntry e → payload.now ≡ entry_bytes e → IsOrMemory result e }
    ensures fault { (at : ℕ) → result ≡ Err (At at) → IsFaultAt entry_bytes IsEntry payload.now at }
{
    match all(alloc, payload) {
        Ok(entry) => Ok(entry),
        Err(Stopped::Memory) => Err(CodecFault::Memory),
        Err(Stopped::Left(left)) => Err(CodecFault::At {
            at: (payload.len() - left) as u64,
        }),
    }
}

/// The entry that all of the bytes spell.
#[tactic(auto, unfolding(byte_formats::specs::Gives::all_of))]
fn all(alloc: Global, payload: &[u8]) -> Result<Entry, Stopped>
    ensures { GivesAll result (all_of entry payload.now) }
{
    let mut input = Input::new(payload);
    let entry = whole_entry(alloc, &mut input)?;
    let left = input.left();
    if left != 0 {
        drop(entry);
        return Err(Stopped::Left(left));
    }
    Ok(entry)
}

#[tactic(auto, unfolding(crate::specs::Commands::entry_at))]
fn whole_entry(alloc: Global, input: &mut Input) -> Result<Entry, Stopped>
    ensures { Gives result input.new (entry_at input.old) }
{
    Ok(Entry {
        moment: Moment::read(alloc, input)?,
        act: act(alloc, input)?,
    })
}

#[tactic(auto, unfolding(crate::specs::Commands::act_at))]
fn act(alloc: Global, input: &mut Input) -> Result<Act, Stopped>
    ensures { Gives result input.new (act_at input.old) }
{
    let tag = input.byte(1, 7)?;
    act_behind(alloc, input, tag)
}

/// The act of this tag, from the bytes behind the tag.
pub fn act_behind(alloc: Global, input: &mut Input, tag: u8) -> Result<Act, Stopped>
    ensures { Gives result input.new ((act_fields tag).read input.old) }
{
    match tag {
        1 => Ok(Act::Advance),
        2 => Ok(Act::Attempt {
            subscriber: input.name()?,
            k: input.u32()?,
        }),
        3 => Ok(Act::Receipt {
            subscriber: input.name()?,
            n: input.u32()?,
        }),
        4 => Ok(Act::Halt),
        5 => Ok(Act::Ingest {
            provider: input.name()?,
            incoming: incoming(alloc, input)?,
        }),
        6 => request(alloc, input),
        _ => Ok(Act::Ingest {
            provider: input.name()?,
            incoming: credited_incoming(alloc, input)?,
        }),
    }
}

/// A request, behind its tag.
fn request(alloc: Global, input: &mut Input) -> Result<Act, Stopped>
    ensures { Gives result input.new ((act_fields 6).read input.old) }
{
    Ok(Act::Request {
        caller: input.name()?,
        number: input.u64()?,
        command: command(alloc, input)?,
    })
}
