//! Reading the entries of a segment.

ghost use Rattle.std.specs.Prelude.{◌≡◌, ℕ, ◌<◌, ◌≤◌, length, Err, IfOk};
ghost use Rattle.byte_formats.specs.Parts.{steps_at, boxed_at};
ghost use Rattle.byte_formats.specs.Gives.{Gives, GivesItems, GivesAll, all_of};
ghost use Rattle.byte_formats.specs.declared.stop.Stopped.TheVariants.{Left};
ghost use Rattle.entry_codec.specs.Commands.{act_fields};
ghost use Rattle.entry_codec.specs.Fits.{FitsAct};
ghost use Rattle.entry_segments.specs.Reading.{packed, packed_at, packed_act_at, behind_tag, counted_at, moment_of};

use byte_formats::{Input, Stopped};
use entry_codec::act_behind;
use news_types::{Act, Entry, Moment, Name};
use std::alloc::Global;

/// The greatest moment.
const LAST: u64 = 253402300799;

/// The most entries for which room is made before they are read: the count is not yet to be trusted.
const AHEAD: usize = 131072;

/// Reads so many entries.
pub fn entries(
    alloc: Global,
    input: &mut Input,
    names: &[Name],
    count: u32,
) -> Result<Vec<Entry>, Stopped>
    ensures { GivesItems result input.new (steps_at (packed names.now) moment_of count 0 input.old) }
{
    let mut entries = Vec::with_capacity(alloc, AHEAD.min(count as usize))?;
    let mut moment = 0;
    for _ in 0..count {
        let entry = entry_behind(alloc, input, names, moment)?;
        moment = entry.moment;
        entries.push(entry)?;
    }
    Ok(entries)
}

/// Reads an entry behind one of this moment.
#[tactic(auto, unfolding(crate::specs::Reading::packed_at))]
pub fn entry_behind(
    alloc: Global,
    input: &mut Input,
    names: &[Name],
    before: Moment,
) -> Result<Entry, Stopped>
    requires { before ≤ 253402300799 }
    ensures gives { Gives result input.new (packed_at names.now before input.old) }
    ensures fits { IfOk result (λ e. e.moment ≤ 253402300799) }
    ensures act { IfOk result (λ e. FitsAct e.act) }
{
    let more = input.varint(LAST - before)?;
    Ok(Entry {
        moment: before + more,
        act: packed_act(alloc, input, names)?,
    })
}

#[tactic(auto, unfolding(crate::specs::Reading::packed_act_at))]
fn packed_act(alloc: Global, input: &mut Input, names: &[Name]) -> Result<Act, Stopped>
    ensures gives { Gives result input.new (packed_act_at names.now input.old) }
    ensures act { IfOk result FitsAct }
{
    let tag = input.byte(1, 7)?;
    packed_behind(alloc, input, names, tag)
}

/// Reads an act behind its tag.
fn packed_behind(alloc: Global, input: &mut Input, names: &[Name], tag: u8) -> Result<Act, Stopped>
    requires low { 1 ≤ tag }
    requires high { tag ≤ 7 }
    ensures gives { Gives result input.new ((behind_tag names.now tag).read input.old) }
    ensures act { IfOk result FitsAct }
{
    match tag {
        2 => {
            let (place, k) = counted(input, names)?;
            Ok(Act::Attempt {
                subscriber: names[place],
                k,
            })
        }
        3 => {
            let (place, n) = counted(input, names)?;
            Ok(Act::Receipt {
                subscriber: names[place],
                n,
            })
        }
        1 => Ok(Act::Advance),
        4 => Ok(Act::Halt),
        _ => boxed_act(alloc, input, tag),
    }
}

/// Reads a name's place in the list, and a number.
#[tactic(auto, unfolding(crate::specs::Reading::counted_at))]
fn counted(input: &mut Input, names: &[Name]) -> Result<(usize, u32), Stopped>
    ensures gives { Gives result input.new (counted_at names.now input.old) }
    ensures within { IfOk result (λ p. p.0 < length names.now) }
{
    let place = input.u16_upto(65535)? as usize;
    if names.len() <= place {
        return Err(input.at_last());
    }
    let number = input.varint(4294967295)?;
    Ok((place, number as u32))
}

/// Reads an act in a known length, behind its tag.
#[tactic(auto, unfolding(byte_formats::specs::Parts::boxed_at))]
fn boxed_act(alloc: Global, input: &mut Input, tag: u8) -> Result<Act, Stopped>
    requires low { 1 ≤ tag }
    requires high { tag ≤ 7 }
    ensures gives { Gives result input.new (boxed_at (act_fields tag) input.old) }
    ensures act { IfOk result FitsAct }
{
    let len = input.u32()? as usize;
    let all = input.left();
    let block = input.bytes(len)?;
    match act_within(alloc, block, tag) {
        Ok(act) => Ok(act),
        Err(Stopped::Memory) => Err(Stopped::Memory),
        Err(Stopped::Left(left)) => Err(Stopped::Left(left + input.left())),
    }
}

/// Reads the act that all of the bytes spell behind its tag. A fault lies within them.
fn act_within(alloc: Global, block: &[u8], tag: u8) -> Result<Act, Stopped>
    requires low { 1 ≤ tag }
    requires high { tag ≤ 7 }
    ensures gives { GivesAll result (all_of (act_fields tag) block.now) }
    ensures within { (left : ℕ) → result ≡ Err (Left left) → left ≤ length block.now }
    ensures act { IfOk result FitsAct }
{
    whole_act(alloc, block, tag)
}

/// Reads the act that all of the bytes spell behind its tag.
#[tactic(auto, unfolding(byte_formats::specs::Gives::all_of))]
fn whole_act(alloc: Global, block: &[u8], tag: u8) -> Result<Act, Stopped>
    ensures { GivesAll result (all_of (act_fields tag) block.now) }
{
    let mut input = Input::new(block);
    let act = act_behind(alloc, &mut input, tag)?;
    let left = input.left();
    if left != 0 {
        drop(act);
        return Err(Stopped::Left(left));
    }
    Ok(act)
}
