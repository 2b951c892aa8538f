//! Reading a segment.

ghost use Rattle.std.specs.Prelude.{◌≡◌, ℕ, ◌-◌, [], length, Err, IfOk};
ghost use Rattle.byte_formats.specs.Places.{IsDeadAt};
ghost use Rattle.byte_formats.specs.Gives.{Gives, GivesItems, GivesAll, all_of};
ghost use Rattle.byte_formats.specs.Parts.{steps_at};
ghost use Rattle.entry_codec.specs.declared.fault.CodecFault.TheVariants.{At};
ghost use Rattle.entry_segments.specs.declared.segment.Segment.{Segment};
ghost use Rattle.entry_segments.specs.Reading.{above, above_at, the_name, count_at, names_at, segment, segment_at, segment_bytes};
ghost use Rattle.entry_segments.specs.Answers.{IsWhole, IsOrMemory, name_before};

use crate::entries::entries;
use crate::names::{follows, names_of};
use crate::segment::{Entries, Segment};
use byte_formats::{Input, Stopped};
use entry_codec::CodecFault;
use news_types::{Name, Names};
use std::alloc::Global;

/// Numbers of entries are below it: they have six bytes.
const LIMIT: u64 = 281474976710656;

/// The segment that these bytes are, all of them.
///
/// Else the fault is the place where reading them stops, in bytes from their start, such that no segment
/// begins with the bytes up to and with it; or it is want of memory.
pub fn unpack(alloc: Global, payload: &[u8]) -> Result<Segment, CodecFault>
    // What is read are entries that have a segment, and these are its bytes.
    ensures found { IfOk result (λ s. IsWhole s × (payload.now ≡ segment_bytes s)) }

    // A segment's bytes are read as its base and its entries.
    ensures only { (s : Segment) → IsWhole s → payload.now ≡ segment_bytes s → IsOrMemory result s }

    // The bytes up to and with the place begin no segment's bytes;
    ensures fault { (at : ℕ) → result ≡ Err (At at) → IsDeadAt segment_bytes IsWhole payload.now at }

    // and it is the place where reading them part by part stops.
    ensures place { (at : ℕ) → result ≡ Err (At at) → all_of segment payload.now ≡ Err (length payload.now - at) }
{
    match whole(alloc, payload) {
        Ok(segment) => Ok(segment),
        Err(Stopped::Memory) => Err(CodecFault::Memory),
        Err(Stopped::Left(left)) => Err(CodecFault::At {
            at: (payload.len() - left) as u64,
        }),
    }
}

/// The segment that all of the bytes spell.
#[tactic(auto, unfolding(byte_formats::specs::Gives::all_of))]
fn whole(alloc: Global, payload: &[u8]) -> Result<Segment, Stopped>
    ensures { GivesAll result (all_of segment payload.now) }
{
    let mut input = Input::new(payload);
    let segment = segment(alloc, &mut input)?;
    let left = input.left();
    if left != 0 {
        return Err(Stopped::Left(left));
    }
    Ok(segment)
}

#[tactic(auto, unfolding(crate::specs::Reading::segment_at))]
fn segment(alloc: Global, input: &mut Input) -> Result<Segment, Stopped>
    ensures { Gives result input.new (segment_at input.old) }
{
    let base = input.u64_upto(281474976710654)?;
    let count = count(input, base)?;
    let names = names(alloc, input)?;
    let entries = Entries::of(entries(alloc, input, names.as_slice(), count)?);
    if names_of(alloc, entries.as_slice())? != names {
        return Err(input.at_last());
    }
    Ok(Segment { base, entries })
}

/// Reads how many entries there are.
#[tactic(auto, unfolding(crate::specs::Reading::count_at))]
pub fn count(input: &mut Input, base: u64) -> Result<u32, Stopped>
    ensures { Gives result input.new (count_at base input.old) }
{
    let count = input.u32()?;
    if count == 0 || LIMIT <= base || LIMIT - base <= u64::from(count) {
        return Err(input.at_last());
    }
    Ok(count)
}

/// Reads names in byte order, none twice.
#[tactic(auto, unfolding(crate::specs::Reading::names_at))]
pub fn names(alloc: Global, input: &mut Input) -> Result<Names, Stopped>
    ensures { Gives result input.new (names_at input.old) }
{
    let count = input.u16_upto(65535)?;
    Ok(Names::of(ascending(alloc, input, count)?))
}

fn ascending(alloc: Global, input: &mut Input, count: u16) -> Result<Vec<Name>, Stopped>
    ensures { GivesItems result input.new (steps_at above the_name count [] input.old) }
{
    let mut names = Vec::new(alloc);
    let mut last = None;
    for _ in 0..count {
        let name = name_above(input, &last)?;
        last = Some(name);
        names.push(name)?;
    }
    Ok(names)
}

/// Reads a name that comes behind the last one.
#[tactic(auto, unfolding(crate::specs::Reading::above_at))]
fn name_above(input: &mut Input, last: &Option<Name>) -> Result<Name, Stopped>
    ensures { Gives result input.new (above_at (name_before last.now) input.old) }
{
    let name = input.name()?;
    if !follows(last, &name) {
        return Err(input.at_last());
    }
    Ok(name)
}
