//! Reading a segment, with its entries as the payloads of their records.

ghost use Rattle.std.specs.Prelude.{◌≡◌, ◌≤◌, ℕ, ◌-◌, [], length, Err, OnOk, IfOk};
ghost use Rattle.news_types.specs.Names.{AreInOrder};
ghost use Rattle.byte_formats.specs.Places.{IsDeadAt};
ghost use Rattle.byte_formats.specs.Gives.{all_of};
ghost use Rattle.byte_formats.specs.Parts.{steps_at};
ghost use Rattle.entry_codec.specs.Spelling.{entry_bytes};
ghost use Rattle.entry_codec.specs.Fits.{FitsAct};
ghost use Rattle.entry_codec.specs.Formed.{IsFormedAct};
ghost use Rattle.entry_codec.specs.declared.fault.CodecFault.TheVariants.{At};
ghost use Rattle.entry_segments.specs.declared.segment.Segment.{Segment};
ghost use Rattle.entry_segments.specs.Segment.{with_names_of};
ghost use Rattle.entry_segments.specs.Reading.{packed, packed_at, moment_of, segment, segment_at, segment_bytes};
ghost use Rattle.entry_segments.specs.Answers.{IsWhole};
ghost use Rattle.entry_segments.specs.Payloads.{IsReadFrom, HasPayloadsOrMemory, told_entry, told_behind, told_segment, told_whole, GivesEntry, GivesEntries, GivesSegment, GivesWhole};

use crate::entries::entry_behind;
use crate::names::add_names_of;
use crate::reading::{count, names};
use byte_formats::{Input, Stopped};
use entry_codec::{CodecFault, put_act};
use news_types::{Bytes, Entry, Memory, Moment, Name, Names};
use std::alloc::Global;

/// A segment, with its entries as the payloads of their records.
#[derive(Drop)]
pub struct SegmentPayloads {
    /// How many entries of the list stand before them.
    pub base: u64,
    pub payloads: Vec<Bytes>,
}

/// Payloads of entries, and the names of the entries' attempts and receipts.
#[derive(Drop)]
struct EntryPayloads {
    items: Vec<Bytes>,
    names: Names,
}

/// The segment that these bytes are, all of them: its base and its entries' payloads. It keeps no entry,
/// and it answers as `unpack` does.
///
/// Else the fault is the place where reading them stops, in bytes from their start, such that no segment
/// begins with the bytes up to and with it; or it is want of memory.
pub fn unpack_payloads(alloc: Global, payload: &[u8]) -> Result<SegmentPayloads, CodecFault>
    // What is read are entries that have a segment, and these are its bytes.
    ensures found { IfOk result (λ u. IsReadFrom payload.now u) }

    // A segment's bytes are read as its base and its entries' payloads.
    ensures only { (s : Segment) → IsWhole s → payload.now ≡ segment_bytes s → HasPayloadsOrMemory result s }

    // The bytes up to and with the place begin no segment's bytes;
    ensures fault { (at : ℕ) → result ≡ Err (At at) → IsDeadAt segment_bytes IsWhole payload.now at }

    // and it is the place where reading them part by part stops.
    ensures place { (at : ℕ) → result ≡ Err (At at) → all_of segment payload.now ≡ Err (length payload.now - at) }
{
    match whole(alloc, payload) {
        Ok(read) => Ok(read),
        Err(Stopped::Memory) => Err(CodecFault::Memory),
        Err(Stopped::Left(left)) => Err(CodecFault::At {
            at: (payload.len() - left) as u64,
        }),
    }
}

/// The segment that all of the bytes spell.
fn whole(alloc: Global, payload: &[u8]) -> Result<SegmentPayloads, Stopped>
    ensures { GivesWhole result (told_whole (all_of segment payload.now)) }
{
    let mut input = Input::new(payload);
    let read = segment(alloc, &mut input)?;
    let left = input.left();
    if left != 0 {
        return Err(Stopped::Left(left));
    }
    Ok(read)
}

fn segment(alloc: Global, input: &mut Input) -> Result<SegmentPayloads, Stopped>
    ensures { GivesSegment result input.new (told_segment (segment_at input.old)) }
{
    let base = input.u64_upto(281474976710654)?;
    let count = count(input, base)?;
    let names = names(alloc, input)?;
    let read = payloads(alloc, input, names.as_slice(), count)?;
    if read.names != names {
        return Err(input.at_last());
    }
    Ok(SegmentPayloads {
        base,
        payloads: read.items,
    })
}

/// Reads so many entries, and keeps none of them.
#[tactic(auto, using(crate::proofs::NameOrder::none_in_order))]
fn payloads(
    alloc: Global,
    input: &mut Input,
    names: &[Name],
    count: u32,
) -> Result<EntryPayloads, Stopped>
    ensures { GivesEntries result input.new (told_behind [] [] (steps_at (packed names.now) moment_of count 0 input.old)) }
{
    let mut items = Vec::new(alloc);
    let mut seen = Vec::new(alloc);
    let mut spelled = Vec::new(alloc);
    let mut moment = 0;
    for _ in 0..count {
        let (later, payload) = payload_behind(
            alloc,
            input,
            names,
            moment,
            &mut seen,
            &mut spelled,
        )?;
        moment = later;
        items.push(payload)?;
    }
    Ok(EntryPayloads {
        items,
        names: Names::of(seen),
    })
}

/// Reads an entry behind one of this moment: its own moment, and the payload of its record. The entry is
/// let go at once, since it takes many times the room of its payload.
fn payload_behind(
    alloc: Global,
    input: &mut Input,
    names: &[Name],
    before: Moment,
    seen: &mut Vec<Name>,
    spelled: &mut Vec<u8>,
) -> Result<(Moment, Bytes), Stopped>
    requires before { before ≤ 253402300799 }
    requires order { AreInOrder seen.now.items }
    ensures gives { GivesEntry result seen.new.items input.new (told_entry seen.old.items (packed_at names.now before input.old)) }
    ensures fits { IfOk result (λ p. p.0 ≤ 253402300799) }
    ensures order { OnOk result (AreInOrder seen.new.items) }
{
    let entry = entry_behind(alloc, input, names, before)?;
    let moment = entry.moment;
    let payload = payload_with_name(alloc, &entry, seen, spelled);
    drop(entry);
    Ok((moment, payload?))
}

/// The payload of an entry's record. The name of its attempt or receipt is put among the names.
fn payload_with_name(
    alloc: Global,
    entry: &Entry,
    seen: &mut Vec<Name>,
    spelled: &mut Vec<u8>,
) -> Result<Bytes, Memory>
    requires fits { FitsAct entry.now.act }
    requires order { AreInOrder seen.now.items }
    ensures payload { IfOk result (λ bytes. bytes ≡ entry_bytes entry.now) }
    ensures names { OnOk result (seen.new.items ≡ with_names_of entry.now.act seen.old.items) }
{
    add_names_of(seen, &entry.act)?;
    payload_of(alloc, spelled, entry)
}

/// The payload of an entry's record. It is spelled in a buffer that many entries share.
pub fn payload_of(alloc: Global, spelled: &mut Vec<u8>, entry: &Entry) -> Result<Bytes, Memory>
    requires { FitsAct entry.now.act }
    ensures bytes { IfOk result (λ bytes. bytes ≡ entry_bytes entry.now) }
    ensures form { OnOk result (IsFormedAct entry.now.act) }
{
    spelled.clear();
    spelled.extend_from_slice(&entry.moment.to_be_bytes())?;
    put_act(spelled, &entry.act)?;
    let payload = Bytes::copy_of(alloc, spelled.as_slice())?;
    Ok(payload)
}
