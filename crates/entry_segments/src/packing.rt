//! Packing entries.

ghost use Rattle.std.specs.Prelude.{◌≡◌, ◌++◌, ◌+◌, ◌<◌, ◌≤◌, ◌^◌, [], length, take, All, OnOk, IfOk};
ghost use Rattle.news_types.specs.Names.{AreInOrder};
ghost use Rattle.byte_formats.specs.Spelling.{u32 as u32_bytes, u64 as u64_bytes};
ghost use Rattle.entry_codec.specs.Fits.{Fits};
ghost use Rattle.entry_segments.specs.Segment.{names_of, packed, all_packed, segment, InTime};
ghost use Rattle.entry_segments.specs.Packing.{fitting, IsLongest};
ghost use Rattle.entry_segments.specs.Spelled.{entry_in, entries_in, IsPayload};

use crate::front::Front;
use crate::payload_parts::parts_of;
use crate::payloads::payload_of;
use crate::told::put_told;
use byte_formats::put_varint;
use entry_codec::put_names;
use news_types::{Bytes, Entry, Memory, Moment, Name, Names};
use std::alloc::{AllocError, Global};

/// A segment's bytes, and how many entries it has.
#[derive(Drop)]
pub struct Packed {
    /// At most 2097152 bytes.
    pub payload: Bytes,
    /// How many entries, from the first one on.
    pub taken: usize,
}

/// The segment of the longest front of the entries that takes at most 2097152 bytes; `base` is how many entries
/// of the list stand before them. It fails only for want of memory.
pub fn pack(alloc: Global, base: u64, entries: &[Entry]) -> Result<Packed, Memory>
    requires some { 0 < length entries.now }
    requires each { All Fits entries.now }

    // Moments do not fall.
    requires in_time { InTime 0 entries.now }
    requires below { base + length entries.now < 2 ^ 48 }
    ensures payload { IfOk result (λ p. p.payload ≡ segment base (take p.taken entries.now)) }
    ensures longest { IfOk result (λ p. IsLongest base entries.now p.taken) }
{
    let payloads = payloads_of(alloc, entries)?;
    pack_payloads(alloc, base, payloads.as_slice())
}

/// The payloads of the entries' records.
fn payloads_of(alloc: Global, entries: &[Entry]) -> Result<Vec<Bytes>, Memory>
    requires { All Fits entries.now }
    ensures each { IfOk result (λ payloads. All IsPayload payloads.items) }
    ensures entries { IfOk result (λ payloads. entries_in payloads.items ≡ entries.now) }
{
    let mut payloads = Vec::new(alloc);
    let mut spelled = Vec::new(alloc);
    for entry in entries {
        payloads.push(payload_of(alloc, &mut spelled, entry)?)?;
    }
    Ok(payloads)
}

/// The segment of the longest front of these entries that takes at most 2097152 bytes, as `pack` packs them; `base` is how
/// many entries of the list stand before them. Each payload has to be an entry's bytes, as `encode` writes them and `decode`
/// takes them; none is decoded here. It fails only for want of memory.
pub fn pack_payloads(alloc: Global, base: u64, payloads: &[Bytes]) -> Result<Packed, Memory>
    requires some { 0 < length payloads.now }
    requires each { All IsPayload payloads.now }

    // Moments do not fall.
    requires in_time { InTime 0 (entries_in payloads.now) }
    requires below { base + length payloads.now < 2 ^ 48 }
    ensures payload { IfOk result (λ p. p.payload ≡ segment base (take p.taken (entries_in payloads.now))) }
    ensures longest { IfOk result (λ p. IsLongest base (entries_in payloads.now) p.taken) }
{
    let Front { taken, names, .. } = fitting(alloc, payloads)?;
    let front = &payloads[..taken];
    let names = Names::of(names);
    let mut out = Vec::new(alloc);
    put_head(&mut out, base, taken as u32)?;
    put_names(&mut out, &names)?;
    put_all(&mut out, names.as_slice(), front)?;
    Ok(Packed {
        payload: Bytes::of(out),
        taken,
    })
}

/// The longest front of the entries that goes into one segment.
fn fitting(alloc: Global, payloads: &[Bytes]) -> Result<Front, Memory>
    requires each { All IsPayload payloads.now }
    requires in_time { InTime 0 (entries_in payloads.now) }
    ensures taken { IfOk result (λ f. f.taken ≡ fitting 14 [] 0 (entries_in payloads.now)) }
    ensures some { IfOk result (λ f. 0 < length payloads.now → 0 < f.taken) }
    ensures names { IfOk result (λ f. f.names.items ≡ names_of (take f.taken (entries_in payloads.now))) }
{
    let mut front = Front::new(alloc);
    for payload in payloads {
        let entry = parts_of(payload.as_slice())?;
        if !front.takes(entry.moment, &entry.told)? {
            return Ok(front);
        }
    }
    Ok(front)
}

/// Writes the base and the count.
fn put_head(out: &mut Vec<u8>, base: u64, count: u32) -> Result<(), AllocError>
    ensures { OnOk result (out.new.items ≡ out.old.items ++ (u64_bytes base ++ u32_bytes count)) }
{
    out.extend_from_slice(&base.to_be_bytes())?;
    out.extend_from_slice(&count.to_be_bytes())?;
    Ok(())
}

/// Writes entries, of which the first one stands behind moment 0.
fn put_all(out: &mut Vec<u8>, names: &[Name], payloads: &[Bytes]) -> Result<(), Memory>
    requires each { All IsPayload payloads.now }
    requires in_time { InTime 0 (entries_in payloads.now) }
    requires few { length names.now ≤ 65535 }
    requires up { AreInOrder names.now }
    ensures { OnOk result (out.new.items ≡ out.old.items ++ all_packed names.now 0 (entries_in payloads.now)) }
{
    let mut moment = 0;
    for payload in payloads {
        moment = put_payload(out, names, moment, payload.as_slice())?;
    }
    Ok(())
}

/// Writes an entry behind one of this moment; the answer is its moment.
fn put_payload(
    out: &mut Vec<u8>,
    names: &[Name],
    before: Moment,
    payload: &[u8],
) -> Result<Moment, Memory>
    requires is { IsPayload payload.now }
    requires in_time { before ≤ (entry_in payload.now).moment }
    requires few { length names.now ≤ 65535 }
    requires up { AreInOrder names.now }
    ensures bytes { OnOk result (out.new.items ≡ out.old.items ++ packed names.now before (entry_in payload.now)) }
    ensures moment { IfOk result (λ m. m ≡ (entry_in payload.now).moment) }
{
    let entry = parts_of(payload)?;
    put_varint(out, entry.moment - before)?;
    out.push(payload[8])?;
    put_told(out, names, &entry.told, &payload[9..])?;
    Ok(entry.moment)
}
