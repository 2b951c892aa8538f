//! The next segment of entries that are packed.
ghost use Rattle.std.specs.Prelude.{◌≡◌, ◌<◌, ◌≤◌, ◌+◌, ◌-◌, ◌^◌, length, take, drop, All, IfOk};
ghost use Rattle.news_io.specs.Keeper.{framed};
ghost use Rattle.entry_segments.specs.Segment.{InTime, segment};
ghost use Rattle.entry_segments.specs.Packing.{IsLongest};
ghost use Rattle.entry_segments.specs.Spelled.{entries_in, IsPayload};

use entry_segments::pack_payloads;
use news_types::{Bytes, Memory};
use std::alloc::{AllocError, Global};

/// A segment as a record.
#[derive(Drop)]
pub struct Next {
    pub framed: Vec<u8>,
    /// How many entries it has.
    pub taken: usize,
}

/// The frame of a payload.
fn frame(alloc: Global, payload: &[u8]) -> Result<Vec<u8>, AllocError>
    requires { length payload.now ≤ 4194304 }
    ensures { IfOk result (λ bytes. bytes.items ≡ framed payload.now) }
{
    let mut bytes = Vec::new(alloc);
    bytes.extend_from_slice(&(payload.len() as u32).to_be_bytes())?;
    bytes.extend_from_slice(payload)?;
    bytes.push(0)?;
    Ok(bytes)
}

/// The segment of the longest front of these entries that goes into one; `base` is how many entries of the list stand before them.
pub fn next_segment(alloc: Global, base: u64, payloads: &[Bytes]) -> Result<Next, Memory>
    requires some { 0 < length payloads.now }
    requires each { All IsPayload payloads.now }
    requires in_time { InTime 0 (entries_in payloads.now) }
    requires below { base + length payloads.now < 2 ^ 48 }
    ensures longest { IfOk result (λ next. IsLongest base (entries_in payloads.now) next.taken) }
    ensures framed { IfOk result (λ next. next.framed.items ≡ framed (segment base (take next.taken (entries_in payloads.now)))) }
{
    let packed = pack_payloads(alloc, base, payloads)?;
    let framed = frame(alloc, packed.payload.as_slice())?;
    Ok(Next {
        framed,
        taken: packed.taken,
    })
}

/// What stands behind the first so many entries.
pub fn behind(payloads: &[Bytes], count: usize) -> &[Bytes]
    ensures behind { entries_in result.now ≡ drop count (entries_in payloads.now) }
    ensures count { length result.now ≡ length payloads.now - count }
    ensures each { All IsPayload payloads.now → All IsPayload result.now }
    ensures in_time { InTime 0 (entries_in payloads.now) → InTime 0 (entries_in result.now) }
{
    &payloads[count.min(payloads.len())..]
}
