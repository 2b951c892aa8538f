//! Reading a segment, with its entries as payloads.
ghost use Rattle.std.specs.Prelude.{◌≡◌, ◌≤◌, ◌-◌, ◌*◌, ℕ, length, Some, None, Err, IfOk};
ghost use Rattle.byte_formats.specs.Gives.{all_of};
ghost use Rattle.entry_segments.specs.Reading.{segment};
ghost use Rattle.news_pair.specs.Segments.{segment_in};
ghost use Rattle.news_pair.specs.declared.segments.NoSegment.TheVariants.{At};

use entry_codec::CodecFault;
use entry_segments::{SegmentPayloads, unpack_payloads};
use std::alloc::Global;

/// Why bytes are no segment.
pub enum NoSegment {
    /// The place where reading them stops, in bytes from their start.
    At { at: u64 },
    /// Want of memory.
    Memory,
}

/// The segment that these bytes are.
pub fn read_segment(alloc: Global, payload: &[u8]) -> Result<SegmentPayloads, NoSegment>
    ensures found { IfOk result (λ s. segment_in payload.now ≡ Some (s.base, s.payloads.items)) }
    ensures few { IfOk result (λ s. 2 * length s.payloads.items ≤ length payload.now) }
    ensures fault { (at : ℕ) → result ≡ Err (At at) → (all_of segment payload.now ≡ Err (length payload.now - at)) × (at ≤ length payload.now) }
{
    match unpack_payloads(alloc, payload) {
        Ok(segment) => Ok(segment),
        Err(CodecFault::At { at }) => Err(NoSegment::At { at }),
        Err(CodecFault::Memory) => Err(NoSegment::Memory),
    }
}
